//! Structures beside naive ones, both driven by the same generated calls.
//!
//! These tests stand in a crate of their own because a crate is proved twice where it has tests, once with them and once
//! without: here the structures' proofs, which take far longer than the tests', are made once. They call public functions
//! alone, under the contracts that every caller has.
#![tactic(auto)]

#[cfg(test)]
mod pool_tests;
#[cfg(test)]
mod queue_tests;
