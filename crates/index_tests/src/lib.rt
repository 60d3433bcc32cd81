//! The index of rules in tables, and beside a plain list, both driven by the same generated calls.
//!
//! These tests stand in a crate of their own, because a crate is proved twice where it has tests. They call public functions
//! alone.
#![tactic(auto)]

#[cfg(test)]
mod generated_tests;
#[cfg(test)]
mod made;
#[cfg(test)]
mod row_tests;
