//! Shared actions and counters: what stands at an id, who uses it and what it counted, row by row.
//!
//! These tests stand in a crate of their own because a crate is proved twice where it has tests, once with them and once
//! without: here the proofs of `indirect_counters` are made once. They call public functions alone.
#![tactic(auto)]

#[cfg(test)]
mod counting;
#[cfg(test)]
mod sharing;
