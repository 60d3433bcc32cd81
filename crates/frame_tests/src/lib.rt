//! Frames in tables and generated ones: their layers, which patterns match them, their edits and their hashes; and the first
//! faults of rules.
//!
//! What a row says was read off the bytes, the guide or a standard, and beside the compiled pattern a plain one answers.
//! These tests stand in a crate of their own because a crate is proved twice where it has tests, once with them and once
//! without: here the proofs of the crates below are made once. They call public functions alone.
#![tactic(auto)]

#[cfg(test)]
mod changes;
#[cfg(test)]
mod edit_tests;
#[cfg(test)]
mod hash_tests;
#[cfg(test)]
mod header_tests;
#[cfg(test)]
mod pattern_tests;
#[cfg(test)]
mod rule_tests;
