//! Replicas that catch up, and frames as they leave: the bytes that are known from elsewhere.
//!
//! These tests stand in a crate of their own, because a crate is proved twice where it has tests. They call public functions
//! alone.
#![tactic(auto)]

#[cfg(test)]
mod made;
#[cfg(test)]
mod rows;
