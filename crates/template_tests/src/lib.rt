//! Templates, tables and slots, row by row, under the contracts that every caller has.
//!
//! These tests stand in a crate of their own, because a crate is proved twice where it has tests. They call public functions
//! alone.
#![tactic(auto)]

#[cfg(test)]
mod binding_rows;
#[cfg(test)]
mod made;
#[cfg(test)]
mod refusal_rows;
#[cfg(test)]
mod slot_rows;
