//! Rules of the tests, made of lists.
//!
//! A test writes the items and the actions of a rule as arrays. What turns them into the lists of a rule stands here once, and so do
//! attributes of rules on incoming frames, items without numbers, and a port on which no action is shared.
//!
//! A list is the front of an array that a rule has room for, and the number of its further elements, as it is for a line of a
//! script. Only tests use this crate. It has none itself, so it is proved once.
#![tactic(auto)]

mod lists;
mod none_shared;

pub use lists::{actions_of, any, ingress, pattern_of, pattern_of_kinds};
pub use none_shared::NoneShared;
