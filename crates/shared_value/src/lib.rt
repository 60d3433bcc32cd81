//! A value that several holders share.
//!
//! A rule of 7 KB stands in a call, in the history, among the rules in effect, in the list of changes and in each replica.
//! Each of them holds it whole, by its contracts: the plain way is that each has a copy of its own. With a [`Shared`] they
//! hold one value that never changes, and a copy of it takes no memory.
//!
//! **Model.** Contracts see a `Shared` as just its value: `Shared<Rule>` in a type reads as the rule itself in every definition,
//! and a copy is equal to what it was made of. The last holder that lets go of the value frees it.
//!
//! Not here: values that change, and values that one holder alone has.
#![tactic(auto)]

mod shared;

pub use shared::Shared;
