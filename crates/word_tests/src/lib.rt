//! Words in tables: what lines, items, addresses and whole scripts say.
//!
//! A row is a text, and beside it what the testpmd guide or the manual makes of it, in a short form that the helpers of
//! `shown` write. These tests stand in a crate of their own because a crate is proved twice where it has tests. They call
//! public functions alone.
#![tactic(auto)]

#[cfg(test)]
mod actions;
#[cfg(test)]
mod addresses;
#[cfg(test)]
mod forms;
#[cfg(test)]
mod items;
#[cfg(test)]
mod lines;
#[cfg(test)]
mod queues;
#[cfg(test)]
mod relations;
#[cfg(test)]
mod scripts;
#[cfg(test)]
mod shared_actions;
#[cfg(test)]
mod shown;
#[cfg(test)]
mod templates;
