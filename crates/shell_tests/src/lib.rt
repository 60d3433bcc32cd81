//! Sessions in tables: scripts over captures in memory, with their statuses and transcripts.
//!
//! A row names what it shows, and its transcript was worked out by hand from the manual. One helper runs a row by
//! `session_serial`, and by `session` with words that ask for the serial order where a phase could take another one. These tests
//! stand in a crate of their own because a crate is proved twice where it has tests. They call public functions alone.
#![tactic(auto)]

#[cfg(test)]
mod counters;
#[cfg(test)]
mod endings;
#[cfg(test)]
mod marks;
#[cfg(test)]
mod options;
#[cfg(test)]
mod patterns;
#[cfg(test)]
mod phases;
#[cfg(test)]
mod queues;
#[cfg(test)]
mod rules;
#[cfg(test)]
mod run;
#[cfg(test)]
mod sending;
#[cfg(test)]
mod templates;
