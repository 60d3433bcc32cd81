//! Callers who share one adapter, one after the other and on threads of their own.
//!
//! A rule that one caller creates is found by the next one, and behind two threads that ask side by side each caller's entries
//! are its own calls, in order. These tests stand in a crate of their own because a crate is proved twice where it has tests.
//! They call public functions alone.
#![tactic(auto)]

#[cfg(test)]
mod asked;
#[cfg(test)]
mod bursting;
#[cfg(test)]
mod judging;
#[cfg(test)]
mod planned;
#[cfg(test)]
mod seats;
#[cfg(test)]
mod two_threads;
