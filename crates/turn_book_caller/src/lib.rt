//! A caller of `turn_book` at one type: two threads note values in one log, in turns.
//!
//! It shows that the contracts compose. `note` takes a turn, adds an entry and ends the turn, and
//! is proved from the public contracts of `turn_book` with no proof file: the history that the seat
//! has seen afterwards is what it had seen, then entries of others, then this one; and the seat's
//! own list grew by just this entry. `log_of_two` runs two such callers in threads of their own and
//! closes the book. That both threads' entries are all there, each thread's in its order, is tested.
#![tactic(auto)]

mod log;
#[cfg(test)]
mod tests;
mod turns;

pub use log::{Log, LogEntry};
pub use turns::{close_two, log_of_two, note, note_below, note_in_two};
