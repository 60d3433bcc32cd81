//! Sessions of the tests, over files in memory.
//!
//! A test gives the program's words, the script, the capture and the place where an edge fails. What makes a shelf and a sink of
//! them, runs a session and tells its status and what was written stands here once, for the serial call and for the other one,
//! whose gate the test gives. Captures are made of named frames, some of whose bytes may be others, or of whole records.
//!
//! Only tests use this crate. It has none itself, so it is proved once.
#![tactic(auto)]

mod captures;
mod edges;
mod sessions;

pub use captures::{Capture, Frame, Record, file_of_records};
pub use edges::{Fails, Inputs};
pub use sessions::{Outcome, run_serial, run_with};
