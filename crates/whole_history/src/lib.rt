//! Whole histories: what a history must hold so that it tells a whole run of a program over a capture.
//!
//! Its model in one sentence: a history is whole where every call of the program and every frame that its phases reach
//! stands in it exactly once, in its caller's order, and nothing else does.
//!
//! A program is a list of sections and phases (`flow_grammar`), a capture a list of frames and a stop (`capture_files`), a
//! history a list of entries (`adapter`). `specs/Reach` says which frames each phase takes: so many as it counts of those
//! that remain, or all; and whether it asks for the capture's stop. `specs/Whole` cuts a history into one piece for each
//! part: a section's calls, or a phase's opening, its middle and its closing. In a middle the callers may take turns as they
//! like, so many histories are whole for one program and one capture.
//!
//! `specs/Serial` is the plain one of them: in each phase the shell's calls, then those of the agents by number, and then
//! the frames by worker 0, each entry with the reply or verdict that is due at its place. It is legal and it is whole, for
//! all programs and captures: [`serial_histories_are_legal`] and [`serial_histories_are_whole`] are these laws.
//!
//! This crate has no code that runs. It stands below the session, so that whoever judges a history that somebody kept can
//! stand on it without the session.
#![tactic(auto)]

mod laws;

pub use laws::{serial_histories_are_legal, serial_histories_are_whole};
