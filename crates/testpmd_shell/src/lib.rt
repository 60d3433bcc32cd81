//! The flow shell over a software port: a session from its words to its transcript.
//!
//! Its model in one sentence: a session prints one legal and whole history of its script, its capture and its options, however the
//! callers of its phases take turns, or says why it did not.
//!
//! The problem. A script of `flow` commands opens phases, in which the frames of a capture pass the rules while the shell and the
//! agents of flow queues change them. The transcript has a line for each command and for each frame, and the reader wants to trust each
//! of them, and every way to end.
//!
//! The definition is naive. The program of the script is a list of sections and phases (`flow_grammar`). A history is legal where each
//! entry has the reply or verdict that the entries before it give, and whole where every call of the program and every frame of its
//! phases stands in it exactly once, in its caller's order, and nothing else does (`whole_history`). In the serial history a phase is its
//! opening, the shell's calls, the agents', its frames by worker 0 and its closing, one after the other.
//!
//! The parts of a program run in one of two ways (`specs/Ways`), and what is said of a run is said once for both (`specs/Parts`):
//!
//! - In the serial order, on an adapter, one record of the capture at a time, into one buffer (`src/parts.rt`, `src/phase.rt`). The lead
//!   worker judges each frame by a replica of what packets see, which catches up with the adapter's changes before it (`src/lead.rt`).
//! - On threads: a phase's frames are read before it (`src/frames.rt`), and its callers take turns on a shared port (`running_phase`).
//!   Each worker has one replica for the whole session (`src/threads.rt`). Nothing is assumed of who comes first.
//!
//! The history keeps no frame but its key and length; where a transmit file is named, a worker keeps the bytes of each frame that goes
//! to a queue, as its replica edits them. The transcript is printed at the end, and then the transmit file is written
//! (`src/transmit.rt`). A capture that stops early (bad, too large, a failed read) gives no further frames, and the script runs on: the
//! transcript is printed, and behind its totals the line of the stop, which is the status too.
//!
//! One record holds what a run saw of its words, its shelf and its sink (`specs/Run`), and one relation says what an answer
//! means, `Says` in `specs/Session`: for each status its cause and what was written, by the bytes that the shelf tells
//! (`specs/Found`). [`session_serial`] says it of the serial history, [`session`] of some legal one that is whole with the session's
//! workers. Where no call failed the status is the one that the files owe, or there was no memory.
//!
//! The words are taken apart by one simple command (`src/command.rt`), and what it makes of them is the definition of the
//! options (`specs/Options`), with the ranges of the numbers.
//!
//! What is kept of the frames so far is what the history so far sends of them, whatever frames stand behind (`specs/Sending`). So
//! at the end it is the transmit file of the whole history over all frames (`transmit_of` of `history_text`), and its clause
//! stands beside that of the transcript, for the same history.
//!
//! The order is: words; opening and reading the script; its size; opening the transmit file; opening the capture; the run; the
//! transcript; the transmit file's bytes. What stops in front of the run has written nothing. A capture that no phase reads is
//! never bad.
#![tactic(auto)]

mod ask;
mod command;
mod feed;
mod fetch;
mod frames;
mod lead;
mod numbers;
mod options;
mod parts;
mod phase;
mod run;
mod shell;
mod status;
mod threads;
mod transmit;
mod words;

pub use shell::{session, session_serial};
pub use status::Status;

/// The most bytes of a script.
pub const MAX_SCRIPT: usize = 1_048_576;
