//! Where the bytes of a run come from and go to.
//!
//! A run reads a script and a capture, writes a transcript and perhaps a file of frames. What it promises speaks of
//! these bytes and of faults, so the edge of the program is four traits with a meaning, and all code above is generic
//! over them: a source that is read, a sink that is written, a shelf of named files, and a gate where a test may hold
//! packet workers.
//!
//! The model in one sentence: a source is the list of the bytes that it has left, a sink the list of those that it took,
//! each where it can tell them, and each has a count of faults that rises just where a call failed.
//!
//! The naive answer is to say nothing of files, since no clause can know what the system holds. Then neither could it be
//! said that the transcript is the text of the history, nor that a fault was answered only because one came. So the bytes
//! are told by the objects that can tell them, those in memory, and every theorem above reads "where they are told". A
//! count in place of a flag lets a caller say "a fault came in this call" of an object that lives longer than the call.
//!
//! What holds between calls: a count never falls and ends at 2^64 - 1; whether bytes are told never changes; a failed
//! call gave and took nothing; each slot and the written file is opened at most once, by a name that the shelf allows;
//! and a call changes nothing but what its clause names. `keeps` of a source or a sink says what it leaves alone, so that
//! who lent it a part of a shelf knows the whole shelf again behind the loan.
//!
//! The objects: `SlotSource` and `ShelfSink` lend a slot or the written file of a shelf. `MemSource`, `MemSink` and
//! `MemShelf` stand in memory, tell all, and fail exactly where that was planned. `FileShelf` and `StdSink` are real
//! files and standard output: they are proved against the traits, tell no bytes, and are trusted to do what the system
//! does. No call but `MemSink::new`, `MemShelf::new` and those on real files takes memory.
//!
//! Definitions: `specs/Edge`, `specs/Faults` and `specs/ShelfState` say what every object does, `specs/Lent` what a loan
//! keeps, `specs/Plan`, `specs/Reading`, `specs/MemSourceState`, `specs/MemSinkState` and `specs/MemShelfState` exactly
//! what the objects in memory do.
#![tactic(auto)]

mod ahead;
mod cursor;
mod edge;
mod file_shelf;
mod gate;
mod lent;
mod mem_shelf;
mod memory;
mod page;
mod plan;
mod printing;
mod shelf;
mod std_sink;
mod to_end;
mod writing;

pub use edge::{Failed, Sink, Source};
pub use file_shelf::FileShelf;
pub use gate::{Gate, OpenGate};
pub use lent::{ShelfSink, SlotSource};
pub use mem_shelf::{FaultPlan, MemShelf};
pub use memory::{MemSink, MemSource};
pub use page::Page;
pub use printing::{finish, print, print_number, print_numbers};
pub use shelf::{Shelf, Slot};
pub use std_sink::StdSink;
pub use to_end::{ReadAll, read_all};
pub use writing::{WriteFault, write_all};
