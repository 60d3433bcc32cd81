//! The plain one-thread adapter: a port's state, and the history of all that was asked and all that passed.
//!
//! Its model in one sentence: an adapter is its limits, its history, a list of entries that is always legal, and how much room for
//! more entries was taken ahead.
//!
//! The problem. A port takes calls that change its rules, and frames that these rules judge. Whoever reads what it did
//! wants to know that each reply and each verdict is the one that was due at that moment.
//!
//! The naive answer keeps nothing but the list of entries. Each entry is a call with its reply, or a frame with its
//! verdict. To answer a call it folds the whole list into the state behind it: the rules in effect, in the order in which
//! they took effect, and the actions that they share. A frame's verdict is found by a walk that scans those rules, group by
//! group. The totals are counts over the entries, and so is what a counter stands at: each frame adds to the counters that its
//! walk names.
//!
//! The code here does the same with running values: the rules in effect and the shared actions, each with what it has counted,
//! and counts of the frames. A frame's counters rise with its entry: they are found by the rules on its path (`raising`). The
//! type's invariant says that they are those of the history, and that the history is legal: each reply and each verdict is
//! the one that the entries before it give. So each call has one exact clause, in the words of the history alone, and
//! whoever stands above needs nothing else.
//!
//! Between calls the history only grows. A call that meets want of memory leaves the adapter as it was: `step` and
//! `packet` take what they need before they change anything: a call is judged first (its reply, and what it does), its entry
//! is made, and carrying it out is the last step that can want memory; behind it the entry is put into the history.
//!
//! Whoever holds the adapter for a short turn packs its frames before (`Packed`) and enters them by one call, `burst`: it takes room for
//! all of them first, so that want of memory leaves no entry behind, and each frame is then moved into the history and counted.
//!
//! Memory can be taken ahead: `reserve` makes room for lines and frames, and `spare` tells what is left of it. Where a frame is spare,
//! `packet` takes no memory and can't fail. A line takes room for one line at most, a frame for one frame, and nothing else takes
//! any. A history has at most 2^32 entries with those that are spare; the call that would pass this answers want of memory.
//!
//! What packets see changes with some calls alone. These changes are kept in a list beside the history (`specs/Changes`), so that a
//! replica can follow: its version is the number of changes that it has seen, and `changes_from` lends it the others.
//!
//! The definitions stand in `specs/`: `History` (what is legal) and `Seen`. What calls do and answer, what packets see of that, and
//! what counters stand at behind a history is said in `port_state`, and what entries are made of in `flow_calls`.
//!
//! Entries of frames are many, so what is kept of them is small (`kept`): `entry` makes the frame and its verdict anew, and
//! `line` what a line tells of them. A call lies in a box of its own.
//!
//! Not done here: reading scripts or captures, printing, threads.
#![tactic(auto)]

mod adapter;
mod history;
mod kept;
mod line;
mod packed;
mod spare;

pub use adapter::Adapter;
pub use line::LineView;
pub use packed::Packed;
pub use spare::Spare;
