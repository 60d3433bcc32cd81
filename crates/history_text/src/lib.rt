//! The transcript of a history: what the program prints at its end.
//!
//! A history is a list of entries, each a call with its reply or a frame with its verdict. Its transcript is a text of
//! lines: one for each entry in order, then one with the totals, and one more where the capture stopped early. An entry's
//! line is made of the entry alone, and of the number of Rx queues, so the transcript of a history is the lines of its
//! entries joined, and so it is defined (`specs/Text.antt`, with the parts of a line in the files beside it).
//!
//! The naive way is to make that text in memory and then to write it. A history of a million frames has some fifty
//! million bytes of it, and a refused growth in the middle would lose a transcript that could still be printed. So each
//! piece of a line goes at once to a page of fixed size before the sink (`io_edges`), and no memory is taken.
//!
//! The answer is the same: each printing function says of the text that was printed before it, whatever it is, that its
//! own piece now stands behind that. At the end the sink took the whole text, or a write failed and it took a front of
//! the text, whose length is told.
//!
//! What holds between calls: after a failed write nothing more is written, so what the sink took is never more than one
//! front.
//!
//! A text that isn't on the way of each frame is a form: it stands with each number in it written `0`, as
//! `Flow rule #0 created`, and is printed with its numbers (`specs/Forms.antt`).
//!
//! One file prints one part of a line, and the definition of that part has its name:
//! - `caller`: the shell, an agent or a worker (`specs/Callers.antt`),
//! - `kind`: the table of the texts of replies, a line for each, and which numbers a reply has (`specs/Kinds.antt`),
//! - `cause`: the table of error types, their causes and texts, and the form of a refusal (`specs/Causes.antt`),
//! - `row`: a list of rules, a line each (`specs/Rows.antt`),
//! - `pulled`: the results of a flow queue, a letter each (`specs/Pulled.antt`),
//! - `totals`, `reply`, `verdict` (`specs/Totals.antt`, `specs/Replies.antt`, `specs/Verdicts.antt`),
//! - `ending`: the line of a capture that stopped early (`specs/Endings.antt`),
//! - `transcript`: an entry's line, and the whole (`specs/Text.antt`).
//!
//! What is told by two equal texts is the same: of each entry its caller, its place or number, and its reply or verdict; and
//! how the capture ended (`read_back`, with what a text can tell in `specs/Told.antt`). A reply's text is told from the others
//! by the table itself, read as rows (`specs/Reading.antt`, `specs/KindRows.antt`): a new reply is a row more there, and a
//! case more of what it is made of (`proofs/ReplyLaws.antt`, `unspelled`).
//!
//! Not done here: reading a transcript back.
#![tactic(auto)]

mod caller;
mod cause;
mod ending;
mod form;
mod kind;
mod number;
mod pulled;
mod read_back;
mod reply;
mod row;
mod sending;
mod totals;
mod transcript;
mod verdict;

pub use ending::Ending;
pub use read_back::{
    kinds_are_read_back, replies_are_told_apart, transcripts_are_told_apart,
    verdicts_are_told_apart,
};
pub use sending::transmit_files_grow;
pub use transcript::{print_entry, print_history};
