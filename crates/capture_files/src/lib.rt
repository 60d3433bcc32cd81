//! Captures: pcap files of format 2.4, read and written one record a call.
//!
//! A capture is a file header of 24 bytes and then records, each of a header of 16 bytes and the captured bytes of one
//! frame. Its model is a list of frames and one stop: why no further frame comes, and where. `specs/Capture.antt` says it
//! as a function of the file's bytes, `capture`: the header's form or its first fault (`specs/Header.antt`), then the
//! record at the front of what is left, or why there is none (`specs/Record.antt`), and so on with the rest. The recursion
//! has the number of bytes as fuel; each record has 16 bytes or more, so the fuel lasts (`proofs/Records.antt`,
//! `records_of-step`).
//!
//! The naive reader takes the whole file into memory and goes over it by that definition. `CaptureReader` keeps nothing
//! but how far it has come, and reads a record into its caller's buffer from a source that may give single bytes. It is
//! the same since a record is told by its own bytes, whatever stands behind it: so what is still to come, `rest_of` in
//! `specs/Reader.antt`, is a function of the reader and of the bytes that its source has left. Each answer of `next` takes
//! one frame off it, or is its stop; a fresh reader has the whole capture to come. For the same reason the frames of a file's
//! front are the first of the file's, wherever the front ends (`frames_of_a_front_come_first`).
//!
//! Between two calls the source stands in front of the next record, or of the file header where none was read yet. Every
//! answer but a frame ends the reader: nothing is read behind it. Where the source fails in the midst of a record, the
//! frames that were given are those whose last byte came before; the bytes of the record are lost.
//!
//! The magic tells the form of the file: whether its numbers have the lowest or the highest byte first, and whether stamps
//! count microseconds or nanoseconds. A file is refused where its magic is none of these four, where its version isn't 2.4,
//! or where the low 16 bits of its link type aren't Ethernet; the high 16 bits hold what some writers say of frame check
//! sequences. Snap length, stamps and wire lengths aren't checked. A capture has limits (`src/record.rt`); past them it is
//! too large, at the place of the record that passes them.
//!
//! What is written is little-endian with microseconds, byte for byte as `specs/Writing.antt` says, and is read as the frames
//! that were written (`written_captures_are_read`). Who writes many frames prints them on one page, so that the sink is
//! called once for a page (`print_header`, `print_frame`); `write_header` and `write_frame` end their page themselves.
//!
//! Not done here: pcapng, compressed files, and reading backwards or from the middle.
#![tactic(auto)]

mod fill;
mod front;
mod header;
mod parts;
mod reader;
mod record;
mod stop;
mod writing;

pub use front::frames_of_a_front_come_first;
pub use reader::{CaptureReader, Next};
pub use record::{MAX_FRAME_LEN, Stamp};
pub use stop::CaptureKind;
pub use writing::{
    print_frame, print_header, write_frame, write_header, written_captures_are_read,
};
