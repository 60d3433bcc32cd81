//! The reader of captures: one record a call.
ghost use Rattle.std.specs.Prelude.{◌≡◌, ◌≤◌, false, not, length, is_some, IsSome, IfOk, MatchResult};
ghost use Rattle.capture_files.specs.Record.{IsWithinLimits, behind};
ghost use Rattle.capture_files.specs.Parts.{ReadsFrame, PartCause};

use crate::header::Format;
use crate::parts::{Halt, known_format, next_record};
use crate::record::{MAX_FRAME_LEN, Progress, RecordHeader, Stamp};
use crate::stop::{CaptureKind, Stop};
use io_edges::Source;
use std::marker::Model;

/// What the next record is, or why there is none. A place counts the bytes of the file in front of it.
#[derive(Clone, Copy, Debug, PartialEq, Eq)]
pub enum Next {
    /// A frame, whose `len` captured bytes are the front of the buffer; it had `wire_len` bytes on the wire.
    Frame {
        len: u32,
        wire_len: u32,
        stamp: Stamp,
    },
    /// The file ends behind a whole record.
    End,
    /// The file is no capture that is read, or is cut.
    Bad {
        place: u64,
        kind: CaptureKind,
    },
    /// The record at that place would make the capture too large.
    Large {
        place: u64,
    },
    /// The source failed.
    ReadFault,
}

impl From<Halt> for Next {
    ghost use Rattle.capture_files.specs.Reader.{answer_of};

    ghost from_gives = { λ halt answer. answer ≡ answer_of halt };

    fn from(halt: Halt) -> Next {
        match halt {
            Halt::Stopped(Stop::End) => Next::End,
            Halt::Stopped(Stop::Bad { place, kind }) => Next::Bad { place, kind },
            Halt::Stopped(Stop::Large { place }) => Next::Large { place },
            Halt::Faulted => Next::ReadFault,
        }
    }
}

/// Reads the frames of a capture from a source, one a call.
///
/// Contracts see of a reader how far it has come, and so, by `rest_of`, which frames and which stop are still to come
/// of the bytes that its source has left.
#[derive(Debug, Drop)]
pub struct CaptureReader {
    format: Option<Format>,
    progress: Progress,
    ended: bool,
}

impl Model for CaptureReader {
    ghost use Rattle.capture_files.specs.Reader.{ReaderState};
    ghost use Rattle.capture_files.specs.Record.{IsWithinLimits};

    ghost Value = { ReaderState };

    ghost view = { λ r. record { format = r.format; progress = r.progress; ended = r.ended } };

    ghost invariant = { λ r. IsWithinLimits r.progress };
}

impl CaptureReader {
    ghost use Rattle.capture_files.specs.Reader.{opening, rest_of, told, is_frame, TellsRest, TellsGiven, NextCause, Counts};

    /// A reader that has read nothing.
    pub fn new() -> CaptureReader
        ensures { result ≡ opening }
    {
        CaptureReader {
            format: None,
            progress: Progress::START,
            ended: false,
        }
    }

    /// Whether the last answer was another than a frame. Nothing is read then.
    pub fn ended(&self) -> bool
        ensures { result ≡ self.now.ended }
    {
        self.ended
    }

    /// Reads the next record.
    pub fn next<S: Source>(&mut self, source: &mut S, buf: &mut [u8]) -> Next
        requires running { self.old.ended ≡ false }
        requires room { 262_144 ≤ length buf.old }

        // where the source tells its bytes
        ensures rest { IsSome (S.left source.old)
            → TellsRest (rest_of self.old (told (S.left source.old))) (rest_of self.new (told (S.left source.new))) result buf.new }
        ensures told { is_some (S.left source.new) ≡ is_some (S.left source.old) }

        // of the bytes that the source gave, told or not
        ensures given { TellsGiven (rest_of self.old) (rest_of self.new) (S.left source.old) (S.left source.new) result buf.new }

        ensures ended { self.new.ended ≡ not (is_frame result) }
        ensures counts { Counts self.old self.new result }
        ensures cause { NextCause (S.faults source.old) (S.faults source.new) result }
        ensures later { S.faults source.old ≤ S.faults source.new }
        ensures keeps { S.keeps source.old source.new }
    {
        match next_frame(&mut self.format, &mut self.progress, source, buf) {
            Ok(header) => Next::Frame {
                len: header.captured_len,
                wire_len: header.wire_len,
                stamp: header.stamp,
            },
            Err(halt) => {
                self.ended = true;
                Next::from(halt)
            }
        }
    }
}

/// Reads the file header, if it wasn't read, and the next record.
fn next_frame<S: Source>(
    format: &mut Option<Format>,
    progress: &mut Progress,
    source: &mut S,
    buf: &mut [u8],
) -> Result<RecordHeader, Halt>
    requires within { IsWithinLimits progress.old }
    requires room { 262_144 ≤ length buf.old }
    ensures reads { ReadsFrame format.old progress.old format.new progress.new (S.left source.old) (S.left source.new) result buf.new }
    ensures progress { MatchResult result (λ header. progress.new ≡ behind progress.old header.captured_len) (λ _. progress.new ≡ progress.old) }
    ensures within { IsWithinLimits progress.new }
    ensures short { IfOk result (λ header. header.captured_len ≤ 262144) }
    ensures told { is_some (S.left source.new) ≡ is_some (S.left source.old) }
    ensures cause { PartCause (S.faults source.old) (S.faults source.new) result }
    ensures keeps { S.keeps source.old source.new }
{
    let known = known_format(*format, source)?;
    *format = Some(known);
    let header = next_record(known, *progress, source, buf)?;
    *progress = progress.behind(header.captured_len);
    Ok(header)
}
