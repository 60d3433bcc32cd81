//! A record: what its header says, and how far a reader has come through the records.
ghost use Rattle.std.specs.Prelude.{◌≡◌, ◌≤◌, length, Option};
ghost use Rattle.capture_files.specs.Record.{record_header, refusal_of, behind, IsWithinLimits};

use crate::header::{Format, HEADER_LEN};
use crate::stop::{CaptureKind, Stop};

/// The bytes of a record's header: seconds (4), part (4), captured length (4), wire length (4).
pub const RECORD_HEADER_LEN: usize = 16;

/// The most captured bytes of one record, as many as tcpdump takes of a packet. A reader's buffer has room for them.
pub const MAX_FRAME_LEN: usize = 262_144;

/// The most frames of a capture. What is kept of each, about 100 bytes, stays in memory to the end of a session: so it comes to
/// about 100 MB.
pub const MAX_FRAMES: u32 = 1_048_576;

/// The most captured bytes of all frames of a capture together, 1 GiB: who writes the frames out again behind the session keeps
/// them until then.
pub const MAX_CAPTURED: u32 = 1_073_741_824;

/// When a frame was captured: the seconds, and the part of a second in microseconds, or nanoseconds where `nano` is set.
#[derive(Clone, Copy, Debug, PartialEq, Eq)]
pub struct Stamp {
    pub seconds: u32,
    pub part: u32,
    pub nano: bool,
}

/// What a record's header says.
#[derive(Clone, Copy, Debug, PartialEq, Eq)]
pub struct RecordHeader {
    pub stamp: Stamp,
    pub captured_len: u32,
    pub wire_len: u32,
}

impl RecordHeader {
    pub fn read(format: Format, header: &[u8]) -> RecordHeader
        requires { length header.now ≡ 16 }
        ensures { result ≡ record_header format header.now }
    {
        RecordHeader {
            stamp: Stamp {
                seconds: format.read_u32(header),
                part: format.read_u32(&header[4..]),
                nano: format.is_nano(),
            },
            captured_len: format.read_u32(&header[8..]),
            wire_len: format.read_u32(&header[12..]),
        }
    }
}

/// How far a reader has come behind the file header: the place of the next record, how many frames were given, and how
/// many captured bytes they had together.
#[derive(Clone, Copy, Debug, PartialEq, Eq)]
pub struct Progress {
    pub place: u64,
    pub frames: u32,
    pub captured: u32,
}

impl Progress {
    /// The first record stands behind the file header.
    pub const START: Progress = Progress {
        place: HEADER_LEN as u64,
        frames: 0,
        captured: 0,
    };

    /// Why a record of that captured length isn't read, if it isn't.
    pub fn refusal(self, captured_len: u32) -> Option<Stop>
        requires { IsWithinLimits self }
        ensures { result ≡ refusal_of self captured_len }
    {
        if captured_len as usize > MAX_FRAME_LEN {
            return Some(Stop::Bad {
                place: self.place,
                kind: CaptureKind::RecordLength,
            });
        }
        if self.frames == MAX_FRAMES || self.captured + captured_len > MAX_CAPTURED {
            return Some(Stop::Large { place: self.place });
        }
        None
    }

    /// The stop where the file ends within the record.
    pub fn cut(self) -> Stop
        ensures { result ≡ Stop.Bad self.place CaptureKind.RecordCut }
    {
        Stop::Bad {
            place: self.place,
            kind: CaptureKind::RecordCut,
        }
    }

    /// How far the reader has come behind a record of that captured length.
    pub fn behind(self, captured_len: u32) -> Progress
        requires within { IsWithinLimits self }
        requires allowed { refusal_of self captured_len ≡ None }
        ensures progress { result ≡ behind self captured_len }
        ensures within { IsWithinLimits result }
    {
        Progress {
            place: self.place + RECORD_HEADER_LEN as u64 + captured_len as u64,
            frames: self.frames + 1,
            captured: self.captured + captured_len,
        }
    }
}
