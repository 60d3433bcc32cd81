//! The file header: what it says of the file, and what may be wrong with it.
ghost use Rattle.std.specs.Prelude.{◌≡◌, ◌≤◌, length};
ghost use Rattle.capture_files.specs.Header.{number_of, is_nano, format_of, header_of};

use crate::stop::{CaptureKind, Stop};
use byteorder::{BigEndian, ByteOrder, LittleEndian};

/// The bytes of a file header: magic (4), major version (2), minor version (2), two fields that are ignored (4 and 4),
/// snap length (4, ignored), link type (4).
pub const HEADER_LEN: usize = 24;

/// The magic of a file whose stamps count microseconds, read in the file's own order.
const MICROS: u32 = 0xa1b2_c3d4;

/// The magic of a file whose stamps count nanoseconds, read in the file's own order.
const NANOS: u32 = 0xa1b2_3c4d;

/// The link type of Ethernet, in the low 16 bits of its field.
const ETHERNET: u32 = 1;

/// The forms of file that are read: the order of a number's bytes, and the unit of a stamp's part.
#[derive(Clone, Copy, Debug, PartialEq, Eq)]
pub enum Format {
    /// The lowest byte first, and microseconds.
    LittleMicros,
    /// The lowest byte first, and nanoseconds.
    LittleNanos,
    /// The highest byte first, and microseconds.
    BigMicros,
    /// The highest byte first, and nanoseconds.
    BigNanos,
}

impl Format {
    /// The form that a file's first four bytes tell.
    fn of_magic(bytes: &[u8]) -> Option<Format>
        requires { 4 ≤ length bytes.now }
        ensures { result ≡ format_of bytes.now }
    {
        let little = Format::LittleMicros.read_u32(bytes);
        if little == MICROS {
            return Some(Format::LittleMicros);
        }
        if little == NANOS {
            return Some(Format::LittleNanos);
        }
        let big = Format::BigMicros.read_u32(bytes);
        if big == MICROS {
            return Some(Format::BigMicros);
        }
        if big == NANOS {
            return Some(Format::BigNanos);
        }
        None
    }

    /// The number in the first two bytes.
    #[tactic(auto, unfolding(crate::specs::Header::number_of))]
    fn read_u16(self, bytes: &[u8]) -> u16
        requires { 2 ≤ length bytes.now }
        ensures { result ≡ number_of self 2 bytes.now }
    {
        match self {
            Format::LittleMicros | Format::LittleNanos => LittleEndian::read_u16(bytes),
            Format::BigMicros | Format::BigNanos => BigEndian::read_u16(bytes),
        }
    }

    /// The number in the first four bytes.
    #[tactic(auto, unfolding(crate::specs::Header::number_of))]
    pub fn read_u32(self, bytes: &[u8]) -> u32
        requires { 4 ≤ length bytes.now }
        ensures { result ≡ number_of self 4 bytes.now }
    {
        match self {
            Format::LittleMicros | Format::LittleNanos => LittleEndian::read_u32(bytes),
            Format::BigMicros | Format::BigNanos => BigEndian::read_u32(bytes),
        }
    }

    /// Whether a stamp's part counts nanoseconds.
    pub fn is_nano(self) -> bool
        ensures { result ≡ is_nano self }
    {
        match self {
            Format::LittleMicros | Format::BigMicros => false,
            Format::LittleNanos | Format::BigNanos => true,
        }
    }
}

/// The form of a file with that header, or what is wrong with the header.
pub fn read_header(header: &[u8]) -> Result<Format, Stop>
    requires { length header.now ≡ 24 }
    ensures { result ≡ header_of header.now }
{
    let Some(format) = Format::of_magic(header) else {
        return Err(Stop::Bad {
            place: 0,
            kind: CaptureKind::Magic,
        });
    };
    if format.read_u16(&header[4..]) != 2 || format.read_u16(&header[6..]) != 4 {
        return Err(Stop::Bad {
            place: 4,
            kind: CaptureKind::Version,
        });
    }
    if format.read_u32(&header[20..]) % 65_536 != ETHERNET {
        return Err(Stop::Bad {
            place: 20,
            kind: CaptureKind::LinkType,
        });
    }
    Ok(format)
}
