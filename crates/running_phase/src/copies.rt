//! Frames with their numbers: as they came, and as they go out.
ghost use Rattle.std.specs.Prelude.{◌≤◌};

use capture_files::Stamp;

/// A frame of the capture.
#[derive(Drop)]
pub struct FrameCopy {
    /// Its number in the capture, counted from 1.
    pub number: u32,
    /// Bytes on the wire.
    pub wire_len: u32,
    pub stamp: Stamp,
    /// Its captured bytes, at most 262,144.
    pub bytes: Vec<u8>,
    ghost short: { bytes.len ≤ 262144 },
}
