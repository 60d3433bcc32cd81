//! Captures made of named frames.
ghost use Rattle.std.specs.Prelude.{IfOk, OnOk};
ghost use Rattle.test_sessions.specs.Captures.{BeginsAsFile};

use std::alloc::{AllocError, Global};

/// The header of a little-endian capture with microseconds.
const FILE_HEADER: [u8; 24] = [
    0xd4, 0xc3, 0xb2, 0xa1, 2, 0, 4, 0, 0, 0, 0, 0, 0, 0, 0, 0, 0, 0, 4, 0, 1, 0, 0, 0,
];

/// A named frame, and those of its bytes that are others, by their places.
pub type Frame = (&'static [u8], &'static [(usize, u8)]);

/// A record: its header of 16 bytes, and its frame.
pub type Record = ([u8; 16], Frame);

/// The bytes of a capture.
#[derive(Clone, Copy)]
pub enum Capture<'a> {
    /// A capture of these frames.
    Of(&'a [Frame]),
    /// As many bytes of the front of a capture of these frames.
    Front(&'a [Frame], usize),
    /// A capture of these records.
    Records(&'a [Record]),
    /// These bytes.
    Bytes(&'a [u8]),
}

/// A frame's bytes.
fn frame_bytes(alloc: Global, frame: &Frame) -> Result<Vec<u8>, AllocError> {
    let (named, changes) = frame;
    let mut bytes = Vec::from_slice(alloc, named)?;
    for (place, byte) in *changes {
        if let Some(changed) = bytes.get_mut(*place) {
            *changed = *byte;
        }
    }
    Ok(bytes)
}

fn push_record(alloc: Global, bytes: &mut Vec<u8>, record: &Record) -> Result<(), AllocError>
    ensures { OnOk result (BeginsAsFile bytes.old.items → BeginsAsFile bytes.new.items) }
{
    let (header, frame) = record;
    let frame = frame_bytes(alloc, frame)?;
    bytes.extend_from_slice(header)?;
    bytes.extend_from_slice(&frame)?;
    Ok(())
}

/// A frame with a header that has its length as both lengths, and no stamp.
fn push_frame(alloc: Global, bytes: &mut Vec<u8>, frame: &Frame) -> Result<(), AllocError>
    ensures { OnOk result (BeginsAsFile bytes.old.items → BeginsAsFile bytes.new.items) }
{
    let (named, _) = frame;
    let len = named.len().min(255) as u8;
    let header = [0, 0, 0, 0, 0, 0, 0, 0, len, 0, 0, 0, len, 0, 0, 0];
    push_record(alloc, bytes, &(header, *frame))
}

/// A capture of these frames.
fn file_of(alloc: Global, frames: &[Frame]) -> Result<Vec<u8>, AllocError> {
    let mut bytes = Vec::from_slice(alloc, &FILE_HEADER)?;
    for frame in frames {
        push_frame(alloc, &mut bytes, frame)?;
    }
    Ok(bytes)
}

/// A capture of these records.
pub fn file_of_records(alloc: Global, records: &[Record]) -> Result<Vec<u8>, AllocError>
    ensures { IfOk result (λ bytes. BeginsAsFile bytes.items) }
{
    let mut bytes = Vec::from_slice(alloc, &FILE_HEADER)?;
    for record in records {
        push_record(alloc, &mut bytes, record)?;
    }
    Ok(bytes)
}

/// The bytes of a capture.
pub(crate) fn bytes_of(alloc: Global, capture: Capture<'_>) -> Result<Vec<u8>, AllocError> {
    match capture {
        Capture::Of(frames) => file_of(alloc, frames),
        Capture::Front(frames, len) => {
            let mut bytes = file_of(alloc, frames)?;
            bytes.truncate(len);
            Ok(bytes)
        }
        Capture::Records(records) => file_of_records(alloc, records),
        Capture::Bytes(bytes) => Vec::from_slice(alloc, bytes),
    }
}
