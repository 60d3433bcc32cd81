//! The parts of a file as they come from a source: the file header, and a record.
ghost use Rattle.std.specs.Prelude.{◌≡◌, ◌≤◌, length, is_some, IfOk, None};
ghost use Rattle.capture_files.specs.Record.{IsWithinLimits, refusal_of};
ghost use Rattle.capture_files.specs.Parts.{ReadsHeader, ReadsFormat, ReadsRecordHeader, ReadsRecord, PartCause};

use crate::fill::{Filled, fill};
use crate::header::{Format, HEADER_LEN, read_header};
use crate::record::{MAX_FRAME_LEN, Progress, RECORD_HEADER_LEN, RecordHeader};
use crate::stop::{CaptureKind, Stop};
use io_edges::Source;

/// Why a part didn't come.
#[derive(Clone, Copy)]
pub enum Halt {
    /// The file stops there.
    Stopped(Stop),
    /// The source failed.
    Faulted,
}

/// Reads the file header.
pub fn next_header<S: Source>(source: &mut S) -> Result<Format, Halt>
    ensures reads { ReadsHeader (S.left source.old) (S.left source.new) result }
    ensures told { is_some (S.left source.new) ≡ is_some (S.left source.old) }
    ensures cause { PartCause (S.faults source.old) (S.faults source.new) result }
    ensures keeps { S.keeps source.old source.new }
{
    let mut header = [0; HEADER_LEN];
    match fill(source, &mut header) {
        Filled::Whole => match read_header(&header) {
            Ok(format) => Ok(format),
            Err(stop) => Err(Halt::Stopped(stop)),
        },
        Filled::Cut { .. } => Err(Halt::Stopped(Stop::Bad {
            place: 0,
            kind: CaptureKind::HeaderCut,
        })),
        Filled::Fault => Err(Halt::Faulted),
    }
}

/// The form of the file, for which the file header is read where the form isn't known.
pub fn known_format<S: Source>(format: Option<Format>, source: &mut S) -> Result<Format, Halt>
    ensures reads { ReadsFormat format (S.left source.old) (S.left source.new) result }
    ensures told { is_some (S.left source.new) ≡ is_some (S.left source.old) }
    ensures cause { PartCause (S.faults source.old) (S.faults source.new) result }
    ensures keeps { S.keeps source.old source.new }
{
    match format {
        Some(known) => Ok(known),
        None => next_header(source),
    }
}

/// Reads the header of the record at `progress`.
fn next_record_header<S: Source>(
    format: Format,
    progress: Progress,
    source: &mut S,
) -> Result<RecordHeader, Halt>
    ensures reads { ReadsRecordHeader format progress (S.left source.old) (S.left source.new) result }
    ensures told { is_some (S.left source.new) ≡ is_some (S.left source.old) }
    ensures cause { PartCause (S.faults source.old) (S.faults source.new) result }
    ensures keeps { S.keeps source.old source.new }
{
    let mut header = [0; RECORD_HEADER_LEN];
    match fill(source, &mut header) {
        Filled::Whole => Ok(RecordHeader::read(format, &header)),
        Filled::Cut { got: 0 } => Err(Halt::Stopped(Stop::End)),
        Filled::Cut { .. } => Err(Halt::Stopped(progress.cut())),
        Filled::Fault => Err(Halt::Faulted),
    }
}

/// Reads the record at `progress`: its captured bytes into the front of `buf`.
pub fn next_record<S: Source>(
    format: Format,
    progress: Progress,
    source: &mut S,
    buf: &mut [u8],
) -> Result<RecordHeader, Halt>
    requires within { IsWithinLimits progress }
    requires room { 262_144 ≤ length buf.old }
    ensures reads { ReadsRecord format progress (S.left source.old) (S.left source.new) result buf.new }
    ensures allowed { IfOk result (λ header. refusal_of progress header.captured_len ≡ None) }
    ensures told { is_some (S.left source.new) ≡ is_some (S.left source.old) }
    ensures cause { PartCause (S.faults source.old) (S.faults source.new) result }
    ensures keeps { S.keeps source.old source.new }
{
    let header = next_record_header(format, progress, source)?;
    if let Some(stop) = progress.refusal(header.captured_len) {
        return Err(Halt::Stopped(stop));
    }
    match fill(source, &mut buf[..header.captured_len as usize]) {
        Filled::Whole => Ok(header),
        Filled::Cut { .. } => Err(Halt::Stopped(progress.cut())),
        Filled::Fault => Err(Halt::Faulted),
    }
}
