//! Writing captures: the file header and a record, little-endian with microseconds, and that what was written is read.
ghost use Rattle.std.specs.Prelude.{◌≡◌, ◌≤◌, List, length, map};
ghost use Rattle.io_edges.specs.Gather.{gather_of};
ghost use Rattle.io_edges.specs.Prints.{Prints, Ends, start_of};
ghost use Rattle.capture_files.specs.declared.stop.Stop.TheVariants.{End};
ghost use Rattle.capture_files.specs.Record.{Frame};
ghost use Rattle.capture_files.specs.Capture.{capture};
ghost use Rattle.capture_files.specs.Writing.{header_bytes, micros_of, record_head, record_bytes, capture_bytes, FitCapture, in_micros};

use crate::header::HEADER_LEN;
use crate::record::{RECORD_HEADER_LEN, Stamp};
use byteorder::{ByteOrder, LittleEndian};
use io_edges::{Page, Sink, WriteFault, finish, print};

/// Magic, version 2.4, two fields that are 0, snap length 262,144, link type Ethernet.
const FILE_HEADER: [u8; HEADER_LEN] = [
    0xd4, 0xc3, 0xb2, 0xa1, 2, 0, 4, 0, 0, 0, 0, 0, 0, 0, 0, 0, 0, 0, 4, 0, 1, 0, 0, 0,
];

/// Prints the file header.
#[tactic(auto, unfolding(crate::specs::Writing::header_bytes))]
pub fn print_header<K: Sink>(sink: &mut K, page: &mut Page)
    ensures prints { Prints (gather_of K.taken K.faults sink.old page.old)
        (gather_of K.taken K.faults sink.new page.new) header_bytes }
    ensures keeps { K.keeps sink.old sink.new }
{
    print(sink, page, &FILE_HEADER);
}

/// Prints a record behind those that were printed before, of at most 262,144 bytes, as much as a reader takes. Of a stamp in nanoseconds whole microseconds are written.
pub fn print_frame<K: Sink>(
    sink: &mut K,
    page: &mut Page,
    stamp: Stamp,
    wire_len: u32,
    bytes: &[u8],
)
    requires short { length bytes.now ≤ 262144 }
    ensures prints { Prints (gather_of K.taken K.faults sink.old page.old)
        (gather_of K.taken K.faults sink.new page.new) (record_bytes stamp wire_len bytes.now) }
    ensures keeps { K.keeps sink.old sink.new }
{
    let header = header_of_record(stamp, bytes.len() as u32, wire_len);
    print(sink, page, &header);
    print(sink, page, bytes);
}

/// The header of a record.
#[tactic(auto, unfolding(crate::specs::Writing::record_head))]
fn header_of_record(stamp: Stamp, captured_len: u32, wire_len: u32) -> [u8; RECORD_HEADER_LEN]
    ensures { result ≡ record_head stamp captured_len wire_len }
{
    let mut header = [0; RECORD_HEADER_LEN];
    LittleEndian::write_u32(&mut header, stamp.seconds);
    LittleEndian::write_u32(&mut header[4..], micros(stamp));
    LittleEndian::write_u32(&mut header[8..], captured_len);
    LittleEndian::write_u32(&mut header[12..], wire_len);
    header
}

/// The part of a stamp in whole microseconds.
fn micros(stamp: Stamp) -> u32
    ensures { result ≡ micros_of stamp }
{
    if stamp.nano {
        stamp.part / 1_000
    } else {
        stamp.part
    }
}

/// Writes the file header.
pub fn write_header<K: Sink>(sink: &mut K) -> Result<(), WriteFault>
    ensures ends { Ends (start_of K.taken K.faults sink.old) (K.taken sink.new) (K.faults sink.new) header_bytes result }
    ensures keeps { K.keeps sink.old sink.new }
{
    let mut page = Page::new();
    print_header(sink, &mut page);
    finish(sink, page)
}

/// Writes a record of at most 262,144 bytes, as much as a reader takes. Of a stamp in nanoseconds whole microseconds are written.
pub fn write_frame<K: Sink>(
    sink: &mut K,
    stamp: Stamp,
    wire_len: u32,
    bytes: &[u8],
) -> Result<(), WriteFault>
    requires short { length bytes.now ≤ 262144 }
    ensures ends { Ends (start_of K.taken K.faults sink.old) (K.taken sink.new) (K.faults sink.new)
        (record_bytes stamp wire_len bytes.now) result }
    ensures keeps { K.keeps sink.old sink.new }
{
    let mut page = Page::new();
    print_frame(sink, &mut page, stamp, wire_len, bytes);
    finish(sink, page)
}

/// A file of written frames has just these frames, with their stamps in whole microseconds, and ends behind them.
pub fn written_captures_are_read()
    ensures { (frames : List Frame) → FitCapture frames
        → capture (capture_bytes frames) ≡ record { frames = map in_micros frames; stop = End } }
{}
