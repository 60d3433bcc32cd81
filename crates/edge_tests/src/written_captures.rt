//! Captures that are written, byte for byte as the format says.
ghost use Rattle.std.specs.Prelude.{◌<◌};

use capture_files::{Stamp, print_frame, print_header, write_frame, write_header};
use io_edges::{MemSink, Page, Sink, WriteFault, finish};
use std::test::Fail;
use test_frames::UDP_FRAME;

/// The UDP frame at second 7 and microsecond 9: the file header, the record's, and the frame.
static WRITTEN: [u8; 100] = [
    0xd4, 0xc3, 0xb2, 0xa1, 0x02, 0x00, 0x04, 0x00, 0x00, 0x00, 0x00, 0x00, 0x00, 0x00, 0x00, 0x00,
    0x00, 0x00, 0x04, 0x00, 0x01, 0x00, 0x00, 0x00, 0x07, 0x00, 0x00, 0x00, 0x09, 0x00, 0x00, 0x00,
    0x3c, 0x00, 0x00, 0x00, 0x3c, 0x00, 0x00, 0x00, 0x02, 0x00, 0x00, 0x00, 0x00, 0x01, 0x02, 0x00,
    0x00, 0x00, 0x00, 0x02, 0x08, 0x00, 0x45, 0x00, 0x00, 0x2e, 0x00, 0x00, 0x00, 0x00, 0x40, 0x11,
    0x62, 0xb7, 0x0a, 0x01, 0x02, 0x03, 0x0a, 0x01, 0x02, 0x04, 0x07, 0xd0, 0x00, 0x35, 0x00, 0x1a,
    0xdf, 0xac, 0x00, 0x00, 0x00, 0x00, 0x00, 0x00, 0x00, 0x00, 0x00, 0x00, 0x00, 0x00, 0x00, 0x00,
    0x00, 0x00, 0x00, 0x00,
];

/// Its first 30 bytes.
static FRONT: [u8; 30] = [
    0xd4, 0xc3, 0xb2, 0xa1, 0x02, 0x00, 0x04, 0x00, 0x00, 0x00, 0x00, 0x00, 0x00, 0x00, 0x00, 0x00,
    0x00, 0x00, 0x04, 0x00, 0x01, 0x00, 0x00, 0x00, 0x07, 0x00, 0x00, 0x00, 0x09, 0x00,
];

const MICROS: Stamp = Stamp {
    seconds: 7,
    part: 9,
    nano: false,
};

const NANOS: Stamp = Stamp {
    seconds: 7,
    part: 9_999,
    nano: true,
};

/// Prints the frame's capture through one page.
fn print_capture<K: Sink>(sink: &mut K, stamp: Stamp) -> Result<(), WriteFault> {
    let mut page = Page::new();
    print_header(sink, &mut page);
    print_frame(sink, &mut page, stamp, 60, &UDP_FRAME);
    finish(sink, page)
}

/// Writes the frame's capture.
fn write_capture<K: Sink>(sink: &mut K) -> Result<(), WriteFault> {
    write_header(sink)?;
    write_frame(sink, NANOS, 60, &UDP_FRAME)
}

/// The stamp, where the sink fails, the answer, and what was taken.
type Row = (Stamp, Option<u64>, Result<(), WriteFault>, &'static [u8]);

#[test]
fn a_capture_is_printed_up_to_the_fault(rt: HostRuntime) -> Result<(), Fail> {
    let rows: [Row; 3] = [
        (MICROS, None, Ok(()), &WRITTEN),
        (NANOS, None, Ok(()), &WRITTEN),
        (MICROS, Some(30), Err(WriteFault { sent: 30 }), &FRONT),
    ];
    for (stamp, fail_at, answer, bytes) in rows {
        let mut sink = MemSink::new(rt.alloc(), 100, fail_at)?;
        assert_eq!(rt; print_capture(&mut sink, stamp), answer);
        assert_eq!(rt; sink.taken(), bytes);
    }
    Ok(())
}

#[test]
fn a_capture_is_written(rt: HostRuntime) -> Result<(), Fail> {
    let mut sink = MemSink::new(rt.alloc(), 100, None)?;
    assert_eq!(rt; write_capture(&mut sink), Ok(()));
    assert_eq!(rt; sink.taken(), WRITTEN.as_slice());
    Ok(())
}
