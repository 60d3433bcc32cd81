//! Whole captures through a source that gives single bytes, with expected values from the format's own numbers.
ghost use Rattle.std.specs.Prelude.{◌≡◌, ◌≤◌, ◌<◌, length};

use capture_files::{CaptureKind, CaptureReader, MAX_FRAME_LEN, Next, Stamp};
use io_edges::{MemSource, Source};
use std::alloc::{AllocError, Global};
use std::test::Fail;
use test_frames::UDP_FRAME;

/// How many frames come, and the answer behind them.
fn count_frames<S: Source>(source: &mut S, buf: &mut [u8]) -> (u32, Next)
    requires { 262_144 ≤ length buf.old }
{
    let mut reader = CaptureReader::new();
    let mut count = 0;
    loop {
        match reader.next(source, buf) {
            Next::Frame { .. } => count += 1,
            answer => return (count, answer),
        }
    }
}

/// The header of a file, and that of its records.
type Form = (&'static [u8], &'static [u8]);

/// Version 2.4, snap length 262,144, Ethernet; second 1,000, part 2, 60 captured bytes of 61.
const LITTLE_MICROS: Form = (
    &[
        0xd4, 0xc3, 0xb2, 0xa1, 2, 0, 4, 0, 0, 0, 0, 0, 0, 0, 0, 0, 0, 0, 4, 0, 1, 0, 0, 0,
    ],
    &[0xe8, 0x03, 0, 0, 2, 0, 0, 0, 60, 0, 0, 0, 61, 0, 0, 0],
);

/// The same in nanoseconds, with something in the high 16 bits of the link type.
const LITTLE_NANOS: Form = (
    &[
        0x4d, 0x3c, 0xb2, 0xa1, 2, 0, 4, 0, 0, 0, 0, 0, 0, 0, 0, 0, 0, 0, 4, 0, 1, 0, 0, 0xf0,
    ],
    &[0xe8, 0x03, 0, 0, 2, 0, 0, 0, 60, 0, 0, 0, 61, 0, 0, 0],
);

/// The same in microseconds, with the highest byte of each number first.
const BIG_MICROS: Form = (
    &[
        0xa1, 0xb2, 0xc3, 0xd4, 0, 2, 0, 4, 0, 0, 0, 0, 0, 0, 0, 0, 0, 4, 0, 0, 0, 0, 0, 1,
    ],
    &[0, 0, 0x03, 0xe8, 0, 0, 0, 2, 0, 0, 0, 60, 0, 0, 0, 61],
);

/// The same in nanoseconds.
const BIG_NANOS: Form = (
    &[
        0xa1, 0xb2, 0x3c, 0x4d, 0, 2, 0, 4, 0, 0, 0, 0, 0, 0, 0, 0, 0, 4, 0, 0, 0, 0, 0, 1,
    ],
    &[0, 0, 0x03, 0xe8, 0, 0, 0, 2, 0, 0, 0, 60, 0, 0, 0, 61],
);

/// Version 2.3.
const OLD: Form = (
    &[
        0xd4, 0xc3, 0xb2, 0xa1, 2, 0, 3, 0, 0, 0, 0, 0, 0, 0, 0, 0, 0, 0, 4, 0, 1, 0, 0, 0,
    ],
    &[],
);

/// Link type 101, raw IP.
const RAW: Form = (
    &[
        0xd4, 0xc3, 0xb2, 0xa1, 2, 0, 4, 0, 0, 0, 0, 0, 0, 0, 0, 0, 0, 0, 4, 0, 101, 0, 0, 0,
    ],
    &[],
);

/// The section header block that begins a pcapng file.
const PCAPNG: Form = (
    &[
        0x0a, 0x0d, 0x0d, 0x0a, 28, 0, 0, 0, 0x4d, 0x3c, 0x2b, 0x1a, 1, 0, 0, 0, 0xff, 0xff, 0xff,
        0xff, 0xff, 0xff, 0xff, 0xff,
    ],
    &[],
);

/// What begins a file that was compressed by gzip.
const GZIP: Form = (
    &[
        0x1f, 0x8b, 8, 0, 0, 0, 0, 0, 0, 3, 0xbb, 0x72, 0x78, 0xd3, 0x42, 0x26, 0x06, 0x16, 0x06,
        0x88, 0x69, 0, 0, 0,
    ],
    &[],
);

/// A record of 262,145 captured bytes.
const LONG_RECORD: Form = (
    &[
        0xd4, 0xc3, 0xb2, 0xa1, 2, 0, 4, 0, 0, 0, 0, 0, 0, 0, 0, 0, 0, 0, 4, 0, 1, 0, 0, 0,
    ],
    &[0, 0, 0, 0, 0, 0, 0, 0, 1, 0, 4, 0, 1, 0, 4, 0],
);

/// A file header and as many records of the UDP frame, of which the first bytes stand.
fn file(
    alloc: Global,
    (header, record): Form,
    records: usize,
    stand: usize,
) -> Result<Vec<u8>, AllocError> {
    let mut bytes = Vec::from_slice(alloc, header)?;
    for _ in 0..records {
        bytes.extend_from_slice(record)?;
        bytes.extend_from_slice(&UDP_FRAME)?;
    }
    bytes.truncate(stand);
    Ok(bytes)
}

/// What a row shows, the form of the file, how many records there are and how many bytes stand, where the source fails,
/// and how many frames come with the answer behind them.
type Row = (&'static str, Form, (usize, usize), Option<u64>, (u32, Next));

const HEADER_CUT: Next = Next::Bad {
    place: 0,
    kind: CaptureKind::HeaderCut,
};

const OTHER_MAGIC: Next = Next::Bad {
    place: 0,
    kind: CaptureKind::Magic,
};

const OLD_VERSION: Next = Next::Bad {
    place: 4,
    kind: CaptureKind::Version,
};

const OTHER_LINK: Next = Next::Bad {
    place: 20,
    kind: CaptureKind::LinkType,
};

const FIRST_LONG: Next = Next::Bad {
    place: 24,
    kind: CaptureKind::RecordLength,
};

const THIRD_CUT: Next = Next::Bad {
    place: 176,
    kind: CaptureKind::RecordCut,
};

#[rattlefmt::skip]
static ROWS: [Row; 14] = [
    ("header alone", LITTLE_MICROS, (0, 24), None, (0, Next::End)),
    ("empty file", LITTLE_MICROS, (0, 0), None, (0, HEADER_CUT)),
    ("header cut", BIG_NANOS, (0, 23), None, (0, HEADER_CUT)),
    ("three records", LITTLE_MICROS, (3, 252), None, (3, Next::End)),
    ("big-endian with nanoseconds", BIG_NANOS, (3, 252), None, (3, Next::End)),
    ("record cut", LITTLE_MICROS, (3, 200), None, (2, THIRD_CUT)),
    ("record's header cut", BIG_MICROS, (3, 177), None, (2, THIRD_CUT)),
    ("record too long", LONG_RECORD, (1, 100), None, (0, FIRST_LONG)),
    ("version 2.3", OLD, (1, 84), None, (0, OLD_VERSION)),
    ("raw link type", RAW, (1, 84), None, (0, OTHER_LINK)),
    ("pcapng", PCAPNG, (1, 84), None, (0, OTHER_MAGIC)),
    ("gzip", GZIP, (1, 84), None, (0, OTHER_MAGIC)),
    ("fault behind two records", LITTLE_MICROS, (3, 252), Some(176), (2, Next::ReadFault)),
    ("fault at the last byte", LITTLE_MICROS, (3, 252), Some(251), (2, Next::ReadFault)),
];

#[test]
fn files_by_single_bytes(rt: HostRuntime) -> Result<(), Fail> {
    let mut room = vec![in rt.alloc(); 0; MAX_FRAME_LEN]?;
    let buf = room.as_mut_slice();
    assert_eq!(rt; buf.len(), MAX_FRAME_LEN);
    for (shows, form, (records, stand), fail_at, counted) in &ROWS {
        let bytes = file(rt.alloc(), *form, *records, *stand)?;
        let mut source = MemSource::new(bytes, 1, *fail_at);
        assert_eq!(rt; count_frames(&mut source, buf), *counted, "{shows}");
    }
    Ok(())
}

/// The first answer of a reader.
fn first_answer<S: Source>(source: &mut S, buf: &mut [u8]) -> Next
    requires { 262_144 ≤ length buf.old }
{
    CaptureReader::new().next(source, buf)
}

/// The forms, and whether the frame that each shows has nanoseconds.
static FORMS: [(Form, bool); 4] = [
    (LITTLE_MICROS, false),
    (LITTLE_NANOS, true),
    (BIG_MICROS, false),
    (BIG_NANOS, true),
];

#[test]
fn a_first_frame_is_shown(rt: HostRuntime) -> Result<(), Fail> {
    let mut room = vec![in rt.alloc(); 0; MAX_FRAME_LEN]?;
    let buf = room.as_mut_slice();
    assert_eq!(rt; buf.len(), MAX_FRAME_LEN);
    for (form, nano) in &FORMS {
        let bytes = file(rt.alloc(), *form, 1, 100)?;
        let answer = first_answer(&mut MemSource::new(bytes, 1, None), buf);
        let stamp = Stamp {
            seconds: 1_000,
            part: 2,
            nano: *nano,
        };
        let frame = Next::Frame {
            len: 60,
            wire_len: 61,
            stamp,
        };
        assert_eq!(rt; answer, frame);
        assert!(rt; buf.starts_with(&UDP_FRAME));
    }
    Ok(())
}
