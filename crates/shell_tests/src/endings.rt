//! How sessions end: edges that fail, captures that stop, and limits.
use crate::run::{ONE_QUEUE, Row, SCRIPT_ALONE, TWO_QUEUES, expect};
use std::alloc::{AllocError, Global};
use std::process::Abort;
use std::sync::Wait;
use std::thread::Threads;
use test_frames::UDP_FRAME;
use test_sessions::{Capture, Fails, Frame};
use testpmd_shell::Status;

/// A rule, a phase, and nothing else.
pub(crate) const ONE_PHASE: &[u8] =
    b"flow create 0 ingress pattern eth / end actions queue index 1 / end\nstart\nstop\n";

pub(crate) const ONE_FRAME: [Frame; 1] = [(&UDP_FRAME, &[])];

pub(crate) const THREE_FRAMES: [Frame; 3] = [
    (&UDP_FRAME, &[]),
    (&UDP_FRAME, &[]),
    (&UDP_FRAME, &[]),
];

/// The UDP frame in a file that a big-endian machine wrote, with its stamp in nanoseconds.
pub(crate) const BIG_ENDIAN_NANOSECONDS: [u8; 100] = [
    0xa1, 0xb2, 0x3c, 0x4d, 0x00, 0x02, 0x00, 0x04, 0x00, 0x00, 0x00, 0x00, 0x00, 0x00, 0x00, 0x00,
    0x00, 0x04, 0x00, 0x00, 0x00, 0x00, 0x00, 0x01, 0x00, 0x00, 0x00, 0x07, 0x00, 0x00, 0x23, 0x28,
    0x00, 0x00, 0x00, 0x3c, 0x00, 0x00, 0x00, 0x3c, 0x02, 0x00, 0x00, 0x00, 0x00, 0x01, 0x02, 0x00,
    0x00, 0x00, 0x00, 0x02, 0x08, 0x00, 0x45, 0x00, 0x00, 0x2e, 0x00, 0x00, 0x00, 0x00, 0x40, 0x11,
    0x62, 0xb7, 0x0a, 0x01, 0x02, 0x03, 0x0a, 0x01, 0x02, 0x04, 0x07, 0xd0, 0x00, 0x35, 0x00, 0x1a,
    0xdf, 0xac, 0x00, 0x00, 0x00, 0x00, 0x00, 0x00, 0x00, 0x00, 0x00, 0x00, 0x00, 0x00, 0x00, 0x00,
    0x00, 0x00, 0x00, 0x00,
];

/// Sessions that end before all was read and written, and two that read and write all that there is.
const ROWS: [Row<'static>; 10] = [
    Row {
        shows: "three records cut",
        words: &TWO_QUEUES,
        script: ONE_PHASE,
        capture: Capture::Front(&THREE_FRAMES, 200),
        fails: Fails::Nowhere,
        status: Status::BadCapture,
        written: b"shell 1.1: Flow rule #0 created
shell 2.1: Packet forwarding started
worker0 #1: queue 1 mark - hash - path 0
worker0 #2: queue 1 mark - hash - path 0
shell 3.1: Packet forwarding stopped: received 2 dropped 0 queues 0,2
total received 2 dropped 0 queues 0,2
capture: bad at byte 176: record cut
",
    },
    Row {
        shows: "a capture that fails",
        words: &TWO_QUEUES,
        script: ONE_PHASE,
        capture: Capture::Of(&THREE_FRAMES),
        fails: Fails::Capture(176),
        status: Status::ReadFault,
        written: b"shell 1.1: Flow rule #0 created
shell 2.1: Packet forwarding started
worker0 #1: queue 1 mark - hash - path 0
worker0 #2: queue 1 mark - hash - path 0
shell 3.1: Packet forwarding stopped: received 2 dropped 0 queues 0,2
total received 2 dropped 0 queues 0,2
capture: read fault
",
    },
    Row {
        shows: "a cut header",
        words: &ONE_QUEUE,
        script: b"start\nstop\nflow isolate 0 1\nforward 1\n",
        capture: Capture::Front(&[], 23),
        fails: Fails::Nowhere,
        status: Status::BadCapture,
        written: b"shell 1.1: Packet forwarding started
shell 2.1: Packet forwarding stopped: received 0 dropped 0 queues 0
shell 3.1: Ingress traffic is restricted to the defined flow rules
shell 4.1: Packet forwarding started
shell 5.1: Packet forwarding stopped: received 0 dropped 0 queues 0
total received 0 dropped 0 queues 0
capture: bad at byte 0: header cut
",
    },
    Row {
        shows: "an empty file",
        words: &ONE_QUEUE,
        script: b"start\nstop",
        capture: Capture::Bytes(b""),
        fails: Fails::Nowhere,
        status: Status::BadCapture,
        written: b"shell 1.1: Packet forwarding started
shell 2.1: Packet forwarding stopped: received 0 dropped 0 queues 0
total received 0 dropped 0 queues 0
capture: bad at byte 0: header cut
",
    },
    Row {
        shows: "a bad capture that no phase reads",
        words: &TWO_QUEUES,
        script: b"",
        capture: Capture::Bytes(b"no capture"),
        fails: Fails::Nowhere,
        status: Status::Done,
        written: b"total received 0 dropped 0 queues 0,0\n",
    },
    Row {
        shows: "a big-endian file with nanoseconds",
        words: &TWO_QUEUES,
        script: ONE_PHASE,
        capture: Capture::Bytes(&BIG_ENDIAN_NANOSECONDS),
        fails: Fails::Nowhere,
        status: Status::Done,
        written: ONE_RULE_ONE_FRAME,
    },
    Row {
        shows: "a cut capture and a failing sink",
        words: &TWO_QUEUES,
        script: ONE_PHASE,
        capture: Capture::Front(&THREE_FRAMES, 200),
        fails: Fails::Sink(40),
        status: Status::WriteFault,
        written: b"shell 1.1: Flow rule #0 created\nshell 2.",
    },
    Row {
        shows: "the first opening fails",
        words: &TWO_QUEUES,
        script: ONE_PHASE,
        capture: Capture::Of(&ONE_FRAME),
        fails: Fails::Opening(0),
        status: Status::ReadFault,
        written: b"",
    },
    Row {
        shows: "the second opening fails",
        words: &TWO_QUEUES,
        script: ONE_PHASE,
        capture: Capture::Of(&ONE_FRAME),
        fails: Fails::Opening(1),
        status: Status::ReadFault,
        written: b"",
    },
    Row {
        shows: "a script that isn't there",
        words: &["--cmdline-file=missing"],
        script: ONE_PHASE,
        capture: Capture::Of(&ONE_FRAME),
        fails: Fails::Nowhere,
        status: Status::ReadFault,
        written: b"",
    },
];

#[test]
fn sessions_end_as_their_files_and_edges_owe(rt: HostRuntime) {
    for row in &ROWS {
        expect(&rt, rt.alloc(), row);
    }
}

const ONE_RULE_ONE_FRAME: &[u8] = b"shell 1.1: Flow rule #0 created
shell 2.1: Packet forwarding started
worker0 #1: queue 1 mark - hash - path 0
shell 3.1: Packet forwarding stopped: received 1 dropped 0 queues 0,1
total received 1 dropped 0 queues 0,1
";

#[test]
fn a_sink_that_fails_has_taken_a_front(rt: HostRuntime) {
    let text = ONE_RULE_ONE_FRAME;
    for (place, _) in text.iter().enumerate() {
        let row = Row {
            shows: "a failing sink",
            words: &TWO_QUEUES,
            script: ONE_PHASE,
            capture: Capture::Of(&ONE_FRAME),
            fails: Fails::Sink(place as u64),
            status: Status::WriteFault,
            written: &text[..place],
        };
        expect(&rt, rt.alloc(), &row);
    }
}

/// What a script of one byte shows, its words, the byte and how often it stands, the status, and what is written.
type Filled = (
    &'static str,
    &'static [&'static str],
    u8,
    usize,
    Status,
    &'static [u8],
);

const FILLED: [Filled; 5] = [
    (
        "a comment of a byte too many",
        &SCRIPT_ALONE,
        b'#',
        1_048_577,
        Status::TooLarge,
        b"",
    ),
    (
        "the longest comment",
        &SCRIPT_ALONE,
        b'#',
        1_048_576,
        Status::Done,
        b"total received 0 dropped 0 queues 0\n",
    ),
    (
        "65,537 empty lines",
        &SCRIPT_ALONE,
        b'\n',
        65_537,
        Status::TooLarge,
        b"",
    ),
    (
        "65,536 empty lines",
        &SCRIPT_ALONE,
        b'\n',
        65_536,
        Status::Done,
        b"total received 0 dropped 0 queues 0\n",
    ),
    (
        "a capture that isn't there behind a script over its limit",
        &["--cmdline-file=script", "--rx-pcap=missing"],
        b'\n',
        65_537,
        Status::TooLarge,
        b"",
    ),
];

fn expect_filled<R: Abort + Threads + Wait + Sync>(
    rt: &R,
    alloc: Global,
    filled: &Filled,
) -> Result<(), AllocError> {
    let (shows, words, byte, count, status, written) = filled;
    let script = vec![in alloc; *byte; *count]?;
    let row = Row::of_script(shows, words, &script, *status, written);
    expect(rt, alloc, &row);
    Ok(())
}

#[test]
fn scripts_end_at_their_limits(rt: HostRuntime) -> Result<(), AllocError> {
    for filled in &FILLED {
        expect_filled(&rt, rt.alloc(), filled)?;
    }
    Ok(())
}
