//! Transmit files: which frames go out, in which order, with which bytes, and what is written where an edge fails.
use crate::endings::{BIG_ENDIAN_NANOSECONDS, ONE_FRAME, ONE_PHASE, THREE_FRAMES};
use crate::run::{Row, expect_sent};
use std::alloc::Global;
use std::process::Abort;
use std::sync::Wait;
use std::thread::Threads;
use test_frames::{TAGGED_UDP_FRAME, UDP_FRAME};
use test_sessions::{Capture, Fails, Record, file_of_records};
use testpmd_shell::Status;

const SENT: [&str; 5] = [
    "--cmdline-file=script",
    "--rx-pcap=capture",
    "--tx-pcap=sent",
    "--rxq=2",
    "--nb-cores=0",
];

/// The transmit file has the capture's name.
const SENT_BACK: [&str; 5] = [
    "--tx-pcap=capture",
    "--cmdline-file=script",
    "--rx-pcap=capture",
    "--rxq=2",
    "--nb-cores=0",
];

const NO_CAPTURE: [&str; 4] = [
    "--cmdline-file=script",
    "--tx-pcap=sent",
    "--rxq=2",
    "--nb-cores=0",
];

/// The header of a record of 60 bytes with no stamp, and of one of 64.
const SIXTY: [u8; 16] = [0, 0, 0, 0, 0, 0, 0, 0, 60, 0, 0, 0, 60, 0, 0, 0];

const SIXTY_FOUR: [u8; 16] = [0, 0, 0, 0, 0, 0, 0, 0, 64, 0, 0, 0, 64, 0, 0, 0];

/// The header of a record with seconds 7, part 9 and 60 bytes.
const STAMPED: [u8; 16] = [7, 0, 0, 0, 9, 0, 0, 0, 60, 0, 0, 0, 60, 0, 0, 0];

/// The header of a record with seconds 2, part 4,294,967,295 and 60 bytes, of 1,514 on the wire.
const LONG_ON_THE_WIRE: [u8; 16] = [
    2, 0, 0, 0, 0xff, 0xff, 0xff, 0xff, 60, 0, 0, 0, 0xea, 5, 0, 0,
];

/// The UDP frame in a little-endian file, with the stamp 7 seconds and 9,999 nanoseconds.
const NANOSECONDS: [u8; 100] = [
    0x4d, 0x3c, 0xb2, 0xa1, 2, 0, 4, 0, 0, 0, 0, 0, 0, 0, 0, 0, 0, 0, 4, 0, 1, 0, 0, 0, 7, 0, 0, 0,
    0x0f, 0x27, 0, 0, 60, 0, 0, 0, 60, 0, 0, 0, 0x02, 0x00, 0x00, 0x00, 0x00, 0x01, 0x02, 0x00,
    0x00, 0x00, 0x00, 0x02, 0x08, 0x00, 0x45, 0x00, 0x00, 0x2e, 0x00, 0x00, 0x00, 0x00, 0x40, 0x11,
    0x62, 0xb7, 0x0a, 0x01, 0x02, 0x03, 0x0a, 0x01, 0x02, 0x04, 0x07, 0xd0, 0x00, 0x35, 0x00, 0x1a,
    0xdf, 0xac, 0x00, 0x00, 0x00, 0x00, 0x00, 0x00, 0x00, 0x00, 0x00, 0x00, 0x00, 0x00, 0x00, 0x00,
    0x00, 0x00, 0x00, 0x00,
];

/// What a rule and a phase of one frame print.
const ONE_TOLD: &[u8] = b"shell 1.1: Flow rule #0 created
shell 2.1: Packet forwarding started
worker0 #1: queue 1 mark - hash - path 0
shell 3.1: Packet forwarding stopped: received 1 dropped 0 queues 0,1
total received 1 dropped 0 queues 0,1
";

/// A session with a transmit file that is done: what it shows, its script, its capture, its transcript, and the records that
/// go out.
type Sent = (
    &'static str,
    &'static [u8],
    Capture<'static>,
    &'static [u8],
    &'static [Record],
);

/// A session that ends otherwise or has other words, and the bytes of its transmit file.
type Sending = (Row<'static>, &'static [u8]);

fn expect_records<R: Abort + Threads + Wait + Sync>(rt: &R, alloc: Global, rows: &[Sent]) {
    for (shows, script, capture, written, records) in rows {
        let row = Row {
            shows,
            words: &SENT,
            script,
            capture: *capture,
            fails: Fails::Nowhere,
            status: Status::Done,
            written,
        };
        let Ok(file) = file_of_records(alloc, records) else {
            panic!(rt; "{shows}: no memory");
        };
        expect_sent(rt, alloc, &row, &file);
    }
}

const STAMPS: [Sent; 4] = [
    (
        "a record with seconds 7 and part 9",
        ONE_PHASE,
        Capture::Records(&[(STAMPED, (&UDP_FRAME, &[]))]),
        ONE_TOLD,
        &[(STAMPED, (&UDP_FRAME, &[]))],
    ),
    (
        "the length on the wire is the capture's, and so is a part that is more than a second",
        ONE_PHASE,
        Capture::Records(&[(LONG_ON_THE_WIRE, (&UDP_FRAME, &[]))]),
        ONE_TOLD,
        &[(LONG_ON_THE_WIRE, (&UDP_FRAME, &[]))],
    ),
    (
        "a big-endian capture with nanoseconds goes out with the lowest byte first and microseconds",
        ONE_PHASE,
        Capture::Bytes(&BIG_ENDIAN_NANOSECONDS),
        ONE_TOLD,
        &[(STAMPED, (&UDP_FRAME, &[]))],
    ),
    (
        "of nanoseconds whole microseconds go out",
        ONE_PHASE,
        Capture::Bytes(&NANOSECONDS),
        ONE_TOLD,
        &[(STAMPED, (&UDP_FRAME, &[]))],
    ),
];

const EDITS: [Sent; 5] = [
    (
        "a time to live that is lowered, with the header checksum 63b7",
        b"flow create 0 ingress pattern eth / ipv4 / end actions count / dec_ttl / jump group 1 / end
flow create 0 group 1 ingress pattern ipv4 ttl is 63 / end actions count / queue index 1 / end
start
stop
",
        Capture::Of(&ONE_FRAME),
        b"shell 1.1: Flow rule #0 created
shell 2.1: Flow rule #1 created
shell 3.1: Packet forwarding started
worker0 #1: queue 1 mark - hash - path 0,1
shell 4.1: Packet forwarding stopped: received 1 dropped 0 queues 0,1
total received 1 dropped 0 queues 0,1
",
        &[(SIXTY, (&UDP_FRAME, &[(22, 63), (24, 0x63), (25, 0xb7)]))],
    ),
    (
        "a new source: a right UDP checksum stays right, none stays none, and a wrong one stays wrong",
        b"flow create 0 ingress pattern ipv4 / end actions set_ipv4_src ipv4_addr 10.9.9.9 / end
start
stop
",
        Capture::Of(&[
            (&UDP_FRAME, &[]),
            (&UDP_FRAME, &[(40, 0), (41, 0)]),
            (&UDP_FRAME, &[(40, 0x12), (41, 0x34)]),
        ]),
        b"shell 1.1: Flow rule #0 created
shell 2.1: Packet forwarding started
worker0 #1: queue 0 mark - hash - path 0
worker0 #2: queue 0 mark - hash - path 0
worker0 #3: queue 0 mark - hash - path 0
shell 3.1: Packet forwarding stopped: received 3 dropped 0 queues 3,0
total received 3 dropped 0 queues 3,0
",
        &[
            (
                SIXTY,
                (
                    &UDP_FRAME,
                    &[
                        (24, 0x5b),
                        (25, 0xa9),
                        (27, 9),
                        (28, 9),
                        (29, 9),
                        (40, 0xd8),
                        (41, 0x9e),
                    ],
                ),
            ),
            (
                SIXTY,
                (
                    &UDP_FRAME,
                    &[
                        (24, 0x5b),
                        (25, 0xa9),
                        (27, 9),
                        (28, 9),
                        (29, 9),
                        (40, 0),
                        (41, 0),
                    ],
                ),
            ),
            (
                SIXTY,
                (
                    &UDP_FRAME,
                    &[
                        (24, 0x5b),
                        (25, 0xa9),
                        (27, 9),
                        (28, 9),
                        (29, 9),
                        (40, 0x0b),
                        (41, 0x26),
                    ],
                ),
            ),
        ],
    ),
    (
        "a dropped frame doesn't go out, and the others go out in order",
        b"flow create 0 ingress pattern vlan / end actions drop / end
start
stop
",
        Capture::Records(&[
            (STAMPED, (&UDP_FRAME, &[(59, 1)])),
            (SIXTY_FOUR, (&TAGGED_UDP_FRAME, &[])),
            (SIXTY, (&UDP_FRAME, &[(59, 3)])),
        ]),
        b"shell 1.1: Flow rule #0 created
shell 2.1: Packet forwarding started
worker0 #1: queue 0 mark - hash - path -
worker0 #2: drop mark - hash - path 0
worker0 #3: queue 0 mark - hash - path -
shell 3.1: Packet forwarding stopped: received 3 dropped 1 queues 2,0
total received 3 dropped 1 queues 2,0
",
        &[
            (STAMPED, (&UDP_FRAME, &[(59, 1)])),
            (SIXTY, (&UDP_FRAME, &[(59, 3)])),
        ],
    ),
    (
        "each frame is edited by the rules that were in effect when it passed",
        b"forward 1
stop
flow create 0 ingress pattern vlan / end actions of_set_vlan_vid vlan_vid 200 / end
forward 1
stop
flow destroy 0 rule 0
forward 1
stop
flow create 0 ingress pattern vlan / end actions of_set_vlan_vid vlan_vid 9 / end
flow isolate 0 1
flow create 0 ingress pattern vlan / end actions drop / end
flow flush 0
start
stop
",
        Capture::Records(&[
            (SIXTY_FOUR, (&TAGGED_UDP_FRAME, &[])),
            (SIXTY_FOUR, (&TAGGED_UDP_FRAME, &[])),
            (SIXTY_FOUR, (&TAGGED_UDP_FRAME, &[])),
            (SIXTY_FOUR, (&TAGGED_UDP_FRAME, &[])),
        ]),
        b"shell 1.1: Packet forwarding started
worker0 #1: queue 0 mark - hash - path -
shell 2.1: Packet forwarding stopped: received 1 dropped 0 queues 1,0
shell 3.1: Flow rule #0 created
shell 4.1: Packet forwarding started
worker0 #2: queue 0 mark - hash - path 0
shell 5.1: Packet forwarding stopped: received 2 dropped 0 queues 2,0
shell 6.1: Flow rule #0 destroyed
shell 7.1: Packet forwarding started
worker0 #3: queue 0 mark - hash - path -
shell 8.1: Packet forwarding stopped: received 3 dropped 0 queues 3,0
shell 9.1: Flow rule #1 created
shell 10.1: Ingress traffic is restricted to the defined flow rules
shell 11.1: Flow rule #2 created
shell 12.1: Flow rules flushed
shell 13.1: Packet forwarding started
worker0 #4: drop mark - hash - path -
shell 14.1: Packet forwarding stopped: received 4 dropped 1 queues 3,0
total received 4 dropped 1 queues 3,0
",
        &[
            (SIXTY_FOUR, (&TAGGED_UDP_FRAME, &[])),
            (SIXTY_FOUR, (&TAGGED_UDP_FRAME, &[(15, 0xc8)])),
            (SIXTY_FOUR, (&TAGGED_UDP_FRAME, &[])),
        ],
    ),
    (
        "frames that no phase takes don't go out, and a phase may take none",
        b"flow create 0 ingress pattern end actions mark id 3 / end
forward 1
stop
",
        Capture::Of(&THREE_FRAMES),
        b"shell 1.1: Flow rule #0 created
shell 2.1: Packet forwarding started
worker0 #1: queue 0 mark 3 hash - path 0
shell 3.1: Packet forwarding stopped: received 1 dropped 0 queues 1,0
total received 1 dropped 0 queues 1,0
",
        &[(SIXTY, (&UDP_FRAME, &[]))],
    ),
];

#[test]
fn records_keep_their_stamps_and_lengths(rt: HostRuntime) {
    expect_records(&rt, rt.alloc(), &STAMPS);
}

#[test]
fn delivered_frames_go_out_as_they_are_edited(rt: HostRuntime) {
    expect_records(&rt, rt.alloc(), &EDITS);
}

/// The header of a transmit file.
const HEADER: [u8; 24] = [
    0xd4, 0xc3, 0xb2, 0xa1, 2, 0, 4, 0, 0, 0, 0, 0, 0, 0, 0, 0, 0, 0, 4, 0, 1, 0, 0, 0,
];

/// A transmit file of the UDP frame without a stamp.
const ONE_SENT: [u8; 100] = [
    0xd4, 0xc3, 0xb2, 0xa1, 0x02, 0x00, 0x04, 0x00, 0x00, 0x00, 0x00, 0x00, 0x00, 0x00, 0x00, 0x00,
    0x00, 0x00, 0x04, 0x00, 0x01, 0x00, 0x00, 0x00, 0x00, 0x00, 0x00, 0x00, 0x00, 0x00, 0x00, 0x00,
    0x3c, 0x00, 0x00, 0x00, 0x3c, 0x00, 0x00, 0x00, 0x02, 0x00, 0x00, 0x00, 0x00, 0x01, 0x02, 0x00,
    0x00, 0x00, 0x00, 0x02, 0x08, 0x00, 0x45, 0x00, 0x00, 0x2e, 0x00, 0x00, 0x00, 0x00, 0x40, 0x11,
    0x62, 0xb7, 0x0a, 0x01, 0x02, 0x03, 0x0a, 0x01, 0x02, 0x04, 0x07, 0xd0, 0x00, 0x35, 0x00, 0x1a,
    0xdf, 0xac, 0x00, 0x00, 0x00, 0x00, 0x00, 0x00, 0x00, 0x00, 0x00, 0x00, 0x00, 0x00, 0x00, 0x00,
    0x00, 0x00, 0x00, 0x00,
];

const ENDS: [Sending; 7] = [
    (
        Row {
            shows: "a transmit file that fails at byte 24",
            words: &SENT,
            script: ONE_PHASE,
            capture: Capture::Of(&ONE_FRAME),
            fails: Fails::Transmit(24),
            status: Status::WriteFault,
            written: ONE_TOLD,
        },
        &HEADER,
    ),
    (
        Row {
            shows: "a sink that fails: nothing goes out",
            words: &SENT,
            script: ONE_PHASE,
            capture: Capture::Of(&ONE_FRAME),
            fails: Fails::Sink(40),
            status: Status::WriteFault,
            written: b"shell 1.1: Flow rule #0 created\nshell 2.",
        },
        b"",
    ),
    (
        Row {
            shows: "a script that can't be opened",
            words: &SENT,
            script: ONE_PHASE,
            capture: Capture::Of(&ONE_FRAME),
            fails: Fails::Opening(0),
            status: Status::ReadFault,
            written: b"",
        },
        b"",
    ),
    (
        Row {
            shows: "a transmit file that can't be opened",
            words: &SENT,
            script: ONE_PHASE,
            capture: Capture::Of(&ONE_FRAME),
            fails: Fails::Opening(1),
            status: Status::WriteFault,
            written: b"",
        },
        b"",
    ),
    (
        Row {
            shows: "a capture that can't be opened behind it",
            words: &SENT,
            script: ONE_PHASE,
            capture: Capture::Of(&ONE_FRAME),
            fails: Fails::Opening(2),
            status: Status::ReadFault,
            written: b"",
        },
        b"",
    ),
    (
        Row {
            shows: "the transmit file has the name of the capture",
            words: &SENT_BACK,
            script: ONE_PHASE,
            capture: Capture::Of(&ONE_FRAME),
            fails: Fails::Nowhere,
            status: Status::Done,
            written: ONE_TOLD,
        },
        &ONE_SENT,
    ),
    (
        Row {
            shows: "without a capture the file has its header alone",
            words: &NO_CAPTURE,
            script: b"start\nstop\n",
            capture: Capture::Bytes(b""),
            fails: Fails::Nowhere,
            status: Status::Done,
            written: b"shell 1.1: Packet forwarding started
shell 2.1: Packet forwarding stopped: received 0 dropped 0 queues 0,0
total received 0 dropped 0 queues 0,0
",
        },
        &HEADER,
    ),
];

const EARLY_STOPS: [Sending; 3] = [
    (
        Row {
            shows: "a capture that is cut: the frames before go out",
            words: &SENT,
            script: ONE_PHASE,
            capture: Capture::Front(&THREE_FRAMES, 175),
            fails: Fails::Nowhere,
            status: Status::BadCapture,
            written: b"shell 1.1: Flow rule #0 created
shell 2.1: Packet forwarding started
worker0 #1: queue 1 mark - hash - path 0
shell 3.1: Packet forwarding stopped: received 1 dropped 0 queues 0,1
total received 1 dropped 0 queues 0,1
capture: bad at byte 100: record cut
",
        },
        &ONE_SENT,
    ),
    (
        Row {
            shows: "a capture that fails: the frames before go out",
            words: &SENT,
            script: ONE_PHASE,
            capture: Capture::Of(&THREE_FRAMES),
            fails: Fails::Capture(175),
            status: Status::ReadFault,
            written: b"shell 1.1: Flow rule #0 created
shell 2.1: Packet forwarding started
worker0 #1: queue 1 mark - hash - path 0
shell 3.1: Packet forwarding stopped: received 1 dropped 0 queues 0,1
total received 1 dropped 0 queues 0,1
capture: read fault
",
        },
        &ONE_SENT,
    ),
    (
        Row {
            shows: "no capture at all: the file has its header alone",
            words: &SENT,
            script: ONE_PHASE,
            capture: Capture::Bytes(b"no capture, but bytes of a text"),
            fails: Fails::Nowhere,
            status: Status::BadCapture,
            written: b"shell 1.1: Flow rule #0 created
shell 2.1: Packet forwarding started
shell 3.1: Packet forwarding stopped: received 0 dropped 0 queues 0,0
total received 0 dropped 0 queues 0,0
capture: bad at byte 0: magic
",
        },
        &HEADER,
    ),
];

#[test]
fn transmit_files_are_written_last(rt: HostRuntime) {
    for (row, transmitted) in &ENDS {
        expect_sent(&rt, rt.alloc(), row, transmitted);
    }
}

#[test]
fn frames_before_an_early_stop_go_out(rt: HostRuntime) {
    for (row, transmitted) in &EARLY_STOPS {
        expect_sent(&rt, rt.alloc(), row, transmitted);
    }
}

#[test]
fn a_transmit_file_may_fail_anywhere(rt: HostRuntime) {
    for place in 0..ONE_SENT.len() {
        let row = Row {
            shows: "a transmit file that fails",
            words: &SENT,
            script: ONE_PHASE,
            capture: Capture::Of(&ONE_FRAME),
            fails: Fails::Transmit(place as u64),
            status: Status::WriteFault,
            written: ONE_TOLD,
        };
        expect_sent(&rt, rt.alloc(), &row, &ONE_SENT[..place]);
    }
}
