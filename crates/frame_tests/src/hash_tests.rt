//! Hashes of frames. The rows of addresses and ports are those of Microsoft's verification of RSS; the others were computed from
//! the definition by another program.

ghost use Rattle.std.specs.Prelude.{◌<◌, All};
ghost use Rattle.std.specs.Bool.{OnTrue};

use arrayvec::ArrayVec;
use flow_actions::{ALL_RSS_TYPES, Rss, rss_queue, toeplitz};
use packet_headers::parse;
use std::process::Abort;
use test_frames::{
    DOUBLE_TAGGED_UDP_FRAME, IPV6_FRAME, RSS_CHECK_FRAME, RUNT_FRAME, UDP_FRAME, VXLAN_FRAME,
};

/// Addresses of IPv4 with ports, the hash of the addresses, and that of all.
static IPV4_ROWS: [([u8; 12], u32, u32); 5] = [
    (
        [
            0x42, 0x09, 0x95, 0xbb, 0xa1, 0x8e, 0x64, 0x50, 0x0a, 0xea, 0x06, 0xe6,
        ],
        0x323e8fc2,
        0x51ccc178,
    ),
    (
        [
            0xc7, 0x5c, 0x6f, 0x02, 0x41, 0x45, 0x8c, 0x53, 0x37, 0x96, 0x12, 0x83,
        ],
        0xd718262a,
        0xc626b0ea,
    ),
    (
        [
            0x18, 0x13, 0xc6, 0x5f, 0x0c, 0x16, 0xcf, 0xb8, 0x32, 0x62, 0x94, 0x88,
        ],
        0xd2d0a5de,
        0x5c2b394a,
    ),
    (
        [
            0x26, 0x1b, 0xcd, 0x1e, 0xd1, 0x8e, 0xa3, 0x06, 0xbc, 0x64, 0x08, 0xa9,
        ],
        0x82989176,
        0xafc7327f,
    ),
    (
        [
            0x99, 0x27, 0xa3, 0xbf, 0xca, 0xbc, 0x7f, 0x02, 0xac, 0xdb, 0x05, 0x17,
        ],
        0x5d1809c5,
        0x10e828a2,
    ),
];

/// The same of IPv6.
static IPV6_ROWS: [([u8; 36], u32, u32); 3] = [
    (
        [
            0x3f, 0xfe, 0x25, 0x01, 0x02, 0x00, 0x1f, 0xff, 0x00, 0x00, 0x00, 0x00, 0x00, 0x00,
            0x00, 0x07, 0x3f, 0xfe, 0x25, 0x01, 0x02, 0x00, 0x00, 0x03, 0x00, 0x00, 0x00, 0x00,
            0x00, 0x00, 0x00, 0x01, 0x0a, 0xea, 0x06, 0xe6,
        ],
        0x2cc18cd5,
        0x40207d3d,
    ),
    (
        [
            0x3f, 0xfe, 0x05, 0x01, 0x00, 0x08, 0x00, 0x00, 0x02, 0x60, 0x97, 0xff, 0xfe, 0x40,
            0xef, 0xab, 0xff, 0x02, 0x00, 0x00, 0x00, 0x00, 0x00, 0x00, 0x00, 0x00, 0x00, 0x00,
            0x00, 0x00, 0x00, 0x01, 0x37, 0x96, 0x12, 0x83,
        ],
        0x0f0c461c,
        0xdde51bbf,
    ),
    (
        [
            0x3f, 0xfe, 0x19, 0x00, 0x45, 0x45, 0x00, 0x03, 0x02, 0x00, 0xf8, 0xff, 0xfe, 0x21,
            0x67, 0xcf, 0xfe, 0x80, 0x00, 0x00, 0x00, 0x00, 0x00, 0x00, 0x02, 0x00, 0xf8, 0xff,
            0xfe, 0x21, 0x67, 0xcf, 0xac, 0xdb, 0x94, 0x88,
        ],
        0x4b61e985,
        0x02d1feef,
    ),
];

fn hashes_to<const N: usize>(rt: &impl Abort, input: &[u8; N], alone: u32, whole: u32) {
    assert!(rt; N >= 4);
    assert!(rt; N <= 36);
    assert_eq!(rt; toeplitz(&input[..N - 4]), alone, "addresses alone");
    assert_eq!(rt; toeplitz(input), whole, "addresses and ports");
}

#[test]
fn hashes_are_those_of_the_verification(rt: HostRuntime) {
    for (input, alone, whole) in &IPV4_ROWS {
        hashes_to(&rt, input, *alone, *whole);
    }
}

#[test]
fn ipv6_hashes_are_those_of_the_verification(rt: HostRuntime) {
    for (input, alone, whole) in &IPV6_ROWS {
        hashes_to(&rt, input, *alone, *whole);
    }
}

/// The condition of a hash.
fn are_bytes(queues: &[u16]) -> bool
    ensures { OnTrue result (All (λ queue. queue < 256) queues.now) }
{
    queues.iter().all(|queue| *queue < 256)
}

/// Frames and types in a table: a name, the frame, the queues, the types, the hash and the queue.
type Spread = (&'static str, &'static [u8], &'static [u16], u8, u32, u8);

static SPREADS: [Spread; 15] = [
    (
        "all types",
        &RSS_CHECK_FRAME,
        &[0, 1, 2, 3],
        ALL_RSS_TYPES,
        0x51ccc178,
        0,
    ),
    ("IPv4", &RSS_CHECK_FRAME, &[0, 1, 2, 3], 1, 0x323e8fc2, 2),
    ("IPv6", &RSS_CHECK_FRAME, &[0, 1, 2, 3], 8, 0, 0),
    (
        "IPv4 with TCP",
        &RSS_CHECK_FRAME,
        &[9, 8, 7],
        2,
        0x51ccc178,
        8,
    ),
    ("IPv4 with UDP", &RSS_CHECK_FRAME, &[9, 8, 7], 4, 0, 9),
    ("no type", &RSS_CHECK_FRAME, &[9, 8, 7], 0, 0, 9),
    (
        "all queues of the port",
        &RSS_CHECK_FRAME,
        &[],
        1,
        0x323e8fc2,
        2,
    ),
    (
        "UDP",
        &UDP_FRAME,
        &[0, 1, 2, 3],
        ALL_RSS_TYPES,
        0xb9cee510,
        0,
    ),
    (
        "UDP without its type",
        &UDP_FRAME,
        &[0, 1, 2, 3],
        3,
        0xf9811afd,
        1,
    ),
    (
        "two tags",
        &DOUBLE_TAGGED_UDP_FRAME,
        &[0, 1, 2, 3],
        4,
        0xb9cee510,
        0,
    ),
    (
        "the headers in front of VXLAN",
        &VXLAN_FRAME,
        &[0, 1, 2, 3],
        ALL_RSS_TYPES,
        0xe237b360,
        0,
    ),
    (
        "IPv6 with TCP",
        &IPV6_FRAME,
        &[1, 2, 3, 4, 5],
        16,
        0x7002be18,
        4,
    ),
    (
        "IPv6 alone",
        &IPV6_FRAME,
        &[1, 2, 3, 4, 5],
        8,
        0xba149380,
        2,
    ),
    ("IPv6 with UDP", &IPV6_FRAME, &[1, 2, 3, 4, 5], 32, 0, 1),
    (
        "a frame without headers",
        &RUNT_FRAME,
        &[3],
        ALL_RSS_TYPES,
        0,
        3,
    ),
];

fn goes_to(rt: &impl Abort, row: &Spread) {
    let (name, frame, listed, types, hash, queue) = row;
    let mut queues = ArrayVec::new();
    for number in *listed {
        assert!(rt; !queues.is_full());
        queues.push(*number);
    }
    assert!(rt; are_bytes(queues.as_slice()));
    let rss = Rss {
        queues,
        types: *types,
    };
    assert_eq!(rt;
        rss_queue(&rss, 3, &parse(frame)),
        (*hash, *queue),
        "{name}"
    );
}

#[test]
fn a_frame_goes_to_the_queue_that_its_hash_chooses(rt: HostRuntime) {
    for row in &SPREADS {
        goes_to(&rt, row);
    }
}
