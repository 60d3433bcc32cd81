//! Frames in tables: their layers were read by hand off the bytes. No frame here comes from this
//! crate's own output.

use crate::changes::{Changes, changed};
use packet_headers::ItemKind::{Eth, Ipv4, Ipv6, Tcp, Udp, Vlan, Vxlan};
use packet_headers::{ItemKind, Layer, parse};
use std::process::Abort;
use std::test::Fail;
use test_frames::{
    DOUBLE_TAGGED_UDP_FRAME, IPV6_FRAME, RSS_CHECK_FRAME, RUNT_FRAME, TAGGED_UDP_FRAME, UDP_FRAME,
    VXLAN_FRAME,
};

/// A header by its kind, its offset and the numbers of its fields.
type Header = (ItemKind, usize, [u128; 6]);

const UDP_PORTS: [u128; 6] = [2000, 53, 0, 0, 0, 0];

const UDP_ADDRESSES: [u128; 6] = [0, 64, 17, 0x0a010203, 0x0a010204, 0];

// The addresses of Ethernet are those of each frame. Then come the type and whether a tag follows.
const ETH_OF_IPV4: [u128; 6] = [0x020000000001, 0x020000000002, 0x0800, 0, 0, 0];

const ETH_OF_IPV6: [u128; 6] = [0x020000000001, 0x020000000002, 0x86dd, 0, 0, 0];

const ETH_OF_TAG: [u128; 6] = [0x020000000001, 0x020000000002, 0x8100, 1, 0, 0];

const ETH_OF_SERVICE_TAG: [u128; 6] = [0x020000000001, 0x020000000002, 0x88a8, 1, 0, 0];

const IPV6_NUMBERS: [u128; 6] = [
    0xa5,
    0x12345,
    6,
    63,
    0x20010db8000000000000000000000001,
    0x20010db80000000000000000000000ff,
];

/// A frame by its name, and its headers.
type Named = (&'static str, &'static [u8], &'static [Header]);

static NAMED: [Named; 7] = [
    (
        "udp_frame",
        &UDP_FRAME,
        &[
            (Eth, 0, ETH_OF_IPV4),
            (Ipv4, 14, UDP_ADDRESSES),
            (Udp, 34, UDP_PORTS),
        ],
    ),
    (
        "tagged_udp_frame",
        &TAGGED_UDP_FRAME,
        &[
            (Eth, 0, ETH_OF_TAG),
            (Vlan, 14, [1, 0, 100, 0x0800, 0, 0]),
            (Ipv4, 18, UDP_ADDRESSES),
            (Udp, 38, UDP_PORTS),
        ],
    ),
    (
        "double_tagged_udp_frame",
        &DOUBLE_TAGGED_UDP_FRAME,
        &[
            (Eth, 0, ETH_OF_SERVICE_TAG),
            (Vlan, 14, [0, 0, 7, 0x8100, 1, 0]),
            (Vlan, 18, [1, 0, 100, 0x0800, 0, 0]),
            (Ipv4, 22, UDP_ADDRESSES),
            (Udp, 42, UDP_PORTS),
        ],
    ),
    ("runt_frame", &RUNT_FRAME, &[]),
    (
        "rss_check_frame",
        &RSS_CHECK_FRAME,
        &[
            (Eth, 0, ETH_OF_IPV4),
            (Ipv4, 14, [0, 64, 6, 0x420995bb, 0xa18e6450, 0]),
            (Tcp, 34, [2794, 1766, 2, 0, 0, 0]),
        ],
    ),
    (
        "vxlan_frame",
        &VXLAN_FRAME,
        &[
            (Eth, 0, ETH_OF_IPV4),
            (Ipv4, 14, UDP_ADDRESSES),
            (Udp, 34, [2000, 4789, 0, 0, 0, 0]),
            (Vxlan, 42, [5, 0, 0, 0, 0, 0]),
            (Eth, 50, ETH_OF_IPV4),
            (Ipv4, 64, UDP_ADDRESSES),
            (Udp, 84, UDP_PORTS),
        ],
    ),
    (
        "ipv6_frame",
        &IPV6_FRAME,
        &[
            (Eth, 0, ETH_OF_IPV6),
            (Ipv6, 14, IPV6_NUMBERS),
            (Tcp, 54, [443, 0xd431, 0x12, 0, 0, 0]),
        ],
    ),
];

fn has_headers(rt: &impl Abort, name: &str, frame: &[u8], headers: &[Header]) {
    let key = parse(frame);
    assert_eq!(rt; key.len(), headers.len(), "layers of {name}");
    for (i, (kind, offset, v)) in headers.iter().enumerate() {
        assert_eq!(rt; key.offset(i), *offset, "offset {i} of {name}");
        assert_eq!(rt;
            key.layer(i),
            Layer { kind: *kind, v: *v },
            "layer {i} of {name}"
        );
    }
}

fn has_kinds(rt: &impl Abort, name: &str, frame: &[u8], kinds: &[ItemKind]) {
    let key = parse(frame);
    assert_eq!(rt; key.len(), kinds.len(), "layers of {name}");
    for (i, kind) in kinds.iter().enumerate() {
        assert_eq!(rt; key.layer(i).kind, *kind, "layer {i} of {name}");
    }
}

#[test]
fn named_frames_have_these_fields(rt: HostRuntime) {
    for (name, frame, headers) in &NAMED {
        has_headers(&rt, name, frame, headers);
    }
}

#[test]
fn prefixes_of_the_vxlan_frame_end_where_a_header_is_cut(rt: HostRuntime) {
    let kinds = [Eth, Ipv4, Udp, Vxlan, Eth, Ipv4, Udp];
    // The number of layers, and the first and the last length of the prefixes that have them.
    let table = [
        (0, 0, 13),
        (1, 14, 33),
        (2, 34, 41),
        (3, 42, 49),
        (4, 50, 63),
        (5, 64, 83),
        (6, 84, 91),
        (7, 92, 110),
    ];
    for (count, first, last) in table {
        for len in first..=last {
            assert!(rt; len <= 110 && count <= 7);
            has_kinds(&rt, "a prefix", &VXLAN_FRAME[..len], &kinds[..count]);
        }
    }
}

/// A case: its name, the frame, its bytes that are others, and the layers.
type Case = (&'static str, &'static [u8], Changes, &'static [ItemKind]);

static CASES: [Case; 12] = [
    ("version 5", &UDP_FRAME, &[(14, 0x55)], &[Eth]),
    ("a header of 16 bytes", &UDP_FRAME, &[(14, 0x44)], &[Eth]),
    ("options past the end", &UDP_FRAME, &[(14, 0x4f)], &[Eth]),
    (
        "more fragments",
        &UDP_FRAME,
        &[(20, 0x20)],
        &[Eth, Ipv4, Udp],
    ),
    ("a later fragment", &UDP_FRAME, &[(21, 1)], &[Eth, Ipv4]),
    ("another protocol", &UDP_FRAME, &[(23, 1)], &[Eth, Ipv4]),
    (
        "options that leave 6 bytes",
        &UDP_FRAME,
        &[(14, 0x4a)],
        &[Eth, Ipv4],
    ),
    (
        "a third tag",
        &DOUBLE_TAGGED_UDP_FRAME,
        &[(20, 0x81)],
        &[Eth, Vlan, Vlan],
    ),
    (
        "one tag of another type",
        &DOUBLE_TAGGED_UDP_FRAME,
        &[(16, 0x91)],
        &[Eth, Vlan],
    ),
    ("no flag", &VXLAN_FRAME, &[(42, 0xf7)], &[Eth, Ipv4, Udp]),
    ("port 4788", &VXLAN_FRAME, &[(37, 0xb4)], &[Eth, Ipv4, Udp]),
    (
        "a second VXLAN",
        &VXLAN_FRAME,
        &[(86, 0x12), (87, 0xb5), (92, 8)],
        &[Eth, Ipv4, Udp, Vxlan, Eth, Ipv4, Udp],
    ),
];

#[test]
fn layers_end_at_the_first_header_that_does_not_fit(rt: HostRuntime) -> Result<(), Fail> {
    for (name, frame, changes, kinds) in &CASES {
        let frame = changed(&rt, rt.alloc(), frame, changes)?;
        has_kinds(&rt, name, &frame, kinds);
    }
    Ok(())
}
