//! Rows in tables, of frames that were written by hand. No expected byte comes from this crate's own
//! output.

ghost use Rattle.std.specs.Bool.{OnTrue};
ghost use Rattle.header_edit.specs.Field.{IsLawful};

mod generated;

use crate::changes::{Changes, changed};
use header_edit::{apply_frame, apply_key, sum16};
use packet_headers::{Edit, parse};
use std::alloc::{AllocError, Global};
use std::process::Abort;
use std::test::Fail;
use test_frames::{
    DOUBLE_TAGGED_UDP_FRAME, IPV6_FRAME, RSS_CHECK_FRAME, TAGGED_UDP_FRAME, UDP_FRAME, VXLAN_FRAME,
};

const TO_10_9_9_9: Edit = Edit::Ipv4Src(0x0a090909);

/// The condition of an edit.
fn is_lawful(edit: Edit) -> bool
    ensures { OnTrue result (IsLawful edit) }
{
    match edit {
        Edit::MacSrc(address) => address < 1 << 48,
        Edit::MacDst(address) => address < 1 << 48,
        Edit::SetVid(vid) => vid < 4096,
        _ => true,
    }
}

/// A case: its name, the frame, its bytes that are others before the edit, the edit, and each byte that it changes.
type Case = (&'static str, &'static [u8], Changes, Edit, Changes);

static CASES: [Case; 28] = [
    // fields of the UDP frame are set
    (
        "TTL 64 falls to 63",
        &UDP_FRAME,
        &[],
        Edit::DecTtl,
        &[(22, 63), (24, 0x63)],
    ),
    (
        "TTL is set",
        &UDP_FRAME,
        &[],
        Edit::SetTtl(63),
        &[(22, 63), (24, 0x63)],
    ),
    (
        "TTL is set to the same",
        &UDP_FRAME,
        &[],
        Edit::SetTtl(64),
        &[],
    ),
    (
        "source 10.9.9.9",
        &UDP_FRAME,
        &[],
        TO_10_9_9_9,
        &[
            (24, 0x5b),
            (25, 0xa9),
            (27, 9),
            (28, 9),
            (29, 9),
            (40, 0xd8),
            (41, 0x9e),
        ],
    ),
    (
        "a source port",
        &UDP_FRAME,
        &[],
        Edit::PortSrc(2001),
        &[(35, 0xd1), (41, 0xab)],
    ),
    (
        "a destination port",
        &UDP_FRAME,
        &[],
        Edit::PortDst(52),
        &[(37, 0x34), (41, 0xad)],
    ),
    (
        "a MAC source",
        &UDP_FRAME,
        &[],
        Edit::MacSrc(0x0a0b0c0d0e0f),
        &[(6, 10), (7, 11), (8, 12), (9, 13), (10, 14), (11, 15)],
    ),
    (
        "a MAC destination",
        &UDP_FRAME,
        &[],
        Edit::MacDst(0x020000000003),
        &[(5, 3)],
    ),
    // a TCP checksum may come out as 0
    (
        "a TCP source port",
        &RSS_CHECK_FRAME,
        &[],
        Edit::PortSrc(2795),
        &[(35, 0xeb), (51, 0x6e)],
    ),
    (
        "destination 161.142.100.81",
        &RSS_CHECK_FRAME,
        &[],
        Edit::Ipv4Dst(0xa18e6451),
        &[(25, 0x2c), (33, 0x51), (51, 0x6e)],
    ),
    (
        "TCP's 0 is written as 0",
        &RSS_CHECK_FRAME,
        &[(50, 0), (51, 1)],
        Edit::PortSrc(2795),
        &[(35, 0xeb), (51, 0)],
    ),
    // nothing changes where the header is missing
    ("no tag", &UDP_FRAME, &[], Edit::SetVid(7), &[]),
    ("no IPv6 source", &UDP_FRAME, &[], Edit::Ipv6Src(1), &[]),
    (
        "no IPv6 destination",
        &UDP_FRAME,
        &[],
        Edit::Ipv6Dst(1),
        &[],
    ),
    ("no IPv4 source", &IPV6_FRAME, &[], Edit::Ipv4Src(1), &[]),
    (
        "no IPv4 destination",
        &IPV6_FRAME,
        &[],
        Edit::Ipv4Dst(1),
        &[],
    ),
    // a UDP checksum stays none, or as wrong as it was
    (
        "no UDP checksum",
        &UDP_FRAME,
        &[(40, 0), (41, 0)],
        TO_10_9_9_9,
        &[(24, 0x5b), (25, 0xa9), (27, 9), (28, 9), (29, 9)],
    ),
    (
        "a wrong UDP checksum",
        &UDP_FRAME,
        &[(40, 0x12), (41, 0x34)],
        TO_10_9_9_9,
        &[
            (24, 0x5b),
            (25, 0xa9),
            (27, 9),
            (28, 9),
            (29, 9),
            (40, 0x0b),
            (41, 0x26),
        ],
    ),
    (
        "UDP's 0 is written as ffff",
        &UDP_FRAME,
        &[(40, 0x07), (41, 0x0e)],
        TO_10_9_9_9,
        &[
            (24, 0x5b),
            (25, 0xa9),
            (27, 9),
            (28, 9),
            (29, 9),
            (40, 0xff),
            (41, 0xff),
        ],
    ),
    // the first tag is edited
    (
        "2064 to 2007",
        &TAGGED_UDP_FRAME,
        &[],
        Edit::SetVid(7),
        &[(15, 7)],
    ),
    (
        "the same id",
        &DOUBLE_TAGGED_UDP_FRAME,
        &[],
        Edit::SetVid(7),
        &[],
    ),
    (
        "0007 to 0009",
        &DOUBLE_TAGGED_UDP_FRAME,
        &[],
        Edit::SetVid(9),
        &[(15, 9)],
    ),
    // a TTL of 0 stays
    (
        "TTL 0 by any header checksum",
        &UDP_FRAME,
        &[(22, 0), (24, 0x12), (25, 0x34)],
        Edit::DecTtl,
        &[],
    ),
    (
        "a hop limit of 0",
        &IPV6_FRAME,
        &[(21, 0)],
        Edit::DecTtl,
        &[],
    ),
    // a hop limit is in no checksum
    (
        "hop limit 63 to 62",
        &IPV6_FRAME,
        &[],
        Edit::DecTtl,
        &[(21, 62)],
    ),
    (
        "hop limit 255",
        &IPV6_FRAME,
        &[],
        Edit::SetTtl(255),
        &[(21, 255)],
    ),
    // only the outer stack is edited
    (
        "TTL of the outer header",
        &VXLAN_FRAME,
        &[],
        Edit::DecTtl,
        &[(22, 63), (24, 0x63)],
    ),
    (
        "source port of the outer header",
        &VXLAN_FRAME,
        &[],
        Edit::PortSrc(2001),
        &[(35, 0xd1)],
    ),
];

fn is_edited(rt: &impl Abort, alloc: Global, case: &Case) -> Result<(), AllocError> {
    let (name, frame, before, edit, changes) = case;
    let before = changed(rt, alloc, frame, before)?;
    let after = changed(rt, alloc, &before, changes)?;
    let key = parse(&before);
    let mut edited = before;
    assert!(rt; is_lawful(*edit));
    apply_frame(&mut edited, &key, *edit);
    assert!(rt; edited == after, "{name}");
    Ok(())
}

#[test]
fn cases_are_edited_as_they_say(rt: HostRuntime) -> Result<(), Fail> {
    for case in &CASES {
        is_edited(&rt, rt.alloc(), case)?;
    }
    Ok(())
}

/// Bytes by a name, and their sum.
type Sum = (&'static str, &'static [u8], u16);

static SUMS: [Sum; 5] = [
    (
        "the example of RFC 1071",
        &[0x00, 0x01, 0xf2, 0x03, 0xf4, 0xf5, 0xf6, 0xf7],
        0xddf2,
    ),
    (
        "an odd last byte",
        &[0x00, 0x01, 0xf2, 0x03, 0xf4, 0xf5, 0xf6],
        0xdcfb,
    ),
    ("no bytes", &[], 0),
    ("ffff twice", &[0xff, 0xff, 0xff, 0xff], 0xffff),
    (
        "a right IPv4 header",
        &[
            0x45, 0x00, 0x00, 0x2e, 0x00, 0x00, 0x00, 0x00, 0x40, 0x11, 0x62, 0xb7, 0x0a, 0x01,
            0x02, 0x03, 0x0a, 0x01, 0x02, 0x04,
        ],
        0xffff,
    ),
];

#[test]
fn sums_of_words_carry_around(rt: HostRuntime) {
    for (name, bytes, sum) in &SUMS {
        assert_eq!(rt; sum16(bytes), *sum, "{name}");
    }
}
