//! Rows of patterns, frames and faults. What each row says was read off the guide and the bytes.
ghost use Rattle.std.specs.Prelude.{◌<◌};

mod generated;
mod plain;

use arrayvec::ArrayVec;
use packet_headers::{ItemKind, parse};
use pattern_items::{Fields, Item, ItemFault, MAX_ITEMS, Pattern, Shape, Test, compile};
use std::process::Abort;
use test_frames::{
    DOUBLE_TAGGED_UDP_FRAME, IPV6_FRAME, RSS_CHECK_FRAME, RUNT_FRAME, TAGGED_UDP_FRAME, UDP_FRAME,
    VXLAN_FRAME,
};
use test_rules::{any, pattern_of};

const NONE: Fields = Fields { v: [0; 6] };

const ALL: u128 = u128::MAX;

// The places of fields in the field table.
const ETH_TYPE: usize = 2;

const HAS_VLAN: usize = 3;

const VID: usize = 2;

const TTL: usize = 1;

const IPV4_SRC: usize = 3;

const IPV4_DST: usize = 4;

const IPV6_DST: usize = 5;

const PORT_DST: usize = 1;

const VNI: usize = 0;

/// One number, and 0 at each other field.
fn one(field: usize, number: u128) -> Fields
    requires { field < 6 }
{
    let mut fields = NONE;
    fields.v[field] = number;
    fields
}

/// An item that asks for the number of one field.
fn asks(kind: ItemKind, field: usize, number: u128) -> Item
    requires { field < 6 }
{
    Item {
        kind,
        given: Some(one(field, number)),
        last: None,
        mask: Some(one(field, ALL)),
    }
}

/// An item with spec, last and mask of one field.
fn range(kind: ItemKind, field: usize, spec: u128, last: u128, mask: u128) -> Item
    requires { field < 6 }
{
    Item {
        kind,
        given: Some(one(field, spec)),
        last: Some(one(field, last)),
        mask: Some(one(field, mask)),
    }
}

/// The kind that a word of a pattern names.
fn kind_of(rt: &impl Abort, word: &str) -> ItemKind {
    match word {
        "void" => ItemKind::Void,
        "eth" => ItemKind::Eth,
        "vlan" => ItemKind::Vlan,
        "ipv4" => ItemKind::Ipv4,
        "ipv6" => ItemKind::Ipv6,
        "tcp" => ItemKind::Tcp,
        "udp" => ItemKind::Udp,
        "vxlan" => ItemKind::Vxlan,
        _ => panic!(rt; "no kind {word}"),
    }
}

/// The pattern of items without spec that these words name.
fn pattern_of_kinds(rt: &impl Abort, words: &str) -> Pattern {
    let mut items = ArrayVec::new();
    for word in words.split(" / ") {
        assert!(rt; items.len() < MAX_ITEMS);
        items.push(any(kind_of(rt, word)));
    }
    Pattern { items, more: 0 }
}

fn test_of(rt: &impl Abort, name: &str, pattern: &Pattern) -> Test {
    match compile(pattern) {
        Ok(test) => test,
        Err(fault) => panic!(rt; "{name}: {fault:?}"),
    }
}

/// A frame's name, the frame, and whether it matches: 1 where it does.
type Match<'a> = (&'a str, &'a [u8], u8);

fn has_matches(rt: &impl Abort, name: &str, pattern: &Pattern, matches: &[Match<'_>]) {
    let test = test_of(rt, name, pattern);
    for (frame_name, frame, is_match) in matches {
        assert_eq!(rt;
            test.matches(&parse(frame)),
            *is_match == 1,
            "{name} on {frame_name}"
        );
    }
}

/// Whether the named frames match.
fn has_row(rt: &impl Abort, name: &str, pattern: &Pattern, is_match: [u8; 6]) {
    has_matches(
        rt,
        name,
        pattern,
        &[
            ("udp_frame", &UDP_FRAME, is_match[0]),
            ("tagged_udp_frame", &TAGGED_UDP_FRAME, is_match[1]),
            (
                "double_tagged_udp_frame",
                &DOUBLE_TAGGED_UDP_FRAME,
                is_match[2],
            ),
            ("runt_frame", &RUNT_FRAME, is_match[3]),
            ("rss_check_frame", &RSS_CHECK_FRAME, is_match[4]),
            ("vxlan_frame", &VXLAN_FRAME, is_match[5]),
        ],
    );
}

/// A row: a pattern, and whether the named frames match it.
type Row<'a> = (&'a str, &'a [Item], [u8; 6]);

fn has_rows(rt: &impl Abort, rows: &[Row<'_>]) {
    for (name, items, is_match) in rows {
        has_row(rt, name, &pattern_of(items), *is_match);
    }
}

#[test]
fn patterns_of_kinds_match_these_frames(rt: HostRuntime) {
    let rows = [
        ("void", [1, 1, 1, 1, 1, 1]),
        ("eth", [1, 1, 1, 0, 1, 1]),
        ("eth / ipv4", [1, 1, 1, 0, 1, 1]),
        ("void / eth / void / void / ipv4 / void", [1, 1, 1, 0, 1, 1]),
        ("vlan", [0, 1, 1, 0, 0, 0]),
        ("vlan / vlan", [0, 0, 1, 0, 0, 0]),
        ("eth / vlan", [0, 1, 1, 0, 0, 0]),
        ("eth / vlan / ipv4 / udp", [0, 1, 1, 0, 0, 0]),
        ("ipv6", [0, 0, 0, 0, 0, 0]),
        ("tcp", [0, 0, 0, 0, 1, 0]),
        ("udp", [1, 1, 1, 0, 0, 1]),
        ("void / udp", [1, 1, 1, 0, 0, 1]),
        ("vxlan", [0, 0, 0, 0, 0, 1]),
        ("udp / vxlan", [0, 0, 0, 0, 0, 1]),
        (
            "eth / ipv4 / udp / vxlan / eth / ipv4 / udp",
            [0, 0, 0, 0, 0, 1],
        ),
    ];
    for (words, is_match) in rows {
        has_row(&rt, words, &pattern_of_kinds(&rt, words), is_match);
    }
}

#[test]
fn a_pattern_without_items_matches_each_frame(rt: HostRuntime) {
    let strange = range(ItemKind::Void, 0, 9, 5, ALL);
    let lacking = Item {
        kind: ItemKind::Void,
        given: None,
        last: Some(NONE),
        mask: Some(NONE),
    };
    has_rows(
        &rt,
        &[
            ("no items", &[], [1; 6]),
            ("void", &[strange, lacking], [1; 6]),
        ],
    );
}

#[test]
fn fields_are_asked_at_the_layers_met(rt: HostRuntime) {
    use ItemKind::{Eth, Ipv4, Udp, Vlan};
    let untagged = asks(Eth, HAS_VLAN, 0);
    let to_vtep = asks(Udp, PORT_DST, 4789);
    has_rows(
        &rt,
        &[
            (
                "eth has_vlan is 0 / ipv4",
                &[untagged, any(Ipv4)],
                [1, 0, 0, 0, 1, 1],
            ),
            (
                "eth type is 0x0800",
                &[asks(Eth, ETH_TYPE, 0x0800)],
                [1, 0, 0, 0, 1, 1],
            ),
            (
                "vlan vid is 100",
                &[asks(Vlan, VID, 100)],
                [0, 1, 0, 0, 0, 0],
            ),
            (
                "eth / vlan vid is 100",
                &[any(Eth), asks(Vlan, VID, 100)],
                [0, 1, 0, 0, 0, 0],
            ),
            (
                "vlan / vlan vid is 100",
                &[any(Vlan), asks(Vlan, VID, 100)],
                [0, 0, 1, 0, 0, 0],
            ),
            (
                "udp dst is 53",
                &[asks(Udp, PORT_DST, 53)],
                [1, 1, 1, 0, 0, 0],
            ),
            (
                "ipv4 / udp dst is 4789",
                &[any(Ipv4), to_vtep],
                [0, 0, 0, 0, 0, 1],
            ),
        ],
    );
}

#[test]
fn inner_headers_match_behind_vxlan_alone(rt: HostRuntime) {
    use ItemKind::{Eth, Ipv4, Udp, Vxlan};
    let mut unflagged = VXLAN_FRAME;
    unflagged[42] = 0;
    let source = asks(Ipv4, IPV4_SRC, 0x0a010203);
    let port = asks(Udp, PORT_DST, 53);
    let rows: [(&str, &[Item], u8); 4] = [
        (
            "from udp on",
            &[any(Udp), asks(Vxlan, VNI, 5), any(Eth), source],
            1,
        ),
        ("from vxlan on", &[any(Vxlan), any(Eth), any(Ipv4), port], 1),
        ("the inner port in the outer headers", &[port], 0),
        ("another network", &[asks(Vxlan, VNI, 6)], 0),
    ];
    for (name, items, is_match) in rows {
        let frames: [Match<'_>; 2] = [
            ("vxlan_frame", &VXLAN_FRAME, is_match),
            ("without its flag", &unflagged, 0),
        ];
        has_matches(&rt, name, &pattern_of(items), &frames);
    }
}

/// The UDP frame from another source.
const fn from(source: [u8; 4]) -> [u8; 60] {
    let mut frame = UDP_FRAME;
    frame[26] = source[0];
    frame[27] = source[1];
    frame[28] = source[2];
    frame[29] = source[3];
    frame
}

#[test]
fn the_mask_is_applied_before_a_range(rt: HostRuntime) {
    let sources = range(ItemKind::Ipv4, IPV4_SRC, 0x0a010203, 0x0a030405, 0xffff0000);
    has_matches(
        &rt,
        "10.1.2.3 to 10.3.4.5 by 255.255.0.0",
        &pattern_of(&[sources]),
        &[
            ("10.1.0.0", &from([10, 1, 0, 0]), 1),
            ("10.2.0.255", &from([10, 2, 0, 255]), 1),
            ("10.3.255.255", &from([10, 3, 255, 255]), 1),
            ("10.0.255.255", &from([10, 0, 255, 255]), 0),
            ("10.4.0.0", &from([10, 4, 0, 0]), 0),
        ],
    );
}

#[test]
fn a_last_that_is_not_greater_makes_no_range(rt: HostRuntime) {
    let ttl = |spec: u128, last: u128| range(ItemKind::Ipv4, TTL, spec, last, 255);
    let network = range(ItemKind::Ipv4, IPV4_SRC, 0x0a010203, 0x0a010001, 0xffff0000);
    has_rows(
        &rt,
        &[
            ("ttl spec 64 last 0", &[ttl(64, 0)], [1, 1, 1, 0, 1, 1]),
            ("ttl spec 63 last 0", &[ttl(63, 0)], [0; 6]),
            ("ttl spec 64 last 64", &[ttl(64, 64)], [1, 1, 1, 0, 1, 1]),
            ("ttl spec 60 last 64", &[ttl(60, 64)], [1, 1, 1, 0, 1, 1]),
            ("ttl spec 60 last 63", &[ttl(60, 63)], [0; 6]),
            (
                "src spec 10.1.2.3 last 10.1.0.1, equal by 255.255.0.0",
                &[network],
                [1, 1, 1, 0, 0, 1],
            ),
        ],
    );
}

/// The IPv6 frame to fe80:0:0:n:: with these bytes at the end.
fn to(n: u8, rest: u8) -> [u8; 74] {
    let mut frame = IPV6_FRAME;
    for place in 38..54 {
        frame[place] = if place < 46 { 0 } else { rest };
    }
    frame[38] = 0xfe;
    frame[39] = 0x80;
    frame[45] = n;
    frame
}

#[test]
fn a_prefix_matches_its_addresses(rt: HostRuntime) {
    let prefix = Item {
        kind: ItemKind::Ipv6,
        given: Some(one(IPV6_DST, 0xfe80 << 112)),
        last: None,
        mask: Some(one(IPV6_DST, u128::MAX << 64)),
    };
    has_matches(
        &rt,
        "ipv6 dst fe80:: prefix 64",
        &pattern_of(&[prefix]),
        &[
            ("fe80::", &to(0, 0), 1),
            ("fe80::ffff:ffff:ffff:ffff", &to(0, 0xff), 1),
            ("fe80:0:0:1::", &to(1, 0), 0),
            ("2001:db8::ff", &IPV6_FRAME, 0),
        ],
    );
}

/// An item with spec alone.
fn given(kind: ItemKind, v: [u128; 6]) -> Item {
    Item {
        kind,
        given: Some(Fields { v }),
        last: None,
        mask: None,
    }
}

#[test]
fn default_masks_ask_for_addresses_alone(rt: HostRuntime) {
    use ItemKind::{Eth, Ipv4};
    let other_type = given(Eth, [0x020000000001, 0x020000000002, 0x1234, 1, 0, 0]);
    let other_address = given(Eth, [0x020000000009, 0x020000000002, 0x0800, 0, 0, 0]);
    let other_ttl = given(Ipv4, [1, 2, 3, 0x0a010203, 0x0a010204, 0]);
    has_rows(
        &rt,
        &[
            ("eth of another type", &[other_type], [1, 1, 1, 0, 1, 1]),
            ("eth of another address", &[other_address], [0; 6]),
            ("ipv4 of another ttl", &[other_ttl], [1, 1, 1, 0, 0, 1]),
        ],
    );
}

#[test]
fn items_out_of_order_are_refused(rt: HostRuntime) {
    use ItemFault::Order;
    let rows = [
        ("eth / udp", Some(Order(1))),
        ("udp", None),
        ("vxlan / ipv4", Some(Order(1))),
        ("eth / void / udp", Some(Order(2))),
        ("void / eth / udp", Some(Order(2))),
        ("vlan / void / vlan", None),
        ("vlan / vlan / vlan", Some(Order(2))),
        ("eth / vlan / vlan / void / vlan / ipv4", Some(Order(4))),
        (
            "vlan / vlan / ipv4 / udp / vxlan / eth / vlan / vlan / ipv6",
            None,
        ),
        ("vxlan / eth / ipv4 / udp / vxlan", Some(Order(4))),
    ];
    for (words, fault) in rows {
        assert_eq!(rt;
            compile(&pattern_of_kinds(&rt, words)).err(),
            fault,
            "{words}"
        );
    }
}

#[test]
fn numbers_that_do_not_fit_together_are_refused(rt: HostRuntime) {
    use ItemFault::{LastBelow, Order, SpecMissing};
    use ItemKind::{Eth, Ipv4, Udp};
    let ttl = |spec: u128, last: u128, mask: u128| range(Ipv4, TTL, spec, last, mask);
    let masked = Item {
        mask: Some(one(IPV4_SRC, 0xff000000)),
        ..any(Ipv4)
    };
    let ended = Item {
        last: Some(one(TTL, 0)),
        ..any(Ipv4)
    };
    let unmasked = Item {
        given: Some(one(TTL, 9)),
        last: Some(one(TTL, 5)),
        ..any(Ipv4)
    };
    let rows: [(&str, &[Item], Option<ItemFault>); 11] = [
        ("ipv4 src mask 255.0.0.0", &[masked], Some(SpecMissing(0))),
        (
            "eth / ipv4 ttl last 0",
            &[any(Eth), ended],
            Some(SpecMissing(1)),
        ),
        (
            "ttl spec 9 last 5 mask 255",
            &[ttl(9, 5, 255)],
            Some(LastBelow(0)),
        ),
        (
            "ttl spec 9 last 5 by the default mask, 0",
            &[unmasked],
            None,
        ),
        ("ttl spec 9 last 0", &[ttl(9, 0, 255)], None),
        ("ttl spec 9 last 9", &[ttl(9, 9, 255)], None),
        ("ttl spec 9 last 16 by 15", &[ttl(9, 16, 15)], None),
        (
            "ttl spec 9 last 17 by 15",
            &[ttl(9, 17, 15)],
            Some(LastBelow(0)),
        ),
        (
            "the earlier item's fault",
            &[masked, any(Eth)],
            Some(SpecMissing(0)),
        ),
        ("order before numbers", &[any(Udp), masked], Some(Order(1))),
        (
            "an earlier range",
            &[ttl(9, 5, 255), masked],
            Some(LastBelow(0)),
        ),
    ];
    for (name, items, fault) in rows {
        assert_eq!(rt; compile(&pattern_of(items)).err(), fault, "{name}");
    }
}

#[test]
fn too_many_items_come_first(rt: HostRuntime) {
    let mut pattern = pattern_of(&[any(ItemKind::Eth), any(ItemKind::Udp)]);
    assert_eq!(rt; compile(&pattern).err(), Some(ItemFault::Order(1)));
    pattern.more = 1;
    assert_eq!(rt; compile(&pattern).err(), Some(ItemFault::TooMany));
    pattern.more = 65535;
    assert_eq!(rt; compile(&pattern).err(), Some(ItemFault::TooMany));
    let full = pattern_of(&[any(ItemKind::Void); 16]);
    assert_eq!(rt; compile(&full).err(), None);
}

/// The kinds, in the order of the table below.
static KINDS: [ItemKind; 8] = [
    ItemKind::Void,
    ItemKind::Eth,
    ItemKind::Vlan,
    ItemKind::Ipv4,
    ItemKind::Ipv6,
    ItemKind::Tcp,
    ItemKind::Udp,
    ItemKind::Vxlan,
];

/// Whether an item of the column's kind may stand behind one of the row's kind: 1 where it may.
static ALLOWED: [[u8; 8]; 8] = [
    [1, 1, 1, 1, 1, 1, 1, 1],
    [1, 0, 1, 1, 1, 0, 0, 0],
    [1, 0, 1, 1, 1, 0, 0, 0],
    [1, 0, 0, 0, 0, 1, 1, 0],
    [1, 0, 0, 0, 0, 1, 1, 0],
    [1, 0, 0, 0, 0, 0, 0, 0],
    [1, 0, 0, 0, 0, 0, 0, 1],
    [1, 1, 0, 0, 0, 0, 0, 0],
];

#[test]
fn kinds_stand_behind_kinds_as_in_the_table(rt: HostRuntime) {
    for (first, row) in ALLOWED.iter().enumerate() {
        for (second, may_stand) in row.iter().enumerate() {
            let items = [any(KINDS[first]), any(KINDS[second])];
            let fault = if *may_stand == 1 {
                None
            } else {
                Some(ItemFault::Order(1))
            };
            assert_eq!(rt;
                compile(&pattern_of(&items)).err(),
                fault,
                "{second} behind {first}"
            );
        }
    }
}

fn shape_of(rt: &impl Abort, name: &str, items: &[Item]) -> Option<Shape> {
    test_of(rt, name, &pattern_of(items)).masked()
}

fn is_shape(shape: &Shape, kinds: &[ItemKind], masks: &[Fields], values: &[Fields]) -> bool {
    if shape.kinds.as_slice() != kinds || shape.masks.as_slice() != masks {
        return false;
    }
    shape.values.as_slice() == values
}

#[test]
fn a_shape_has_masks_and_values(rt: HostRuntime) {
    use ItemKind::{Eth, Ipv4, Void};
    let items = [
        any(Void),
        any(Eth),
        range(Ipv4, IPV4_SRC, 0x0a010203, 0x0a010001, 0xffff0000),
    ];
    let Some(shape) = shape_of(&rt, "one value", &items) else {
        panic!(rt; "no range")
    };
    let masks = [NONE, one(IPV4_SRC, 0xffff0000)];
    let values = [NONE, one(IPV4_SRC, 0x0a010000)];
    assert!(rt; is_shape(&shape, &[Eth, Ipv4], &masks, &values));
}

#[test]
fn a_range_has_no_shape(rt: HostRuntime) {
    use ItemKind::{Eth, Ipv4};
    let rows: [(&str, &[Item], bool); 4] = [
        ("a range", &[any(Eth), range(Ipv4, TTL, 9, 10, 255)], false),
        ("equal ends", &[any(Eth), range(Ipv4, TTL, 9, 9, 255)], true),
        ("equal by the mask", &[range(Ipv4, TTL, 8, 9, 254)], true),
        ("no items", &[], true),
    ];
    for (name, items, has_shape) in rows {
        assert_eq!(rt; shape_of(&rt, name, items).is_some(), has_shape, "{name}");
    }
}
