//! Texts of addresses, and their numbers.
use crate::shown::text_of;
use rule_words::read_items;
use std::process::Abort;

/// A kind of item whose destination is an address, and the place of that field.
type Holder = (&'static str, usize);

const MAC: Holder = ("eth", 0);

const IPV4: Holder = ("ipv4", 4);

const IPV6: Holder = ("ipv6", 5);

/// The number of a place of the first item that these words say.
fn number_in(words: &[&[u8]], place: usize) -> Option<u128> {
    let (pattern, _rest) = read_items(words)?;
    let item = pattern.items.as_slice().first()?;
    item.given?.v.get(place).copied()
}

/// The number of a destination that is written so, if it is an address.
fn address_in<'a>(kind: &'a [u8], place: usize, text: &'a [u8]) -> Option<u128> {
    let words: [&'a [u8]; 6] = [kind, b"dst", b"spec", text, b"/", b"end"];
    number_in(&words, place)
}

/// Whether each text is the address beside it, or none.
fn each_address_is(rt: &impl Abort, holder: Holder, rows: &[(&[u8], Option<u128>)]) {
    let (kind, place) = holder;
    for (text, want) in rows {
        let found = address_in(kind.as_bytes(), place, text);
        assert_eq!(rt; found, *want, "at {}", text_of(text));
    }
}

static A_MAC_ADDRESS_HAS_SIX_GROUPS: [(&[u8], Option<u128>); 18] = [
    (b"00:00:00:00:00:00", Some(0)),
    (b"0:0:0:0:0:1", Some(1)),
    (b"02:00:00:00:00:01", Some(0x0200_0000_0001)),
    (b"ff:ff:ff:ff:ff:ff", Some(0xffff_ffff_ffff)),
    (b"aB:Cd:eF:1:02:3", Some(0xabcd_ef01_0203)),
    (b"1:2:3:4:5", None),
    (b"1:2:3:4:5:6:7", None),
    (b"1:2:3:4:5:", None),
    (b":1:2:3:4:5", None),
    (b"1::3:4:5:6", None),
    (b"1:2:3:4:5:6:", None),
    (b"001:2:3:4:5:6", None),
    (b"100:2:3:4:5:6", None),
    (b"g:2:3:4:5:6", None),
    (b"0x1:2:3:4:5:6", None),
    (b"02-00-00-00-00-01", None),
    (b"020000000001", None),
    (b"", None),
];

#[test]
fn a_mac_address_has_six_groups(rt: HostRuntime) {
    each_address_is(&rt, MAC, &A_MAC_ADDRESS_HAS_SIX_GROUPS);
}

static AN_IPV4_ADDRESS_HAS_FOUR_NUMBERS: [(&[u8], Option<u128>); 16] = [
    (b"0.0.0.0", Some(0)),
    (b"10.1.2.3", Some(0x0a01_0203)),
    (b"255.255.255.255", Some(0xffff_ffff)),
    (b"1.0.0.10", Some(0x0100_000a)),
    (b"256.0.0.0", None),
    (b"0.0.0.256", None),
    (b"1.2.3", None),
    (b"1.2.3.4.5", None),
    (b"1.2.3.", None),
    (b".1.2.3", None),
    (b"1..2.3", None),
    (b"01.2.3.4", None),
    (b"1.2.3.00", None),
    (b"0x1.2.3.4", None),
    (b"1.2.3.a", None),
    (b"16909060", None),
];

#[test]
fn an_ipv4_address_has_four_numbers(rt: HostRuntime) {
    each_address_is(&rt, IPV4, &AN_IPV4_ADDRESS_HAS_FOUR_NUMBERS);
}

static AN_IPV6_ADDRESS_HAS_EIGHT_GROUPS: [(&[u8], Option<u128>); 16] = [
    (
        b"1:2:3:4:5:6:7:8",
        Some(0x0001_0002_0003_0004_0005_0006_0007_0008),
    ),
    (b"0:0:0:0:0:0:0:0", Some(0)),
    (b"ffff:ffff:ffff:ffff:ffff:ffff:ffff:ffff", Some(u128::MAX)),
    (
        b"2001:0db8:0000:0000:0000:0000:0000:0001",
        Some(0x2001_0db8_0000_0000_0000_0000_0000_0001),
    ),
    (
        b"FE80:0:0:0:aBcD:0:0:1",
        Some(0xfe80_0000_0000_0000_abcd_0000_0000_0001),
    ),
    (b"1:2:3:4:5:6:7", None),
    (b"1:2:3:4:5:6:7:8:9", None),
    (b"1:2:3:4:5:6:7:", None),
    (b":2:3:4:5:6:7:8", None),
    (b"00001:2:3:4:5:6:7:8", None),
    (b"10000:2:3:4:5:6:7:8", None),
    (b"g:2:3:4:5:6:7:8", None),
    (b"1:2:3:4:5:6:1.2.3.4", None),
    (b"1:2:3:4:5:6:7:8%eth0", None),
    (b"1.2.3.4", None),
    (b"", None),
];

#[test]
fn an_ipv6_address_has_eight_groups(rt: HostRuntime) {
    each_address_is(&rt, IPV6, &AN_IPV6_ADDRESS_HAS_EIGHT_GROUPS);
}

static A_DOUBLE_COLON_STANDS_FOR_GROUPS_OF_0: [(&[u8], Option<u128>); 22] = [
    (b"::", Some(0)),
    (b"::1", Some(1)),
    (b"1::", Some(0x0001_0000_0000_0000_0000_0000_0000_0000)),
    (b"fe80::", Some(0xfe80_0000_0000_0000_0000_0000_0000_0000)),
    (
        b"fe80::1:2",
        Some(0xfe80_0000_0000_0000_0000_0000_0001_0002),
    ),
    (
        b"1:2:3::6:7:8",
        Some(0x0001_0002_0003_0000_0000_0006_0007_0008),
    ),
    (
        b"::2:3:4:5:6:7:8",
        Some(0x0000_0002_0003_0004_0005_0006_0007_0008),
    ),
    (
        b"1:2:3:4:5:6:7::",
        Some(0x0001_0002_0003_0004_0005_0006_0007_0000),
    ),
    (
        b"1::3:4:5:6:7:8",
        Some(0x0001_0000_0003_0004_0005_0006_0007_0008),
    ),
    (
        b"1:2:3:4::6:7:8",
        Some(0x0001_0002_0003_0004_0000_0006_0007_0008),
    ),
    (b"0::0", Some(0)),
    (
        b"::ffff:ffff:ffff:ffff:ffff:ffff:ffff",
        Some(0x0000_ffff_ffff_ffff_ffff_ffff_ffff_ffff),
    ),
    (b"::1:2:3:4:5:6:7:8", None),
    (b"1:2:3:4:5:6:7:8::", None),
    (b"1:2:3:4::5:6:7:8", None),
    (b"1::2::3", None),
    (b":::", None),
    (b"::::", None),
    (b":", None),
    (b"1:::2", None),
    (b":1::2", None),
    (b"::1.2.3.4", None),
];

#[test]
fn a_double_colon_stands_for_groups_of_0(rt: HostRuntime) {
    each_address_is(&rt, IPV6, &A_DOUBLE_COLON_STANDS_FOR_GROUPS_OF_0);
}
