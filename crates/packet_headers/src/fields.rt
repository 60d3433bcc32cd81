//! The fields of each kind of header.
ghost use Rattle.std.specs.Prelude.{◌≡◌, map};
ghost use Rattle.packet_headers.specs.Fields.{fields_of, told};

use crate::items::ItemKind;
use crate::places::{
    ETH_TYPE, INNER_TYPE, IPV4_DST, IPV4_PROTO, IPV4_SRC, IPV4_TOS, IPV4_TTL, IPV6_DST, IPV6_FIRST,
    IPV6_HOP, IPV6_PROTO, IPV6_SRC, MAC_DST, MAC_SRC, PORT_DST, PORT_SRC, TAG_CONTROL, TCP_FLAGS,
    VNI,
};

/// Where a field's number stands.
#[derive(Clone, Copy)]
pub enum FieldPlace {
    /// The number in the `count` bytes of the header from byte `from` on, the highest first.
    Bytes { from: usize, count: u8 },
    /// The same number shifted right by `shift` bits, of which the field's bits are taken.
    Bits { from: usize, count: u8, shift: u8 },
    /// 1 where a VLAN layer follows, else 0. It stands in no byte of its own.
    TagFollows,
}

/// A field of an item.
#[derive(Clone, Copy)]
pub struct Field {
    /// Its word in a pattern.
    pub word: &'static str,
    /// The width of its number.
    pub bits: u8,
    /// The mask of an item that has `spec` without `mask`: all ones, or 0.
    pub default_mask: u128,
    pub place: FieldPlace,
}

/// In `count` bytes from byte `from` on.
macro_rules! bytes {
    ($from:expr, $count:literal) => {
        FieldPlace::Bytes { from: $from, count: $count }
    };
}

/// In `count` bytes from byte `from` on, shifted right by `shift` bits.
macro_rules! bits {
    ($from:expr, $count:literal, $shift:literal) => {
        FieldPlace::Bits { from: $from, count: $count, shift: $shift }
    };
}

/// A field whose default mask is all ones.
macro_rules! matched {
    ($word:literal, $bits:literal, $place:expr) => {
        Field { word: $word, bits: $bits, default_mask: u128::MAX >> (128 - $bits), place: $place }
    };
}

/// A field whose default mask is 0.
macro_rules! ignored {
    ($word:literal, $bits:literal, $place:expr) => {
        Field { word: $word, bits: $bits, default_mask: 0, place: $place }
    };
}

static ETH: [Field; 4] = [
    matched!("dst", 48, bytes!(MAC_DST, 6)),
    matched!("src", 48, bytes!(MAC_SRC, 6)),
    ignored!("type", 16, bytes!(ETH_TYPE, 2)),
    ignored!("has_vlan", 1, FieldPlace::TagFollows),
];

static VLAN: [Field; 5] = [
    ignored!("pcp", 3, bits!(TAG_CONTROL, 2, 13)),
    ignored!("dei", 1, bits!(TAG_CONTROL, 2, 12)),
    matched!("vid", 12, bits!(TAG_CONTROL, 2, 0)),
    ignored!("inner_type", 16, bytes!(INNER_TYPE, 2)),
    ignored!("has_more_vlan", 1, FieldPlace::TagFollows),
];

static IPV4: [Field; 5] = [
    ignored!("tos", 8, bytes!(IPV4_TOS, 1)),
    ignored!("ttl", 8, bytes!(IPV4_TTL, 1)),
    ignored!("proto", 8, bytes!(IPV4_PROTO, 1)),
    matched!("src", 32, bytes!(IPV4_SRC, 4)),
    matched!("dst", 32, bytes!(IPV4_DST, 4)),
];

static IPV6: [Field; 6] = [
    ignored!("tc", 8, bits!(IPV6_FIRST, 4, 20)),
    ignored!("flow", 20, bits!(IPV6_FIRST, 4, 0)),
    ignored!("proto", 8, bytes!(IPV6_PROTO, 1)),
    ignored!("hop", 8, bytes!(IPV6_HOP, 1)),
    matched!("src", 128, bytes!(IPV6_SRC, 16)),
    matched!("dst", 128, bytes!(IPV6_DST, 16)),
];

static TCP: [Field; 3] = [
    matched!("src", 16, bytes!(PORT_SRC, 2)),
    matched!("dst", 16, bytes!(PORT_DST, 2)),
    ignored!("flags", 8, bytes!(TCP_FLAGS, 1)),
];

static UDP: [Field; 2] = [
    matched!("src", 16, bytes!(PORT_SRC, 2)),
    matched!("dst", 16, bytes!(PORT_DST, 2)),
];

static VXLAN: [Field; 1] = [matched!("vni", 24, bytes!(VNI, 3))];

/// The fields of a kind of item, in the order of a layer's numbers.
pub fn fields_of(kind: ItemKind) -> &'static [Field]
    ensures { map told result.now ≡ fields_of kind }
{
    match kind {
        ItemKind::Void => &[],
        ItemKind::Eth => &ETH,
        ItemKind::Vlan => &VLAN,
        ItemKind::Ipv4 => &IPV4,
        ItemKind::Ipv6 => &IPV6,
        ItemKind::Tcp => &TCP,
        ItemKind::Udp => &UDP,
        ItemKind::Vxlan => &VXLAN,
    }
}
