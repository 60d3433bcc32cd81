//! Where the fields and the checksums of each header stand: bytes from the header's first (IEEE 802.3, IEEE 802.1Q,
//! RFC 791, RFC 8200, RFC 9293, RFC 768, RFC 7348).

// Ethernet.
pub const MAC_DST: usize = 0;

pub const MAC_SRC: usize = 6;

pub const ETH_TYPE: usize = 12;

// A VLAN tag behind its type: priority, drop flag and id in one word, and the type of what follows.
pub const TAG_CONTROL: usize = 0;

pub const INNER_TYPE: usize = 2;

// IPv4: flags and fragment offset in one word.
pub const IPV4_TOS: usize = 1;

pub const IPV4_FRAGMENT: usize = 6;

pub const IPV4_TTL: usize = 8;

pub const IPV4_PROTO: usize = 9;

pub const IPV4_CHECKSUM: usize = 10;

pub const IPV4_SRC: usize = 12;

pub const IPV4_DST: usize = 16;

// IPv6: version, traffic class and flow label in four bytes.
pub const IPV6_FIRST: usize = 0;

pub const IPV6_PROTO: usize = 6;

pub const IPV6_HOP: usize = 7;

pub const IPV6_SRC: usize = 8;

pub const IPV6_DST: usize = 24;

// TCP and UDP, whose ports stand in the same places.
pub const PORT_SRC: usize = 0;

pub const PORT_DST: usize = 2;

pub const TCP_FLAGS: usize = 13;

pub const TCP_CHECKSUM: usize = 16;

pub const UDP_CHECKSUM: usize = 6;

// VXLAN.
pub const VXLAN_FLAGS: usize = 0;

pub const VNI: usize = 4;
