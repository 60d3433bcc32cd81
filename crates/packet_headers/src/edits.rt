//! Edits of one field.

/// A change of one field of a header.
#[derive(Clone, Copy, PartialEq, Eq, Debug)]
pub enum Edit {
    /// The source address of Ethernet, below 2^48.
    MacSrc(u64),
    /// The destination address of Ethernet, below 2^48.
    MacDst(u64),
    /// The source address of IPv4.
    Ipv4Src(u32),
    /// The destination address of IPv4.
    Ipv4Dst(u32),
    /// The source address of IPv6.
    Ipv6Src(u128),
    /// The destination address of IPv6.
    Ipv6Dst(u128),
    /// The source port of TCP or UDP.
    PortSrc(u16),
    /// The destination port of TCP or UDP.
    PortDst(u16),
    /// The TTL of IPv4 or the hop limit of IPv6 falls by 1, and stays at 0.
    DecTtl,
    /// The TTL of IPv4 or the hop limit of IPv6.
    SetTtl(u8),
    /// The VLAN id of a tag, below 4,096.
    SetVid(u16),
}
