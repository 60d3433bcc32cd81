//! Kinds of header, and layers.

/// The kinds of pattern item. All but `Void` are also kinds of header.
#[derive(Clone, Copy, PartialEq, Eq, Debug, Default)]
pub enum ItemKind {
    /// An item that is ignored. No header has this kind.
    #[default]
    Void,
    /// Ethernet (IEEE 802.3).
    Eth,
    /// A VLAN tag: the tag's control information and the type behind it (IEEE 802.1Q).
    Vlan,
    /// IPv4 (RFC 791).
    Ipv4,
    /// IPv6 (RFC 8200).
    Ipv6,
    /// TCP (RFC 9293).
    Tcp,
    /// UDP (RFC 768).
    Udp,
    /// VXLAN (RFC 7348).
    Vxlan,
}

/// A header: its kind, and the numbers of its fields in the order of the field table, with 0 behind
/// them.
#[derive(Clone, Copy, PartialEq, Eq, Debug, Default)]
pub struct Layer {
    pub kind: ItemKind,
    pub v: [u128; 6],
}

/// A header, and the offset of its first byte in the frame. A VLAN layer begins behind the TPID that
/// announces it.
#[derive(Clone, Copy, PartialEq, Eq, Debug, Default)]
pub struct LayerAt {
    pub layer: Layer,
    pub offset: usize,
}
