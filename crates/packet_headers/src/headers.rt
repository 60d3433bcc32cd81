//! The headers of a frame, each with its fields.
ghost use Rattle.std.specs.Prelude.{◌≡◌};
ghost use Rattle.packet_headers.specs.Headers.{eth_layer, tag_layer, ipv4_layer, ipv6_layer, tcp_layer, udp_layer, vxlan_layer};

use crate::items::{ItemKind, Layer, LayerAt};
use std::marker::Model;

/// An Ethernet header.
#[derive(Clone, Copy)]
pub struct Eth {
    /// The destination address, in 48 bits.
    pub dst: u64,
    /// The source address, in 48 bits.
    pub src: u64,
    pub ether_type: u16,
    /// Whether a VLAN layer follows.
    pub has_vlan: bool,
    /// Where the header begins in the frame.
    pub offset: u8,
}

impl Eth {
    /// The header as a layer.
    pub fn layer(&self) -> LayerAt
        ensures { result ≡ eth_layer self.now }
    {
        LayerAt {
            layer: Layer {
                kind: ItemKind::Eth,
                v: [
                    self.dst as u128,
                    self.src as u128,
                    self.ether_type as u128,
                    self.has_vlan as u128,
                    0,
                    0,
                ],
            },
            offset: self.offset as usize,
        }
    }
}

/// A VLAN tag's control information, and the type behind it.
#[derive(Clone, Copy)]
pub struct Tag {
    pub vid: u16,
    pub inner_type: u16,
    pub pcp: u8,
    pub dei: u8,
    /// Whether a VLAN layer follows.
    pub has_more_vlan: bool,
    /// Where the control information begins in the frame.
    pub offset: u8,
}

impl Tag {
    /// The header as a layer.
    pub fn layer(&self) -> LayerAt
        ensures { result ≡ tag_layer self.now }
    {
        LayerAt {
            layer: Layer {
                kind: ItemKind::Vlan,
                v: [
                    self.pcp as u128,
                    self.dei as u128,
                    self.vid as u128,
                    self.inner_type as u128,
                    self.has_more_vlan as u128,
                    0,
                ],
            },
            offset: self.offset as usize,
        }
    }
}

/// An IPv4 header without its options.
#[derive(Clone, Copy)]
pub struct Ipv4 {
    pub src: u32,
    pub dst: u32,
    pub tos: u8,
    pub ttl: u8,
    pub proto: u8,
    /// Where the header begins in the frame.
    pub offset: u8,
}

impl Ipv4 {
    /// The header as a layer.
    pub fn layer(&self) -> LayerAt
        ensures { result ≡ ipv4_layer self.now }
    {
        LayerAt {
            layer: Layer {
                kind: ItemKind::Ipv4,
                v: [
                    self.tos as u128,
                    self.ttl as u128,
                    self.proto as u128,
                    self.src as u128,
                    self.dst as u128,
                    0,
                ],
            },
            offset: self.offset as usize,
        }
    }
}

/// An IPv6 header.
#[derive(Clone, Copy)]
pub struct Ipv6 {
    pub src: Ipv6Address,
    pub dst: Ipv6Address,
    pub flow: u32,
    pub tc: u8,
    pub proto: u8,
    pub hop: u8,
    /// Where the header begins in the frame.
    pub offset: u8,
}

impl Ipv6 {
    /// The header as a layer.
    pub fn layer(&self) -> LayerAt
        ensures { result ≡ ipv6_layer self.now }
    {
        LayerAt {
            layer: Layer {
                kind: ItemKind::Ipv6,
                v: [
                    self.tc as u128,
                    self.flow as u128,
                    self.proto as u128,
                    self.hop as u128,
                    self.src.number(),
                    self.dst.number(),
                ],
            },
            offset: self.offset as usize,
        }
    }
}

/// A TCP header without its options.
#[derive(Clone, Copy)]
pub struct Tcp {
    pub src: u16,
    pub dst: u16,
    pub flags: u8,
    /// Where the header begins in the frame.
    pub offset: u8,
}

impl Tcp {
    /// The header as a layer.
    pub fn layer(&self) -> LayerAt
        ensures { result ≡ tcp_layer self.now }
    {
        LayerAt {
            layer: Layer {
                kind: ItemKind::Tcp,
                v: [
                    self.src as u128,
                    self.dst as u128,
                    self.flags as u128,
                    0,
                    0,
                    0,
                ],
            },
            offset: self.offset as usize,
        }
    }
}

/// A UDP header.
#[derive(Clone, Copy)]
pub struct Udp {
    pub src: u16,
    pub dst: u16,
    /// Where the header begins in the frame.
    pub offset: u8,
}

impl Udp {
    /// The header as a layer.
    pub fn layer(&self) -> LayerAt
        ensures { result ≡ udp_layer self.now }
    {
        LayerAt {
            layer: Layer {
                kind: ItemKind::Udp,
                v: [self.src as u128, self.dst as u128, 0, 0, 0, 0],
            },
            offset: self.offset as usize,
        }
    }
}

/// A VXLAN header.
#[derive(Clone, Copy)]
pub struct Vxlan {
    /// The network id, in 24 bits.
    pub vni: u32,
    /// Where the header begins in the frame.
    pub offset: u8,
}

impl Vxlan {
    /// The header as a layer.
    pub fn layer(&self) -> LayerAt
        ensures { result ≡ vxlan_layer self.now }
    {
        LayerAt {
            layer: Layer {
                kind: ItemKind::Vxlan,
                v: [self.vni as u128, 0, 0, 0, 0, 0],
            },
            offset: self.offset as usize,
        }
    }
}

/// An IPv6 address: a number of 128 bits, kept in halves so that a header needs no alignment to 16
/// bytes.
#[derive(Clone, Copy)]
pub struct Ipv6Address {
    high: u64,
    low: u64,
}

impl Model for Ipv6Address {
    ghost use Rattle.std.specs.Prelude.{ℕ, ◌+◌, ◌*◌, ◌^◌, ◌<◌, ◌/◌, ◌%◌};

    ghost Value = { ℕ };

    ghost view = { λ a. a.high * 2 ^ 64 + a.low };

    ghost invariant = { λ a. a.low < 2 ^ 64 };

    ghost inverse = { λ n. record { high = n / 2 ^ 64; low = n % 2 ^ 64 } };
}

impl Ipv6Address {
    pub fn new(number: u128) -> Self
        ensures { result ≡ number }
    {
        Ipv6Address {
            high: (number >> 64) as u64,
            low: (number & u64::MAX as u128) as u64,
        }
    }

    pub fn number(&self) -> u128
        ensures { result ≡ self.now }
    {
        (self.high as u128) << 64 | self.low as u128
    }
}
