//! The headers of a key, as they are read where they lie: no layer is made of them.
ghost use Rattle.std.specs.Prelude.{◌≡◌, slice_index};
ghost use Rattle.packet_headers.specs.declared.items.LayerAt.{LayerAt};
ghost use Rattle.packet_headers.specs.Headers.{eth_layer, tag_layer, ipv4_layer, ipv6_layer, tcp_layer, udp_layer, vxlan_layer};

use packet_headers::{Eth, Ipv4, Ipv6, ItemKind, Tag, Tcp, Udp, Vxlan};

/// A header of a key: its kind, and its numbers by the field table.
pub trait Header {
    /// The layer that it is.
    ghost layer: { Self → LayerAt };

    /// Its kind.
    fn kind(&self) -> ItemKind
        ensures { result ≡ (layer self.now).layer.kind };

    /// The number of a field by its place in the field table, and 0 behind the last field.
    fn field(&self, number: u8) -> u128
        ensures { result ≡ slice_index (layer self.now).layer.v number };
}

impl Header for Eth {
    ghost layer = { eth_layer };

    #[inline(always)]
    fn kind(&self) -> ItemKind {
        ItemKind::Eth
    }

    #[inline(always)]
    fn field(&self, number: u8) -> u128 {
        match number {
            0 => self.dst as u128,
            1 => self.src as u128,
            2 => self.ether_type as u128,
            3 => self.has_vlan as u128,
            _ => 0,
        }
    }
}

impl Header for Tag {
    ghost layer = { tag_layer };

    #[inline(always)]
    fn kind(&self) -> ItemKind {
        ItemKind::Vlan
    }

    #[inline(always)]
    fn field(&self, number: u8) -> u128 {
        match number {
            0 => self.pcp as u128,
            1 => self.dei as u128,
            2 => self.vid as u128,
            3 => self.inner_type as u128,
            4 => self.has_more_vlan as u128,
            _ => 0,
        }
    }
}

impl Header for Ipv4 {
    ghost layer = { ipv4_layer };

    #[inline(always)]
    fn kind(&self) -> ItemKind {
        ItemKind::Ipv4
    }

    #[inline(always)]
    fn field(&self, number: u8) -> u128 {
        match number {
            0 => self.tos as u128,
            1 => self.ttl as u128,
            2 => self.proto as u128,
            3 => self.src as u128,
            4 => self.dst as u128,
            _ => 0,
        }
    }
}

impl Header for Ipv6 {
    ghost layer = { ipv6_layer };

    #[inline(always)]
    fn kind(&self) -> ItemKind {
        ItemKind::Ipv6
    }

    #[inline(always)]
    fn field(&self, number: u8) -> u128 {
        match number {
            0 => self.tc as u128,
            1 => self.flow as u128,
            2 => self.proto as u128,
            3 => self.hop as u128,
            4 => self.src.number(),
            5 => self.dst.number(),
            _ => 0,
        }
    }
}

impl Header for Tcp {
    ghost layer = { tcp_layer };

    #[inline(always)]
    fn kind(&self) -> ItemKind {
        ItemKind::Tcp
    }

    #[inline(always)]
    fn field(&self, number: u8) -> u128 {
        match number {
            0 => self.src as u128,
            1 => self.dst as u128,
            2 => self.flags as u128,
            _ => 0,
        }
    }
}

impl Header for Udp {
    ghost layer = { udp_layer };

    #[inline(always)]
    fn kind(&self) -> ItemKind {
        ItemKind::Udp
    }

    #[inline(always)]
    fn field(&self, number: u8) -> u128 {
        match number {
            0 => self.src as u128,
            1 => self.dst as u128,
            _ => 0,
        }
    }
}

impl Header for Vxlan {
    ghost layer = { vxlan_layer };

    #[inline(always)]
    fn kind(&self) -> ItemKind {
        ItemKind::Vxlan
    }

    #[inline(always)]
    fn field(&self, number: u8) -> u128 {
        match number {
            0 => self.vni as u128,
            _ => 0,
        }
    }
}
