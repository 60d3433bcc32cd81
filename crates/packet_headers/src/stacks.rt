//! The headers of one stack, and those of a tunnel.
use crate::headers::{Eth, Ipv4, Ipv6, Tag, Tcp, Udp, Vxlan};

/// The VLAN tags of a stack, in order.
#[derive(Clone, Copy)]
pub enum Tags {
    None,
    One(Tag),
    Two(Tag, Tag),
}

/// The network header of a stack.
#[derive(Clone, Copy)]
pub enum Network {
    None,
    V4(Ipv4),
    V6(Ipv6),
}

/// The transport header of a stack.
#[derive(Clone, Copy)]
pub enum Transport {
    None,
    Tcp(Tcp),
    Udp(Udp),
}

/// The headers of one Ethernet frame.
#[derive(Clone, Copy)]
pub struct Stack {
    pub eth: Eth,
    pub network: Network,
    pub tags: Tags,
    pub transport: Transport,
}

/// A VXLAN header, and the headers of the Ethernet frame behind it, where that has 14 bytes or more.
#[derive(Clone, Copy)]
pub struct Tunnel {
    pub inner: Option<Stack>,
    pub vxlan: Vxlan,
}
