//! How a frame's headers are read.
ghost use Rattle.std.specs.Prelude.{◌≡◌, ℕ, ◌+◌, ◌*◌, ◌%◌, ◌≤◌, ◌<◌, length, IfSome, Bool, false, [], ◌∷◌, ◌++◌};
ghost use Rattle.std.specs.Bool.{OnTrue};
ghost use Rattle.std.specs.Option.{ForSome};
ghost use Rattle.packet_headers.specs.Fields.{number_at};
ghost use Rattle.packet_headers.specs.Layers.{Payloads, layers, LieWithin, header, words, is_ipv4, is_ipv6, is_first_fragment, tag_follows, network_layers, transport_layers, typed_layers, frame_layers, no_layers, vxlan_layers};
ghost use Rattle.packet_headers.specs.Headers as headers;
ghost use Rattle.packet_headers.specs.Stack as stack;
ghost use Rattle.packet_headers.specs.Payload.{payload_layers, transport_reading, network_reading, typed_reading, frame_reading};
ghost use Rattle.packet_headers.specs.declared.items.ItemKind.TheVariants as kind;

use crate::headers::{Eth, Ipv4, Ipv6, Ipv6Address, Tag, Tcp, Udp, Vxlan};
use crate::keys::Key;
use crate::numbers::{behind, u8_at, u16_at, u24_at, u32_at, u48_at, u128_at};
use crate::places::{
    ETH_TYPE, INNER_TYPE, IPV4_DST, IPV4_FRAGMENT, IPV4_PROTO, IPV4_SRC, IPV4_TOS, IPV4_TTL,
    IPV6_DST, IPV6_FIRST, IPV6_HOP, IPV6_PROTO, IPV6_SRC, MAC_DST, MAC_SRC, PORT_DST, PORT_SRC,
    TAG_CONTROL, TCP_FLAGS, VNI, VXLAN_FLAGS,
};
use crate::stacks::{Network, Stack, Tags, Transport, Tunnel};

// The types of IEEE 802.1Q and 802.1ad, IPv4 and IPv6 behind Ethernet.
const TAG_TYPE: u16 = 0x8100;

const SERVICE_TAG_TYPE: u16 = 0x88a8;

const IPV4_TYPE: u16 = 0x0800;

const IPV6_TYPE: u16 = 0x86dd;

// The protocols behind IPv4 and IPv6.
const TCP_PROTOCOL: u8 = 6;

const UDP_PROTOCOL: u8 = 17;

/// The UDP port that announces VXLAN.
const VXLAN_PORT: u16 = 4789;

/// The flag of a VXLAN header with a valid network id.
const VALID_VNI: u8 = 0x08;

// The bytes of each header, without options.
const ETH_LEN: usize = 14;

const TAG_LEN: usize = 4;

const IPV4_LEN: usize = 20;

const IPV6_LEN: usize = 40;

const TCP_LEN: usize = 20;

const UDP_LEN: usize = 8;

const VXLAN_LEN: usize = 8;

/// The unit of the header length of IPv4, in bytes.
const WORD: usize = 4;

/// The bytes behind a UDP header to the port of VXLAN, and their offset in the frame.
#[derive(Clone, Copy)]
struct Payload<'a> {
    bytes: &'a [u8],
    offset: usize,
}

/// What was read behind an Ethernet header.
#[derive(Clone, Copy)]
struct Upper<'a> {
    tags: Tags,
    network: Network,
    transport: Transport,
    payload: Option<Payload<'a>>,
}

/// An Ethernet frame that was read.
#[derive(Clone, Copy)]
struct Reading<'a> {
    stack: Stack,
    payload: Option<Payload<'a>>,
}

#[tactic(auto, unfolding(crate::specs::Layers::header))]
fn read_eth(rest: &[u8], offset: usize, has_vlan: bool) -> Eth
    requires room { 14 ≤ length rest.now }
    requires offset { offset < 256 }
    ensures { headers.eth_layer result ≡ header kind.Eth offset has_vlan rest.now }
{
    Eth {
        dst: u48_at(rest, MAC_DST),
        src: u48_at(rest, MAC_SRC),
        ether_type: u16_at(rest, ETH_TYPE),
        has_vlan,
        offset: offset as u8,
    }
}

#[tactic(auto, unfolding(crate::specs::Layers::header))]
fn read_tag(rest: &[u8], offset: usize, has_more_vlan: bool) -> Tag
    requires room { 4 ≤ length rest.now }
    requires offset { offset < 256 }
    ensures { headers.tag_layer result ≡ header kind.Vlan offset has_more_vlan rest.now }
{
    let control = u16_at(rest, TAG_CONTROL);
    Tag {
        vid: control % 4096,
        inner_type: u16_at(rest, INNER_TYPE),
        pcp: (control / 8192 % 8) as u8,
        dei: (control / 4096 % 2) as u8,
        has_more_vlan,
        offset: offset as u8,
    }
}

#[tactic(auto, unfolding(crate::specs::Layers::header))]
fn read_ipv4(rest: &[u8], offset: usize) -> Ipv4
    requires room { 20 ≤ length rest.now }
    requires offset { offset < 256 }
    ensures layer { headers.ipv4_layer result ≡ header kind.Ipv4 offset false rest.now }
    ensures proto { result.proto ≡ number_at 9 1 rest.now }
{
    Ipv4 {
        src: u32_at(rest, IPV4_SRC),
        dst: u32_at(rest, IPV4_DST),
        tos: u8_at(rest, IPV4_TOS),
        ttl: u8_at(rest, IPV4_TTL),
        proto: u8_at(rest, IPV4_PROTO),
        offset: offset as u8,
    }
}

#[tactic(auto, unfolding(crate::specs::Layers::header))]
fn read_ipv6(rest: &[u8], offset: usize) -> Ipv6
    requires room { 40 ≤ length rest.now }
    requires offset { offset < 256 }
    ensures layer { headers.ipv6_layer result ≡ header kind.Ipv6 offset false rest.now }
    ensures proto { result.proto ≡ number_at 6 1 rest.now }
{
    let first = u32_at(rest, IPV6_FIRST);
    Ipv6 {
        src: Ipv6Address::new(u128_at(rest, IPV6_SRC)),
        dst: Ipv6Address::new(u128_at(rest, IPV6_DST)),
        flow: first % 1048576,
        tc: (first / 1048576 % 256) as u8,
        proto: u8_at(rest, IPV6_PROTO),
        hop: u8_at(rest, IPV6_HOP),
        offset: offset as u8,
    }
}

#[tactic(auto, unfolding(crate::specs::Layers::header))]
fn read_tcp(rest: &[u8], offset: usize) -> Tcp
    requires room { 20 ≤ length rest.now }
    requires offset { offset < 256 }
    ensures { headers.tcp_layer result ≡ header kind.Tcp offset false rest.now }
{
    Tcp {
        src: u16_at(rest, PORT_SRC),
        dst: u16_at(rest, PORT_DST),
        flags: u8_at(rest, TCP_FLAGS),
        offset: offset as u8,
    }
}

#[tactic(auto, unfolding(crate::specs::Layers::header))]
fn read_udp(rest: &[u8], offset: usize) -> Udp
    requires room { 8 ≤ length rest.now }
    requires offset { offset < 256 }
    ensures layer { headers.udp_layer result ≡ header kind.Udp offset false rest.now }
    ensures dst { result.dst ≡ number_at 2 2 rest.now }
{
    Udp {
        src: u16_at(rest, PORT_SRC),
        dst: u16_at(rest, PORT_DST),
        offset: offset as u8,
    }
}

#[tactic(auto, unfolding(crate::specs::Layers::header))]
fn read_vxlan(rest: &[u8], offset: usize) -> Vxlan
    requires room { 8 ≤ length rest.now }
    requires offset { offset < 256 }
    ensures { headers.vxlan_layer result ≡ header kind.Vxlan offset false rest.now }
{
    Vxlan {
        vni: u24_at(rest, VNI),
        offset: offset as u8,
    }
}

/// Whether a VLAN layer stands in the bytes that remain behind this type.
fn is_tag(rest: &[u8], ether_type: u16) -> bool
    ensures tag { result ≡ tag_follows 1 ether_type rest.now }
    ensures room { OnTrue result (4 ≤ length rest.now) }
{
    if ether_type == TAG_TYPE {
        return rest.len() >= TAG_LEN;
    }
    if ether_type == SERVICE_TAG_TYPE {
        return rest.len() >= TAG_LEN;
    }
    false
}

/// Whether a whole IPv4 header with its options stands in the bytes that remain.
fn is_ipv4(rest: &[u8]) -> bool
    ensures header { result ≡ is_ipv4 rest.now }
    ensures room { OnTrue result (20 ≤ length rest.now) }
    ensures options { OnTrue result (words rest.now * 4 ≤ length rest.now) }
{
    if rest.len() < IPV4_LEN {
        return false;
    }
    let first = u8_at(rest, 0);
    if first / 16 != 4 {
        return false;
    }
    let words = first % 16;
    if words < 5 {
        return false;
    }
    rest.len() >= words as usize * WORD
}

/// Whether a whole IPv6 header stands in the bytes that remain.
fn is_ipv6(rest: &[u8]) -> bool
    ensures header { result ≡ is_ipv6 rest.now }
    ensures room { OnTrue result (40 ≤ length rest.now) }
{
    if rest.len() < IPV6_LEN {
        return false;
    }
    u8_at(rest, 0) / 16 == 6
}

/// A transport header, if any, and what stands behind it.
fn carried<'a>(transport: Transport, payload: Option<Payload<'a>>) -> Upper<'a>
    ensures tags { result.tags ≡ Tags.None }
    ensures network { result.network ≡ Network.None }
    ensures transport { result.transport ≡ transport }
    ensures payload { result.payload ≡ payload.entry }
{
    Upper {
        tags: Tags::None,
        network: Network::None,
        transport,
        payload,
    }
}

/// The transport header that a protocol announces.
fn read_transport(rest: &[u8], offset: usize, protocol: u8) -> Upper<'_>
    requires { offset ≤ 180 }
    ensures layers { (inside : Payloads) → transport_reading inside result
        ≡ transport_layers inside protocol offset rest.now }
    ensures payload { IfSome result.payload (λ p. p.offset ≡ offset + 8) }
{
    if protocol == TCP_PROTOCOL {
        if rest.len() < TCP_LEN {
            return carried(Transport::None, None);
        }
        return carried(Transport::Tcp(read_tcp(rest, offset)), None);
    }
    if protocol != UDP_PROTOCOL {
        return carried(Transport::None, None);
    }
    if rest.len() < UDP_LEN {
        return carried(Transport::None, None);
    }
    let udp = read_udp(rest, offset);
    if udp.dst != VXLAN_PORT {
        return carried(Transport::Udp(udp), None);
    }
    let payload = Payload {
        bytes: behind(rest, UDP_LEN),
        offset: offset + UDP_LEN,
    };
    carried(Transport::Udp(udp), Some(payload))
}

/// Whether an IPv4 header stands in front of the first bytes of what it carries.
fn is_first_fragment(rest: &[u8]) -> bool
    requires { 20 ≤ length rest.now }
    ensures { result ≡ is_first_fragment rest.now }
{
    u16_at(rest, IPV4_FRAGMENT) % 8192 == 0
}

/// The network header that a type announces, and what it carries.
fn read_network(rest: &[u8], offset: usize, ether_type: u16) -> Upper<'_>
    requires { offset ≤ 120 }
    ensures layers { (inside : Payloads) → network_reading inside result
        ≡ network_layers inside ether_type offset rest.now }
    ensures payload { IfSome result.payload (λ p. p.offset ≤ offset + 68) }
{
    if ether_type == IPV4_TYPE {
        if !is_ipv4(rest) {
            return carried(Transport::None, None);
        }
        let header = read_ipv4(rest, offset);
        if !is_first_fragment(rest) {
            let mut upper = carried(Transport::None, None);
            upper.network = Network::V4(header);
            return upper;
        }
        let len = u8_at(rest, 0) as usize % 16 * WORD;
        let mut upper = read_transport(behind(rest, len), offset + len, header.proto);
        upper.network = Network::V4(header);
        return upper;
    }
    if ether_type != IPV6_TYPE {
        return carried(Transport::None, None);
    }
    if !is_ipv6(rest) {
        return carried(Transport::None, None);
    }
    let header = read_ipv6(rest, offset);
    let mut upper = read_transport(behind(rest, IPV6_LEN), offset + IPV6_LEN, header.proto);
    upper.network = Network::V6(header);
    upper
}

/// Up to two tags, and the network header behind them.
fn read_typed(rest: &[u8], offset: usize, ether_type: u16) -> Upper<'_>
    requires { offset ≤ 112 }
    ensures layers { (inside : Payloads) → typed_reading inside result
        ≡ typed_layers 2 inside ether_type offset rest.now }
    ensures payload { IfSome result.payload (λ p. p.offset ≤ offset + 76) }
{
    if !is_tag(rest, ether_type) {
        let mut upper = read_network(rest, offset, ether_type);
        upper.tags = Tags::None;
        return upper;
    }
    let inner_type = u16_at(rest, INNER_TYPE);
    let behind_tag = behind(rest, TAG_LEN);
    if !is_tag(behind_tag, inner_type) {
        let mut upper = read_network(behind_tag, offset + TAG_LEN, inner_type);
        upper.tags = Tags::One(read_tag(rest, offset, false));
        return upper;
    }
    let first = read_tag(rest, offset, true);
    let second = read_tag(behind_tag, offset + TAG_LEN, false);
    let mut upper = read_network(
        behind(behind_tag, TAG_LEN),
        offset + 2 * TAG_LEN,
        u16_at(behind_tag, INNER_TYPE),
    );
    upper.tags = Tags::Two(first, second);
    upper
}

/// An Ethernet frame.
fn read_frame(rest: &[u8], offset: usize) -> Reading<'_>
    requires room { 14 ≤ length rest.now }
    requires offset { offset ≤ 98 }
    ensures layers { (inside : Payloads) → frame_reading inside result
        ≡ frame_layers inside offset rest.now }
    ensures payload { IfSome result.payload (λ p. p.offset ≤ offset + 90) }
{
    let ether_type = u16_at(rest, ETH_TYPE);
    let behind_eth = behind(rest, ETH_LEN);
    let eth = read_eth(rest, offset, is_tag(behind_eth, ether_type));
    let upper = read_typed(behind_eth, offset + ETH_LEN, ether_type);
    Reading {
        stack: Stack {
            eth,
            network: upper.network,
            tags: upper.tags,
            transport: upper.transport,
        },
        payload: upper.payload,
    }
}

/// VXLAN and the frame inside it, where the flag of a valid network id is set.
fn read_tunnel(payload: Option<Payload<'_>>) -> Option<Tunnel>
    requires { ForSome payload (λ p. p.offset ≤ 90) }
    ensures { stack.tunnel_layers result ≡ payload_layers vxlan_layers payload.entry }
{
    let Some(payload) = payload else {
        return None;
    };
    let rest = payload.bytes;
    if rest.len() < VXLAN_LEN {
        return None;
    }
    if u8_at(rest, VXLAN_FLAGS) & VALID_VNI != VALID_VNI {
        return None;
    }
    Some(Tunnel {
        inner: read_inner(behind(rest, VXLAN_LEN), payload.offset + VXLAN_LEN),
        vxlan: read_vxlan(rest, payload.offset),
    })
}

/// The frame inside a tunnel, in which no second VXLAN is read.
fn read_inner(rest: &[u8], offset: usize) -> Option<Stack>
    requires { offset ≤ 98 }
    ensures { stack.outer_layers result ≡ frame_layers no_layers offset rest.now }
{
    if rest.len() < ETH_LEN {
        return None;
    }
    Some(read_frame(rest, offset).stack)
}

/// The layers of a frame, for any bytes: its headers up to the first that doesn't fit. They lie in
/// the frame, in rising order and without overlap.
#[tactic(auto, unfolding(crate::specs::Layers::layers))]
pub fn parse(frame: &[u8]) -> Key
    ensures layers { result ≡ layers frame.now }
    ensures within { LieWithin 0 (length frame.now) result }
{
    if frame.len() < ETH_LEN {
        return Key {
            outer: None,
            tunnel: None,
        };
    }
    let reading = read_frame(frame, 0);
    Key {
        outer: Some(reading.stack),
        tunnel: read_tunnel(reading.payload),
    }
}
