//! Edits of a key's layers.
ghost use Rattle.std.specs.Prelude.{◌≡◌, ℕ, ◌<◌, List, ◌++◌, map};
ghost use Rattle.packet_headers.specs.declared.items.LayerAt.{LayerAt};
ghost use Rattle.packet_headers.specs.Headers.{eth_layer, tag_layer, ipv4_layer, ipv6_layer, tcp_layer, udp_layer};
ghost use Rattle.packet_headers.specs.Layers.{LieWithin};
ghost use Rattle.packet_headers.specs.Stack.{stack_layers, tag_layers, network_layers, transport_layers};
ghost use Rattle.header_edit.specs.Field.{IsLawful};
ghost use Rattle.header_edit.specs.Layers.{edited, edit_layers, place_of};

use packet_headers::{
    Edit, Eth, Ipv4, Ipv6, Ipv6Address, Key, Network, Stack, Tag, Tags, Tcp, Transport, Udp,
};

/// Changes the field of the first header of the needed kind that stands in front of VXLAN, or
/// nothing where there is none. No header's kind or offset
/// changes.
///
/// The value of an edit of a MAC address is below 2^48, and a VLAN id below 4,096.
pub fn apply_key(key: &mut Key, edit: Edit)
    requires { IsLawful edit }
    ensures layers { key.new ≡ edit_layers edit key.old }
    ensures places { map place_of key.new ≡ map place_of key.old }
    ensures within { (from end : ℕ) → LieWithin from end key.old → LieWithin from end key.new }
{
    let Some(stack) = key.outer else {
        return;
    };
    key.outer = Some(edit_stack(stack, edit));
}

/// The headers of a frame after an edit.
fn edit_stack(stack: Stack, edit: Edit) -> Stack
    requires { IsLawful edit }
    ensures { stack_layers result ≡ edit_layers edit (stack_layers stack) }
{
    let mut stack = stack;
    match edit {
        Edit::MacSrc(_) | Edit::MacDst(_) => {
            stack.eth = edit_eth(stack.eth, edit);
            stack
        }
        Edit::SetVid(vid) => {
            stack.tags = edit_tags(stack.tags, vid);
            stack
        }
        Edit::PortSrc(_) | Edit::PortDst(_) => {
            stack.transport = edit_transport(stack.transport, edit);
            stack
        }
        Edit::Ipv4Src(_)
        | Edit::Ipv4Dst(_)
        | Edit::Ipv6Src(_)
        | Edit::Ipv6Dst(_)
        | Edit::DecTtl
        | Edit::SetTtl(_) => {
            stack.network = edit_network(stack.network, edit);
            stack
        }
    }
}

/// Ethernet with an edited address.
fn edit_eth(header: Eth, edit: Edit) -> Eth
    requires { IsLawful edit }
    ensures { eth_layer result ≡ edited edit (eth_layer header) }
{
    let mut header = header;
    match edit {
        Edit::MacSrc(address) => header.src = address,
        Edit::MacDst(address) => header.dst = address,
        _ => {}
    }
    header
}

/// The tags with another VLAN id in the first one.
fn edit_tags(tags: Tags, vid: u16) -> Tags
    requires { vid < 4096 }
    ensures { (behind : List LayerAt) → edit_layers (Edit.SetVid vid) behind ≡ behind
        → tag_layers result ++ behind ≡ edit_layers (Edit.SetVid vid) (tag_layers tags ++ behind) }
{
    match tags {
        Tags::None => Tags::None,
        Tags::One(tag) => Tags::One(Tag { vid, ..tag }),
        Tags::Two(first, second) => Tags::Two(Tag { vid, ..first }, second),
    }
}

/// The network header with an edited field, if there is one.
fn edit_network(network: Network, edit: Edit) -> Network
    ensures { (behind : List LayerAt) → edit_layers edit behind ≡ behind
        → network_layers result ++ behind ≡ edit_layers edit (network_layers network ++ behind) }
{
    match network {
        Network::None => Network::None,
        Network::V4(header) => Network::V4(edit_ipv4(header, edit)),
        Network::V6(header) => Network::V6(edit_ipv6(header, edit)),
    }
}

/// IPv4 with an edited address or TTL.
fn edit_ipv4(header: Ipv4, edit: Edit) -> Ipv4
    ensures { ipv4_layer result ≡ edited edit (ipv4_layer header) }
{
    let mut header = header;
    match edit {
        Edit::Ipv4Src(address) => header.src = address,
        Edit::Ipv4Dst(address) => header.dst = address,
        Edit::DecTtl => header.ttl = header.ttl.saturating_sub(1),
        Edit::SetTtl(ttl) => header.ttl = ttl,
        _ => {}
    }
    header
}

/// IPv6 with an edited address or hop limit.
fn edit_ipv6(header: Ipv6, edit: Edit) -> Ipv6
    ensures { ipv6_layer result ≡ edited edit (ipv6_layer header) }
{
    let mut header = header;
    match edit {
        Edit::Ipv6Src(address) => header.src = Ipv6Address::new(address),
        Edit::Ipv6Dst(address) => header.dst = Ipv6Address::new(address),
        Edit::DecTtl => header.hop = header.hop.saturating_sub(1),
        Edit::SetTtl(hop) => header.hop = hop,
        _ => {}
    }
    header
}

/// The transport header with an edited port, if there is one.
fn edit_transport(transport: Transport, edit: Edit) -> Transport
    ensures { transport_layers result ≡ edit_layers edit (transport_layers transport) }
{
    match transport {
        Transport::None => Transport::None,
        Transport::Tcp(header) => Transport::Tcp(edit_tcp(header, edit)),
        Transport::Udp(header) => Transport::Udp(edit_udp(header, edit)),
    }
}

/// TCP with an edited port.
fn edit_tcp(header: Tcp, edit: Edit) -> Tcp
    ensures { tcp_layer result ≡ edited edit (tcp_layer header) }
{
    match edit {
        Edit::PortSrc(port) => Tcp {
            src: port,
            ..header
        },
        Edit::PortDst(port) => Tcp {
            dst: port,
            ..header
        },
        _ => header,
    }
}

/// UDP with an edited port.
fn edit_udp(header: Udp, edit: Edit) -> Udp
    ensures { udp_layer result ≡ edited edit (udp_layer header) }
{
    match edit {
        Edit::PortSrc(port) => Udp {
            src: port,
            ..header
        },
        Edit::PortDst(port) => Udp {
            dst: port,
            ..header
        },
        _ => header,
    }
}
