//! Spreading frames over queues by a hash.
ghost use Rattle.std.specs.Prelude.{◌≡◌, ◌<◌, ◌+◌, ◌≤◌, ◌++◌, ℕ, List, length, All, if◌then◌else◌, Some, None};
ghost use Rattle.std.specs.Option.{option_map};
ghost use Rattle.flow_actions.specs.Hash.{hash_of, hash_at};
ghost use Rattle.flow_actions.specs.Spread.{pair, ports_of, has, hash_in, queues_of, chosen, queue_in, with_ports};

use crate::hash::hash_at;
use crate::rss::Rss;
use packet_headers::{Ipv4, Ipv6, Key, Network, Transport};

/// The bits of `types` that stand for IPv4 and for IPv6 alone. Behind each come the bits for it with TCP and with UDP.
const IPV4_BIT: u8 = 0;

const IPV6_BIT: u8 = 3;

/// The hash of a frame, and the queue that it chooses on a port of `rxq` Rx queues. The hash is of the addresses and ports
/// of the headers in front of VXLAN, of the addresses alone, or 0, as `types` says.
pub fn rss_queue(rss: &Rss, rxq: u8, key: &Key) -> (u32, u8)
    requires { All (λ queue. queue < 256) rss.now.queues.items }
    ensures hash { result.0 ≡ hash_in rss.now.types key.now }
    ensures queue { result.1 ≡ queue_in rss.now rxq key.now }
{
    let hash = key_hash(rss.types, key);
    (hash, queue_of(rss, rxq, hash))
}

/// The hash of a frame.
fn key_hash(types: u8, key: &Key) -> u32
    ensures { result ≡ hash_in types key.now }
{
    let Some(stack) = &key.outer else {
        return 0;
    };
    match &stack.network {
        Network::None => 0,
        Network::V4(header) => with_ports(types, IPV4_BIT, ipv4_part(header), 8, &stack.transport),
        Network::V6(header) => with_ports(types, IPV6_BIT, ipv6_part(header), 32, &stack.transport),
    }
}

/// The hash of addresses and ports, or of the addresses alone, or 0. The addresses have `len` bytes and the hash `addresses`.
#[inline]
fn with_ports(types: u8, bit: u8, addresses: u32, len: usize, transport: &Transport) -> u32
    requires bit { bit < 6 }
    requires len { len + 4 ≤ 36 }
    ensures { (bytes : List ℕ) → length bytes ≡ len → addresses ≡ hash_of bytes
        → result ≡ hash_of (with_ports types bit bytes (ports_of types bit transport.now)) }
{
    if let Some((src, dst)) = ports_of(types, bit, transport) {
        return addresses ^ two_parts(len, &src.to_be_bytes(), &dst.to_be_bytes());
    }
    if has(types, bit) {
        return addresses;
    }
    0
}

/// The hash of the addresses of IPv4.
#[inline]
fn ipv4_part(header: &Ipv4) -> u32
    ensures { result ≡ hash_of (pair 4 header.now.src header.now.dst) }
{
    two_parts(0, &header.src.to_be_bytes(), &header.dst.to_be_bytes())
}

/// The hash of the addresses of IPv6.
fn ipv6_part(header: &Ipv6) -> u32
    ensures { result ≡ hash_of (pair 16 header.now.src header.now.dst) }
{
    two_parts(
        0,
        &header.src.number().to_be_bytes(),
        &header.dst.number().to_be_bytes(),
    )
}

/// The part that one list of bytes and another behind it have in the hash, where the first is byte `from` of the input.
#[inline]
fn two_parts(from: usize, first: &[u8], second: &[u8]) -> u32
    requires { from + length first.now + length second.now ≤ 36 }
    ensures { result ≡ hash_at from (first.now ++ second.now) }
{
    hash_at(from, first) ^ hash_at(from + first.len(), second)
}

/// The ports, where `types` has the network header, whose own bit is given, with this transport header.
#[inline]
fn ports_of(types: u8, bit: u8, transport: &Transport) -> Option<(u16, u16)>
    requires { bit < 6 }
    ensures { option_map (λ numbers. pair 2 numbers.0 numbers.1) result ≡ ports_of types bit transport.now }
{
    match transport {
        Transport::None => None,
        Transport::Tcp(header) => ports_if(has(types, bit + 1), header.src, header.dst),
        Transport::Udp(header) => ports_if(has(types, bit + 2), header.src, header.dst),
    }
}

#[inline]
fn ports_if(taken: bool, src: u16, dst: u16) -> Option<(u16, u16)>
    ensures { result ≡ (if taken then Some (src, dst) else None) }
{
    if taken {
        return Some((src, dst));
    }
    None
}

/// Whether this bit of `types` is set.
#[inline]
fn has(types: u8, bit: u8) -> bool
    requires { bit < 8 }
    ensures { result ≡ has types bit }
{
    types >> bit & 1 == 1
}

/// The queue that a hash chooses. Among no queues at all it is 0.
#[inline]
fn queue_of(rss: &Rss, rxq: u8, hash: u32) -> u8
    requires { All (λ queue. queue < 256) rss.now.queues.items }
    ensures { result ≡ chosen (queues_of rss.now.queues.items rxq) hash }
{
    let listed = rss.queues.as_slice();
    if !listed.is_empty() {
        return listed[hash as usize % listed.len()] as u8;
    }
    if rxq == 0 {
        return 0;
    }
    (hash % rxq as u32) as u8
}
