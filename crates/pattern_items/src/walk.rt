//! A walk over the headers of a key, from the first on, in which no layer is made.
ghost use Rattle.std.specs.Prelude.{◌≡◌, Bool, true, Option, Some};
ghost use Rattle.packet_headers.specs.declared.items.LayerAt.{LayerAt};
ghost use Rattle.packet_headers.specs.Stack as stacks;
ghost use Rattle.pattern_items.specs.Walk.{walk_by};

use crate::header::Header;
use packet_headers::{Key, Network, Stack, Tags, Transport, Tunnel};

/// What goes over the headers of a key, one by one.
pub trait Walker {
    /// How far it is, and what it has gathered.
    type Way: Copy;

    /// What becomes of the way at a layer.
    ghost step: { Self → Self.Way → LayerAt → Option Self.Way };

    /// The way is at its end.
    ghost is_done: { Self → Self.Way → Bool };

    /// The way behind this header, or None where it can't come to anything any more.
    fn step<H: Header>(&self, way: Self::Way, header: &H) -> Option<Self::Way>
        ensures { result ≡ step self.now way (H.layer header.now) };

    /// Whether the way is at its end.
    fn is_done(&self, way: Self::Way) -> bool
        ensures { result ≡ is_done self.now way };

    /// No layer changes a way that is at its end.
    ghost stays: { (walker : Self) (way : Self.Way) (l : LayerAt) → is_done walker way ≡ true → step walker way l ≡ Some way };
}

/// The way behind the tags of a stack.
#[inline(always)]
fn walk_tags<W: Walker>(walker: &W, way: W::Way, tags: &Tags) -> Option<W::Way>
    ensures { result ≡ walk_by (W.step walker.now) (Some way) (stacks.tag_layers tags.now) }
{
    match tags {
        Tags::None => Some(way),
        Tags::One(tag) => walker.step(way, tag),
        Tags::Two(first, second) => {
            let Some(way) = walker.step(way, first) else {
                return None;
            };
            walker.step(way, second)
        }
    }
}

/// The same behind its network header.
#[inline(always)]
fn walk_network<W: Walker>(walker: &W, way: W::Way, network: &Network) -> Option<W::Way>
    ensures { result ≡ walk_by (W.step walker.now) (Some way) (stacks.network_layers network.now) }
{
    match network {
        Network::None => Some(way),
        Network::V4(header) => walker.step(way, header),
        Network::V6(header) => walker.step(way, header),
    }
}

/// The same behind its transport header.
#[inline(always)]
fn walk_transport<W: Walker>(walker: &W, way: W::Way, transport: &Transport) -> Option<W::Way>
    ensures { result ≡ walk_by (W.step walker.now) (Some way) (stacks.transport_layers transport.now) }
{
    match transport {
        Transport::None => Some(way),
        Transport::Tcp(header) => walker.step(way, header),
        Transport::Udp(header) => walker.step(way, header),
    }
}

/// The same behind all headers of an Ethernet frame.
#[inline(always)]
#[tactic(auto, using(crate::proofs::Walks::walk_append))]
fn walk_stack<W: Walker>(walker: &W, way: W::Way, stack: &Stack) -> Option<W::Way>
    ensures { result ≡ walk_by (W.step walker.now) (Some way) (stacks.stack_layers stack.now) }
{
    let Some(way) = walker.step(way, &stack.eth) else {
        return None;
    };
    let Some(way) = walk_tags(walker, way, &stack.tags) else {
        return None;
    };
    let Some(way) = walk_network(walker, way, &stack.network) else {
        return None;
    };
    walk_transport(walker, way, &stack.transport)
}

/// The same, where there may be no frame.
#[inline(always)]
fn walk_outer<W: Walker>(walker: &W, way: W::Way, stack: &Option<Stack>) -> Option<W::Way>
    ensures { result ≡ walk_by (W.step walker.now) (Some way) (stacks.outer_layers stack.now) }
{
    match stack {
        None => Some(way),
        Some(stack) => walk_stack(walker, way, stack),
    }
}

/// The same behind VXLAN and the headers of the frame in it.
#[inline(never)]
fn walk_tunnel<W: Walker>(walker: &W, way: W::Way, tunnel: &Option<Tunnel>) -> Option<W::Way>
    ensures { result ≡ walk_by (W.step walker.now) (Some way) (stacks.tunnel_layers tunnel.now) }
{
    match tunnel {
        None => Some(way),
        Some(tunnel) => {
            let Some(way) = walker.step(way, &tunnel.vxlan) else {
                return None;
            };
            walk_outer(walker, way, &tunnel.inner)
        }
    }
}

/// The same behind what comes after the outer frame: nothing of it can change a way that is done.
#[inline(always)]
fn walk_on<W: Walker>(walker: &W, way: W::Way, tunnel: &Option<Tunnel>) -> Option<W::Way>
    ensures { result ≡ walk_by (W.step walker.now) (Some way) (stacks.tunnel_layers tunnel.now) }
{
    if walker.is_done(way) {
        return Some(way);
    }
    walk_tunnel(walker, way, tunnel)
}

/// The way behind the last header of a key, or None where it came to nothing.
#[inline(always)]
#[tactic(auto, using(crate::proofs::Walks::walk_append))]
pub fn walk_key<W: Walker>(walker: &W, start: W::Way, key: &Key) -> Option<W::Way>
    ensures { result ≡ walk_by (W.step walker.now) (Some start) key.now }
{
    let Some(way) = walk_outer(walker, start, &key.outer) else {
        return None;
    };
    walk_on(walker, way, &key.tunnel)
}
