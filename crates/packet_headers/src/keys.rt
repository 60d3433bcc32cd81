//! The key of a frame: its headers, and their layers.
ghost use Rattle.std.specs.Prelude.{◌≡◌, ◌+◌, ◌≤◌, ◌<◌, ◌++◌, length, map, slice_get};
ghost use Rattle.arrayvec.specs.ArrayVec.{array_vec_len};
ghost use Rattle.packet_headers.specs.Stack.{outer_layers, tag_layers, network_layers, transport_layers};

use crate::items::{Layer, LayerAt};
use crate::stacks::{Network, Stack, Tags, Transport, Tunnel};
use arrayvec::ArrayVec;
use std::alloc::AllocError;
use std::marker::Model;

/// The most layers of a key: two stacks, and VXLAN between them. A stack has at most 5, for Ethernet, two tags, a network and
/// a transport header.
const MAX_LAYERS: usize = 11;

/// The headers of a frame, each with its offset.
#[derive(Copy)]
pub struct Key {
    pub outer: Option<Stack>,
    pub tunnel: Option<Tunnel>,
}

// A key is kept for each frame of a history.
const _: () = prove!(size_of::<Key>() <= 240);

impl Model for Key {
    ghost use Rattle.std.specs.Prelude.{List};
    ghost use Rattle.packet_headers.specs.declared.items.LayerAt.{LayerAt};

    ghost Value = { List LayerAt };

    ghost use Rattle.packet_headers.specs.Key.{layers_of, key_of};

    ghost view = { layers_of };

    ghost inverse = { key_of };

    ghost use Rattle.packet_headers.specs.KeyBack.{key_of-layers_of};

    ghost inverse_ok = { λ k h. key_of-layers_of k };
}

impl Clone for Key {
    ghost is_clone = { λ key copy. copy ≡ key };

    fn clone(&self) -> Result<Key, AllocError> {
        Ok(*self)
    }
}

impl Key {
    /// How many layers the key holds: at most 11.
    pub fn len(&self) -> usize
        ensures len { result ≡ length self.now }
        ensures most { result ≤ 11 }
    {
        self.layers().len()
    }

    /// The layer at place `i`, from the first byte of the frame on.
    pub fn layer(&self, i: usize) -> Layer
        requires { i < length self.now }
        ensures { slice_get (map (λ l. l.layer) self.now) i ≡ Some result }
    {
        self.layers()[i].layer
    }

    /// Where the layer at place `i` begins in the frame, in bytes.
    pub fn offset(&self, i: usize) -> usize
        requires { i < length self.now }
        ensures { slice_get (map (λ l. l.offset) self.now) i ≡ Some result }
    {
        self.layers()[i].offset
    }

    fn layers(&self) -> ArrayVec<LayerAt, MAX_LAYERS>
        ensures { result.items ≡ self.now }
    {
        let mut list = ArrayVec::new();
        push_frame(&mut list, &self.outer);
        if let Some(tunnel) = &self.tunnel {
            list.push(tunnel.vxlan.layer());
            push_frame(&mut list, &tunnel.inner);
        }
        list
    }
}

/// Appends the layers of a frame, if there is one.
fn push_frame(list: &mut ArrayVec<LayerAt, MAX_LAYERS>, frame: &Option<Stack>)
    requires { array_vec_len list.old + 5 ≤ 11 }
    ensures items { list.new.items ≡ list.old.items ++ outer_layers frame.now }
    ensures len { array_vec_len list.new ≤ array_vec_len list.old + 5 }
{
    if let Some(stack) = frame {
        list.push(stack.eth.layer());
        push_tags(list, &stack.tags);
        push_network(list, &stack.network);
        push_transport(list, &stack.transport);
    }
}

fn push_tags(list: &mut ArrayVec<LayerAt, MAX_LAYERS>, tags: &Tags)
    requires { array_vec_len list.old + 2 ≤ 11 }
    ensures items { list.new.items ≡ list.old.items ++ tag_layers tags.now }
    ensures len { array_vec_len list.new ≤ array_vec_len list.old + 2 }
{
    match tags {
        Tags::None => {}
        Tags::One(tag) => list.push(tag.layer()),
        Tags::Two(first, second) => {
            list.push(first.layer());
            list.push(second.layer());
        }
    }
}

fn push_network(list: &mut ArrayVec<LayerAt, MAX_LAYERS>, network: &Network)
    requires { array_vec_len list.old + 1 ≤ 11 }
    ensures items { list.new.items ≡ list.old.items ++ network_layers network.now }
    ensures len { array_vec_len list.new ≤ array_vec_len list.old + 1 }
{
    match network {
        Network::None => {}
        Network::V4(header) => list.push(header.layer()),
        Network::V6(header) => list.push(header.layer()),
    }
}

fn push_transport(list: &mut ArrayVec<LayerAt, MAX_LAYERS>, transport: &Transport)
    requires { array_vec_len list.old + 1 ≤ 11 }
    ensures items { list.new.items ≡ list.old.items ++ transport_layers transport.now }
    ensures len { array_vec_len list.new ≤ array_vec_len list.old + 1 }
{
    match transport {
        Transport::None => {}
        Transport::Tcp(header) => list.push(header.layer()),
        Transport::Udp(header) => list.push(header.layer()),
    }
}
