//! Edits of a frame's bytes, with their checksums.
ghost use Rattle.std.specs.Prelude.{◌≡◌, ◌+◌, ◌≤◌, ◌%◌, ◌⊎◌, ◌<◌, length, [], ◌∷◌, Some, None};
ghost use Rattle.packet_headers.specs.Headers.{eth_layer, tag_layer, ipv4_layer, ipv6_layer};
ghost use Rattle.packet_headers.specs.Stack.{stack_layers, tag_layers, transport_layers};
ghost use Rattle.packet_headers.specs.Layers.{LieWithin};
ghost use Rattle.header_edit.specs.Field.{IsLawful, has_field};
ghost use Rattle.header_edit.specs.Layers.{first, is_transport};
ghost use Rattle.header_edit.specs.Frame.{bytes_at, with_checksums, changed, edit_layer, edit_bytes};

use crate::bytes::{mend, word_at, write};
use crate::sums::Zero;
use packet_headers::places::{
    IPV4_CHECKSUM, IPV4_DST, IPV4_SRC, IPV4_TTL, IPV6_DST, IPV6_HOP, IPV6_SRC, MAC_SRC, PORT_DST,
    TCP_CHECKSUM, UDP_CHECKSUM,
};
use packet_headers::{Edit, Eth, Ipv4, Ipv6, Key, Network, Stack, Tag, Tags, Transport};

/// The word of IPv4 with the TTL in its high byte.
const TTL_WORD: usize = IPV4_TTL;

/// The word of IPv6 with the hop limit in its low byte.
const HOP_WORD: usize = IPV6_HOP - 1;

/// A byte's place in a word.
const HIGH: u16 = 256;

/// The place of what stands in front of a VLAN id in its word.
const ABOVE_VID: u16 = 4096;

/// Mends the checksum of a transport header, if there is one, before the bytes from `place` on
/// become `new`.
fn mend_transport(frame: &mut [u8], transport: &Transport, place: usize, new: &[u8])
    requires within { LieWithin 0 (length frame.old) (transport_layers transport.now) }
    requires room { place + length new.now ≤ length frame.old }
    requires even { length new.now % 2 ≡ 0 }
    ensures { frame.new ≡ with_checksums (transport_layers transport.now)
        (bytes_at place (length new.now) frame.old) new.now frame.old }
{
    match transport {
        Transport::None => {}
        Transport::Tcp(header) => {
            let at = header.offset as usize + TCP_CHECKSUM;
            mend(frame, at, place, new, Zero::IsASum);
        }
        Transport::Udp(header) => {
            let at = header.offset as usize + UDP_CHECKSUM;
            mend(frame, at, place, new, Zero::SaysNone);
        }
    }
}

/// Writes `new` over the bytes from `place` on, which the checksum of a transport header covers.
fn change(frame: &mut [u8], place: usize, new: &[u8], transport: &Transport)
    requires within { LieWithin 0 (length frame.old) (transport_layers transport.now) }
    requires room { place + length new.now ≤ length frame.old }
    requires even { length new.now % 2 ≡ 0 }
    ensures { frame.new ≡ changed place new.now (transport_layers transport.now) frame.old }
{
    mend_transport(frame, transport, place, new);
    write(frame, place, new);
}

/// Writes `new` over the bytes of an IPv4 header from `from` on, which its own checksum covers too.
fn change_ipv4(frame: &mut [u8], header: &Ipv4, from: usize, new: &[u8], transport: &Transport)
    requires header { LieWithin 0 (length frame.old) (ipv4_layer header.now ∷ transport_layers transport.now) }
    requires apart { (from + length new.now ≤ 10) ⊎ (12 ≤ from) }
    requires room { from + length new.now ≤ 20 }
    requires even { length new.now % 2 ≡ 0 }
    ensures { frame.new ≡ changed (header.now.offset + from) new.now
        (ipv4_layer header.now ∷ transport_layers transport.now) frame.old }
{
    let place = header.offset as usize + from;
    let at = header.offset as usize + IPV4_CHECKSUM;
    mend(frame, at, place, new, Zero::IsASum);
    change(frame, place, new, transport);
}

/// Edits an address of Ethernet.
fn edit_eth(frame: &mut [u8], header: &Eth, edit: Edit)
    requires header { LieWithin 0 (length frame.old) (eth_layer header.now ∷ []) }
    requires lawful { IsLawful edit }
    ensures { frame.new ≡ edit_layer edit (Some (eth_layer header.now)) None frame.old }
{
    let offset = header.offset as usize;
    match edit {
        Edit::MacSrc(address) => change(
            frame,
            offset + MAC_SRC,
            &address.to_be_bytes()[2..],
            &Transport::None,
        ),
        Edit::MacDst(address) => change(
            frame,
            offset,
            &address.to_be_bytes()[2..],
            &Transport::None,
        ),
        _ => {}
    }
}

/// Edits the VLAN id of a tag, whose other bits stay.
fn edit_tag(frame: &mut [u8], header: &Tag, vid: u16)
    requires header { LieWithin 0 (length frame.old) (tag_layer header.now ∷ []) }
    requires lawful { vid < 4096 }
    ensures { frame.new ≡ edit_layer (Edit.SetVid vid) (Some (tag_layer header.now)) None frame.old }
{
    let place = header.offset as usize;
    let control = word_at(frame, place) / ABOVE_VID * ABOVE_VID + vid;
    change(frame, place, &control.to_be_bytes(), &Transport::None);
}

/// Edits an address or the TTL of IPv4.
fn edit_ipv4(frame: &mut [u8], header: &Ipv4, transport: &Transport, edit: Edit)
    requires header { LieWithin 0 (length frame.old) (ipv4_layer header.now ∷ transport_layers transport.now) }
    ensures { frame.new ≡ edit_layer edit (Some (ipv4_layer header.now))
        (first is_transport (transport_layers transport.now)) frame.old }
{
    match edit {
        Edit::Ipv4Src(address) => change_ipv4(
            frame,
            header,
            IPV4_SRC,
            &address.to_be_bytes(),
            transport,
        ),
        Edit::Ipv4Dst(address) => change_ipv4(
            frame,
            header,
            IPV4_DST,
            &address.to_be_bytes(),
            transport,
        ),
        Edit::DecTtl => {
            let word = word_at(frame, header.offset as usize + TTL_WORD);
            let word = (word / HIGH).saturating_sub(1) * HIGH + word % HIGH;
            change_ipv4(
                frame,
                header,
                TTL_WORD,
                &word.to_be_bytes(),
                &Transport::None,
            );
        }
        Edit::SetTtl(ttl) => {
            let word = word_at(frame, header.offset as usize + TTL_WORD);
            let word = ttl as u16 * HIGH + word % HIGH;
            change_ipv4(
                frame,
                header,
                TTL_WORD,
                &word.to_be_bytes(),
                &Transport::None,
            );
        }
        _ => {}
    }
}

/// Edits an address or the hop limit of IPv6.
fn edit_ipv6(frame: &mut [u8], header: &Ipv6, transport: &Transport, edit: Edit)
    requires header { LieWithin 0 (length frame.old) (ipv6_layer header.now ∷ transport_layers transport.now) }
    ensures { frame.new ≡ edit_layer edit (Some (ipv6_layer header.now))
        (first is_transport (transport_layers transport.now)) frame.old }
{
    let offset = header.offset as usize;
    match edit {
        Edit::Ipv6Src(address) => change(
            frame,
            offset + IPV6_SRC,
            &address.to_be_bytes(),
            transport,
        ),
        Edit::Ipv6Dst(address) => change(
            frame,
            offset + IPV6_DST,
            &address.to_be_bytes(),
            transport,
        ),
        Edit::DecTtl => {
            let word = word_at(frame, offset + HOP_WORD);
            let word = word / HIGH * HIGH + (word % HIGH).saturating_sub(1);
            change(
                frame,
                offset + HOP_WORD,
                &word.to_be_bytes(),
                &Transport::None,
            );
        }
        Edit::SetTtl(hop) => {
            let word = word_at(frame, offset + HOP_WORD);
            let word = word / HIGH * HIGH + hop as u16;
            change(
                frame,
                offset + HOP_WORD,
                &word.to_be_bytes(),
                &Transport::None,
            );
        }
        _ => {}
    }
}

/// Edits a port, if there is a transport header. The checksum covers it.
fn edit_transport(frame: &mut [u8], transport: &Transport, edit: Edit)
    requires header { LieWithin 0 (length frame.old) (transport_layers transport.now) }
    ensures { frame.new ≡ edit_layer edit (first is_transport (transport_layers transport.now))
        (first is_transport (transport_layers transport.now)) frame.old }
{
    let place = match transport {
        Transport::None => return,
        Transport::Tcp(header) => header.offset as usize,
        Transport::Udp(header) => header.offset as usize,
    };
    match edit {
        Edit::PortSrc(port) => change(frame, place, &port.to_be_bytes(), transport),
        Edit::PortDst(port) => change(frame, place + PORT_DST, &port.to_be_bytes(), transport),
        _ => {}
    }
}

/// Edits the tag of VLAN that stands first, if there is one.
fn edit_tags(frame: &mut [u8], tags: &Tags, vid: u16)
    requires header { LieWithin 0 (length frame.old) (tag_layers tags.now) }
    requires lawful { vid < 4096 }
    ensures { frame.new ≡ edit_layer (Edit.SetVid vid) (first (has_field (Edit.SetVid vid)) (tag_layers tags.now)) None frame.old }
{
    match tags {
        Tags::None => {}
        Tags::One(tag) => edit_tag(frame, tag, vid),
        Tags::Two(tag, _) => edit_tag(frame, tag, vid),
    }
}

/// Edits the headers of a frame.
#[tactic(auto, unfolding(crate::specs::Frame::edit_bytes))]
fn edit_stack(frame: &mut [u8], stack: &Stack, edit: Edit)
    requires within { LieWithin 0 (length frame.old) (stack_layers stack.now) }
    requires lawful { IsLawful edit }
    ensures { frame.new ≡ edit_bytes edit (stack_layers stack.now) frame.old }
{
    match edit {
        Edit::MacSrc(_) | Edit::MacDst(_) => edit_eth(frame, &stack.eth, edit),
        Edit::SetVid(vid) => edit_tags(frame, &stack.tags, vid),
        Edit::PortSrc(_) | Edit::PortDst(_) => edit_transport(frame, &stack.transport, edit),
        Edit::Ipv4Src(_)
        | Edit::Ipv4Dst(_)
        | Edit::Ipv6Src(_)
        | Edit::Ipv6Dst(_)
        | Edit::DecTtl
        | Edit::SetTtl(_) => match &stack.network {
            Network::None => {}
            Network::V4(header) => edit_ipv4(frame, header, &stack.transport, edit),
            Network::V6(header) => edit_ipv6(frame, header, &stack.transport, edit),
        },
    }
}

/// Changes the bytes of a field in the first header of the needed kind that stands in front of
/// VXLAN, and the checksums that cover it, or nothing where there is no such header.
#[tactic(auto, unfolding(crate::specs::Frame::edit_bytes))]
pub fn apply_frame(frame: &mut [u8], key: &Key, edit: Edit)
    requires within { LieWithin 0 (length frame.old) key.now }
    requires lawful { IsLawful edit }
    ensures { frame.new ≡ edit_bytes edit key.now frame.old }
{
    let Some(stack) = &key.outer else {
        return;
    };
    edit_stack(frame, stack, edit);
}
