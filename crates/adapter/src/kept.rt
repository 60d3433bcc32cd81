//! How a history keeps an entry: small where it is of the usual kind.
//!
//! A history has an entry for each frame, a million of them in the largest, so its size is what these entries take. Most
//! frames have Ethernet and IPv4 without tags or VXLAN, and a way of at most two rules: such an entry is kept in place,
//! in 80 bytes. The headers of a frame with tags, with IPv6 or of another kind lie in a box of their own, the key of a
//! frame with VXLAN or with no headers in a larger one. A call lies in a box, and so does all that is known of a frame
//! with a longer way.
//!
//! How a frame is kept follows from the frame and its verdict alone, so whoever has both can do it before its turn comes.
ghost use Rattle.std.specs.Prelude.{◌≡◌, ◌<◌, ◌^◌, ◌/◌, ◌%◌, IfOk, IfSome};
ghost use Rattle.flow_calls.specs.declared.entry.Entry.TheVariants.{Asked, Passed};
ghost use Rattle.adapter.specs.Kept.{entry_kept, entry_with, stack_key, ids_of, IsHead, IsPlain};

mod shown;
mod stock;
mod tallies;

use arrayvec::ArrayVec;
use flow_actions::{Fate, MAX_PATH, Verdict};
use flow_calls::{Call, Caller, Parcel, Reply};
use packet_headers::{Ipv4, Key, Network, Stack, Tags, Transport};
pub(crate) use shown::{show, show_line};
use std::alloc::{AllocError, Global};
pub(crate) use stock::{fill_stock, keep_in_stock};
pub(crate) use tallies::{Tally, tally_of};

/// The greatest hardware address: 48 bits.
const MAX_ADDRESS: u64 = 281_474_976_710_655;

/// A call and its reply.
#[derive(Drop)]
pub(crate) struct AskedCall {
    pub(crate) caller: Caller,
    pub(crate) call: Call,
    pub(crate) reply: Reply,
}

/// The ids of the rules on a short way.
#[derive(Clone, Copy)]
pub(crate) enum Steps {
    None,
    One(u32),
    Two(u32, u32),
}

/// What is kept of a frame beside its key: its number and length, who let it pass, and a verdict with a short way.
#[derive(Clone, Copy)]
pub(crate) struct Head {
    pub(crate) number: u32,
    pub(crate) len: u32,
    pub(crate) mark: Option<u32>,
    pub(crate) hash: Option<u32>,
    pub(crate) steps: Steps,
    pub(crate) fate: Fate,
    pub(crate) caller: Caller,
}

/// A frame with Ethernet and IPv4, without tags and VXLAN. The Ethernet header stands field by field, each address in
/// two parts, and the head in the middle, so that no padding lies between and no field is wider than 4 bytes.
#[derive(Clone, Copy)]
pub(crate) struct Plain {
    pub(crate) dst_front: u32,
    pub(crate) src_front: u32,
    pub(crate) network: Ipv4,
    pub(crate) head: Head,
    pub(crate) transport: Transport,
    pub(crate) dst_back: u16,
    pub(crate) src_back: u16,
    pub(crate) ether_type: u16,
    pub(crate) has_vlan: bool,
    pub(crate) eth_offset: u8,
}

/// A frame with a longer way.
#[derive(Drop)]
pub(crate) struct Long {
    pub(crate) caller: Caller,
    pub(crate) parcel: Parcel,
    pub(crate) verdict: Verdict,
}

/// An entry as it is kept.
#[derive(Drop)]
pub(crate) enum Kept {
    Asked(Box<AskedCall>),
    Plain(Plain),
    /// A frame without VXLAN.
    Stacked(Head, Box<Stack>),
    Keyed(Head, Box<Key>),
    Long(Box<Long>),
}

// An entry is kept for each frame of a history, and beside it the headers of a frame with tags or IPv6, or a call.
const _: () = prove!(size_of::<Kept>() <= 80);

const _: () = prove!(size_of::<Stack>() <= 104);

const _: () = prove!(size_of::<AskedCall>() <= 80);

/// A copy of a reply.
pub(crate) fn copy_of_reply(reply: &Reply) -> Result<Reply, AllocError>
    ensures { IfOk result (λ copy. copy ≡ reply.now) }
{
    reply.clone()
}

/// A call and its reply, as they are kept.
pub(crate) fn keep_call(
    alloc: Global,
    caller: Caller,
    call: &Call,
    reply: Reply,
) -> Result<Kept, AllocError>
    ensures { IfOk result (λ kept. entry_kept kept ≡ Asked caller call.now reply) }
{
    let call = call.clone()?;
    let asked = Box::new(
        alloc,
        AskedCall {
            caller,
            call,
            reply,
        },
    )?;
    Ok(Kept::Asked(asked))
}

/// A frame and its verdict, as they are kept.
pub(crate) fn keep_frame(
    alloc: Global,
    caller: Caller,
    parcel: &Parcel,
    verdict: &Verdict,
) -> Result<Kept, AllocError>
    ensures { IfOk result (λ kept. entry_kept kept ≡ Passed caller parcel.now verdict.now) }
{
    let Some(head) = head_of(caller, parcel, verdict) else {
        return keep_long(alloc, caller, parcel, verdict);
    };
    if let Some(plain) = plain_of(&head, &parcel.key) {
        return Ok(Kept::Plain(plain));
    }
    keep_boxed(alloc, &head, &parcel.key)
}

/// A frame that isn't of the usual kind.
#[inline(never)]
fn keep_boxed(alloc: Global, head: &Head, key: &Key) -> Result<Kept, AllocError>
    ensures { IfOk result (λ kept. entry_kept kept ≡ entry_with head.now key.now) }
{
    if let Some(stack) = stack_of(key) {
        let stack = Box::new(alloc, stack)?;
        return Ok(Kept::Stacked(*head, stack));
    }
    let key = Box::new(alloc, *key)?;
    Ok(Kept::Keyed(*head, key))
}

/// A frame with a longer way.
#[inline(never)]
fn keep_long(
    alloc: Global,
    caller: Caller,
    parcel: &Parcel,
    verdict: &Verdict,
) -> Result<Kept, AllocError>
    ensures { IfOk result (λ kept. entry_kept kept ≡ Passed caller parcel.now verdict.now) }
{
    let parcel = parcel.clone()?;
    let verdict = verdict.clone()?;
    let long = Box::new(
        alloc,
        Long {
            caller,
            parcel,
            verdict,
        },
    )?;
    Ok(Kept::Long(long))
}

/// A short way.
fn steps_of(path: &ArrayVec<u32, MAX_PATH>) -> Option<Steps>
    ensures { IfSome result (λ steps. ids_of steps ≡ path.now.items) }
{
    let ids = path.as_slice();
    if ids.len() == 0 {
        return Some(Steps::None);
    }
    if ids.len() == 1 {
        return Some(Steps::One(ids[0]));
    }
    if ids.len() == 2 {
        return Some(Steps::Two(ids[0], ids[1]));
    }
    None
}

/// What is kept of a frame beside its key, where its way is short.
fn head_of(caller: Caller, parcel: &Parcel, verdict: &Verdict) -> Option<Head>
    ensures { IfSome result (λ head. IsHead caller parcel.now verdict.now head) }
{
    let steps = steps_of(&verdict.path)?;
    Some(Head {
        number: parcel.number,
        len: parcel.len,
        mark: verdict.mark,
        hash: verdict.hash,
        steps,
        fate: verdict.fate,
        caller,
    })
}

/// The headers of a frame without VXLAN.
fn stack_of(key: &Key) -> Option<Stack>
    ensures { IfSome result (λ stack. stack_key stack ≡ key.now) }
{
    if key.tunnel.is_some() {
        return None;
    }
    key.outer
}

/// The first four bytes of a hardware address.
#[inline]
fn front_of(address: u64) -> u32
    requires { address < 2 ^ 48 }
    ensures { result ≡ address / 65536 }
{
    (address / 65_536) as u32
}

/// Its last two bytes.
#[inline]
fn back_of(address: u64) -> u16
    ensures { result ≡ address % 65536 }
{
    (address % 65_536) as u16
}

/// A frame with Ethernet and IPv4 alone.
fn plain_of(head: &Head, key: &Key) -> Option<Plain>
    ensures { IfSome result (λ plain. IsPlain head.now key.now plain) }
{
    if key.tunnel.is_some() {
        return None;
    }
    let Some(stack) = &key.outer else {
        return None;
    };
    let Tags::None = &stack.tags else {
        return None;
    };
    let Network::V4(network) = &stack.network else {
        return None;
    };
    if stack.eth.dst > MAX_ADDRESS || stack.eth.src > MAX_ADDRESS {
        return None;
    }
    Some(Plain {
        dst_front: front_of(stack.eth.dst),
        src_front: front_of(stack.eth.src),
        network: *network,
        head: *head,
        transport: stack.transport,
        dst_back: back_of(stack.eth.dst),
        src_back: back_of(stack.eth.src),
        ether_type: stack.eth.ether_type,
        has_vlan: stack.eth.has_vlan,
        eth_offset: stack.eth.offset,
    })
}
