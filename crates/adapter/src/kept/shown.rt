//! How a kept entry is shown: a call is lent, and a frame is made anew from what is kept.
ghost use Rattle.std.specs.Prelude.{◌≡◌, ◌+◌, ◌*◌, List};
ghost use Rattle.packet_headers.specs.declared.items.LayerAt.{LayerAt};
ghost use Rattle.adapter.specs.Seen.{entry_of};
ghost use Rattle.adapter.specs.Kept.{entry_kept, entry_with, plain_key, stack_key, verdict_in, ids_of};
ghost use Rattle.adapter.specs.KeptLine.{IsLineOf};

use super::{Head, Kept, Plain, Steps};
use crate::line::LineView;
use arrayvec::ArrayVec;
use flow_actions::{MAX_PATH, Verdict};
use flow_calls::{EntryView, Parcel};
use packet_headers::{Eth, Key, Network, Stack, Tags};

/// The entry, from what is kept of it.
pub(crate) fn show(kept: &Kept) -> EntryView<'_>
    ensures { entry_of result ≡ entry_kept kept.now }
{
    match kept {
        Kept::Asked(asked) => EntryView::Asked {
            caller: asked.caller,
            call: &asked.call,
            reply: &asked.reply,
        },
        Kept::Plain(plain) => show_frame(&plain.head, plain.key()),
        Kept::Stacked(head, stack) => show_frame(head, key_with(stack)),
        Kept::Keyed(head, key) => show_frame(head, **key),
        Kept::Long(long) => EntryView::Passed {
            caller: long.caller,
            parcel: same_parcel(&long.parcel),
            verdict: same_verdict(&long.verdict),
        },
    }
}

/// What a line tells of the entry.
#[inline]
pub(crate) fn show_line(kept: &Kept) -> LineView<'_>
    ensures { IsLineOf result (entry_kept kept.now) }
{
    match kept {
        Kept::Asked(asked) => LineView::Asked {
            caller: asked.caller,
            call: &asked.call,
            reply: &asked.reply,
        },
        Kept::Plain(plain) => line_of(&plain.head),
        Kept::Stacked(head, _) => line_of(head),
        Kept::Keyed(head, _) => line_of(head),
        Kept::Long(long) => LineView::Passed {
            caller: long.caller,
            number: long.parcel.number,
            verdict: same_verdict(&long.verdict),
        },
    }
}

/// What a line tells of a frame, whatever its key.
#[inline]
fn line_of<'a>(head: &Head) -> LineView<'a>
    ensures { (key : List LayerAt) → IsLineOf result (entry_with head.now key) }
{
    LineView::Passed {
        caller: head.caller,
        number: head.number,
        verdict: head.verdict(),
    }
}

/// The entry of a frame of this key.
fn show_frame<'a>(head: &Head, key: Key) -> EntryView<'a>
    ensures { entry_of result ≡ entry_with head.now key }
{
    EntryView::Passed {
        caller: head.caller,
        parcel: head.parcel(key),
        verdict: head.verdict(),
    }
}

/// A hardware address of two parts.
fn address_of(front: u32, back: u16) -> u64
    ensures { result ≡ front * 65536 + back }
{
    u64::from(front) * 65_536 + u64::from(back)
}

/// The key of a frame without VXLAN.
fn key_with(stack: &Stack) -> Key
    ensures { result ≡ stack_key stack.now }
{
    Key {
        outer: Some(*stack),
        tunnel: None,
    }
}

/// The ids of a short way as a list.
pub(super) fn path_of(steps: Steps) -> ArrayVec<u32, MAX_PATH>
    ensures { result.items ≡ ids_of steps }
{
    let mut path = ArrayVec::new();
    match steps {
        Steps::None => {}
        Steps::One(first) => path.push(first),
        Steps::Two(first, second) => {
            path.push(first);
            path.push(second);
        }
    }
    path
}

/// The same ids.
pub(super) fn copy_of(path: &ArrayVec<u32, MAX_PATH>) -> ArrayVec<u32, MAX_PATH>
    ensures { result.items ≡ path.now.items }
{
    let mut copy = ArrayVec::new();
    for id in path.as_slice() {
        copy.push(*id);
    }
    copy
}

/// The same frame.
pub(super) fn same_parcel(parcel: &Parcel) -> Parcel
    ensures { result ≡ parcel.now }
{
    Parcel {
        number: parcel.number,
        key: parcel.key,
        len: parcel.len,
    }
}

/// The same verdict.
pub(super) fn same_verdict(verdict: &Verdict) -> Verdict
    ensures { result ≡ verdict.now }
{
    Verdict {
        fate: verdict.fate,
        mark: verdict.mark,
        hash: verdict.hash,
        path: copy_of(&verdict.path),
    }
}

impl Head {
    /// The frame, which has this key.
    fn parcel(&self, key: Key) -> Parcel
        ensures { result ≡ record { number = self.now.number; key = key; len = self.now.len } }
    {
        Parcel {
            number: self.number,
            key,
            len: self.len,
        }
    }

    fn verdict(&self) -> Verdict
        ensures { result ≡ verdict_in self.now }
    {
        Verdict {
            fate: self.fate,
            mark: self.mark,
            hash: self.hash,
            path: path_of(self.steps),
        }
    }
}

impl Plain {
    fn key(&self) -> Key
        ensures { result ≡ plain_key self.now }
    {
        key_with(&Stack {
            eth: Eth {
                dst: address_of(self.dst_front, self.dst_back),
                src: address_of(self.src_front, self.src_back),
                ether_type: self.ether_type,
                has_vlan: self.has_vlan,
                offset: self.eth_offset,
            },
            network: Network::V4(self.network),
            tags: Tags::None,
            transport: self.transport,
        })
    }
}
