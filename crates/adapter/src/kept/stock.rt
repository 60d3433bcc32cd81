//! Boxes that were taken ahead, so that a frame of any kind can be kept without memory.
ghost use Rattle.std.specs.Prelude.{◌≡◌, ◌+◌, ◌≤◌, length, IfSome, OnOk};
ghost use Rattle.flow_calls.specs.declared.entry.Entry.TheVariants.{Passed};
ghost use Rattle.adapter.specs.Kept.{entry_kept, entry_with, plain_key};

use super::shown::{same_parcel, same_verdict};
use super::{Kept, Long, Plain, head_of, plain_of};
use arrayvec::ArrayVec;
use flow_actions::{Fate, Verdict};
use flow_calls::{Caller, Parcel};
use packet_headers::Key;
use std::alloc::{AllocError, Global};

/// Fills a stock up to so many boxes.
pub(crate) fn fill_stock(
    alloc: Global,
    stock: &mut Vec<Box<Long>>,
    boxes: u64,
) -> Result<(), AllocError>
    ensures kept { length stock.old.items ≤ length stock.new.items }
    ensures ok { OnOk result (boxes ≤ length stock.new.items) }
{
    for _ in stock.len()..boxes as usize {
        let long = Box::new(alloc, blank())?;
        stock.push(long)?;
    }
    Ok(())
}

/// What lies in a box that isn't used yet.
fn blank() -> Long {
    Long {
        caller: Caller(0),
        parcel: Parcel {
            number: 0,
            key: Key {
                outer: None,
                tunnel: None,
            },
            len: 0,
        },
        verdict: Verdict {
            fate: Fate::Drop,
            mark: None,
            hash: None,
            path: ArrayVec::new(),
        },
    }
}

/// A frame and its verdict, as they are kept. Where it isn't of the usual kind, it takes a box of the stock.
pub(crate) fn keep_in_stock(
    stock: &mut Vec<Box<Long>>,
    caller: Caller,
    parcel: &Parcel,
    verdict: &Verdict,
) -> Kept
    requires { 1 ≤ length stock.old.items }
    ensures entry { entry_kept result ≡ Passed caller parcel.now verdict.now }
    ensures stock { length stock.old.items ≤ length stock.new.items + 1 }
{
    if let Some(plain) = usual_of(caller, parcel, verdict) {
        return Kept::Plain(plain);
    }
    let mut long = stock.pop().unwrap();
    *long = Long {
        caller,
        parcel: same_parcel(parcel),
        verdict: same_verdict(verdict),
    };
    Kept::Long(long)
}

/// A frame of the usual kind.
fn usual_of(caller: Caller, parcel: &Parcel, verdict: &Verdict) -> Option<Plain>
    ensures { IfSome result (λ plain. entry_with plain.head (plain_key plain) ≡ Passed caller parcel.now verdict.now) }
{
    let head = head_of(caller, parcel, verdict)?;
    plain_of(&head, &parcel.key)
}
