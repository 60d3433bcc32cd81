//! The copies that workers kept, in the order of the history.
ghost use Rattle.std.specs.Prelude.{◌≡◌, ◌≤◌, ◌<◌, ◌++◌, ℕ, List, None, Some, Option, true, All, Contains, IfOk, OnOk, fold, map, length, is_some, option_to_list, slice_get};
ghost use Rattle.std.specs.Option.{option_map};
ghost use Rattle.capture_files.specs.Record.{Frame};
ghost use Rattle.flow_calls.specs.declared.entry.Entry.{Entry};
ghost use Rattle.flow_calls.specs.Entries.{parcels_of, passers_of};
ghost use Rattle.adapter.specs.KeptLine.{IsLineOf};
ghost use Rattle.running_phase.specs.Copies.{record_of};
ghost use Rattle.running_phase.specs.Sends.{all_sent, sent_by};
ghost use Rattle.running_phase.specs.Orders.{held, last_by, last_found, sender_of, shortened, shortened_by, found_by};

use crate::copies::FrameCopy;
use adapter::{Adapter, LineView};
use flow_actions::Fate;
use flow_calls::Caller;
use std::alloc::{AllocError, Global};

/// The frames that a worker sent in a phase, in order.
#[derive(Drop)]
pub(crate) struct SentBy {
    pub(crate) caller: Caller,
    pub(crate) copies: Vec<FrameCopy>,
}

/// All workers' copies of a phase in the order of the history, whose entries from `from` on are the phase's.
///
/// `Err` is want of memory.
pub(crate) fn in_order(
    alloc: Global,
    adapter: &Adapter,
    from: u64,
    mut lists: Vec<SentBy>,
) -> Result<Vec<FrameCopy>, AllocError>
    ensures { IfOk result (λ sent. (look : ℕ → Option Frame) → (before middle : List Entry) → adapter.now.history ≡ before ++ middle → from ≡ length before
        → All (Contains (map (λ l. l.caller.0) lists.items)) (passers_of middle)
        → All (λ p. is_some (look p.number) ≡ true) (parcels_of middle)
        → All (λ l. map record_of l.copies.items ≡ sent_by l.caller.0 adapter.now.limits look before middle) lists.items
        → map record_of sent.items ≡ all_sent adapter.now.limits look before middle) }
{
    let mut sent = Vec::new(alloc);
    let mut place = adapter.entries();
    while place > from {
        place -= 1;
        take_back(adapter, place, &mut lists, &mut sent)?;
    }
    sent.reverse();
    Ok(sent)
}

/// Moves the copy of the frame that passed at a place, where it went out: it is the last one of its worker's list.
fn take_back(
    adapter: &Adapter,
    place: u64,
    lists: &mut Vec<SentBy>,
    sent: &mut Vec<FrameCopy>,
) -> Result<(), AllocError>
    requires { place < length adapter.now.history }
    ensures lists { OnOk result ((entry : Entry) → slice_get adapter.now.history place ≡ Some entry
        → map held lists.new.items ≡ shortened (sender_of entry) (map held lists.old.items)) }
    ensures sent { OnOk result ((entry : Entry) → slice_get adapter.now.history place ≡ Some entry
        → map record_of sent.new.items ≡ map record_of sent.old.items ++ option_to_list (last_found (sender_of entry) (map held lists.old.items))) }
{
    let Some(caller) = sender(&adapter.line(place)) else {
        return Ok(());
    };
    let Some(copy) = take_last(lists, caller) else {
        return Ok(());
    };
    sent.push(copy)?;
    Ok(())
}

/// Who let a frame pass that went out.
fn sender(line: &LineView<'_>) -> Option<Caller>
    ensures { (entry : Entry) → IsLineOf line.now entry → result ≡ sender_of entry }
{
    match line {
        LineView::Asked { .. } => None,
        LineView::Passed {
            caller,
            verdict,
            ..
        } => match verdict.fate {
            Fate::Drop => None,
            Fate::Queue(_) => Some(*caller),
        },
    }
}

/// Takes the last copy of each list of a caller, and answers the last of them.
fn take_last(lists: &mut Vec<SentBy>, caller: Caller) -> Option<FrameCopy>
    ensures left { map held lists.new.items ≡ map (shortened_by caller.0) (map held lists.old.items) }
    ensures last { option_map record_of result ≡ fold (last_by caller.0) None (map held lists.old.items) }
{
    let mut last = None;
    for list in lists.iter_mut() {
        last = take_from(list, caller).or(last);
    }
    last
}

/// Takes the last copy of a list, where it is that caller's.
fn take_from(list: &mut SentBy, caller: Caller) -> Option<FrameCopy>
    ensures left { held list.new ≡ shortened_by caller.0 (held list.old) }
    ensures last { option_map record_of result ≡ found_by caller.0 (held list.old) }
{
    if caller != list.caller {
        return None;
    }
    list.copies.pop()
}
