//! One turn at the port's book.
ghost use Rattle.std.specs.Prelude.{◌≡◌, ◌+◌, ◌<◌, ◌≤◌, ◌++◌, List, [], length, IfOk, OnOk, OnErr};
ghost use Rattle.turn_book.specs.Views.{BeginsWith};
ghost use Rattle.turn_book.specs.Books.{IsSeatOf, mine, opened, seen};
ghost use Rattle.flow_calls.specs.declared.entry.Entry.{Entry};
ghost use Rattle.adapter.specs.History.{IsLegal};
ghost use Rattle.flow_port.specs.Bursts.{passed_all, verdicts_by};
ghost use Rattle.flow_port.specs.Calls.{entry_left};
ghost use Rattle.flow_port.specs.Holding.{fixed_in, history_in, owner_by};
ghost use Rattle.flow_port.specs.Owners.{place_of};
ghost use Rattle.flow_port.specs.Ports.{Grew};
ghost use Rattle.flow_port.specs.Standing.{IsCurrent, Stands};

use crate::frames::Frames;
use crate::held::Held;
use adapter::Packed;
use arrayvec::ArrayVec;
use flow_actions::Verdict;
use flow_calls::{Call, Caller, Reply};
use replica::Replica;
use std::alloc::AllocError;
use std::sync::Wait;
use turn_book::{Book, Seat};

/// A turn that asks one call.
pub(crate) fn ask_in_turn<R: Wait>(
    rt: &R,
    book: &Book<Held>,
    seat: &mut Seat<Held>,
    caller: Caller,
    call: &Call,
) -> Result<Reply, AllocError>
    requires seat { IsSeatOf history_in fixed_in book.now seat.old }
    requires left { 0 < seat.old.left }
    requires place { place_of caller.0 (opened book.now).callers.items ≡ seat.old.number }
    requires caller { caller.0 ≤ 8 }
    ensures seat { IsSeatOf history_in fixed_in book.now seat.new }
    ensures same { (seat.new.number ≡ seat.old.number) × (seat.new.left + 1 ≡ seat.old.left) }
    ensures legal { IsLegal (opened book.now).adapter.limits (seen seat.new) }
    ensures grew { Grew (seen seat.old) (seen seat.new) (entry_left caller call.now result) }
    ensures mine { mine history_in fixed_in owner_by book.now seat.new ≡ mine history_in fixed_in owner_by book.now seat.old ++ entry_left caller call.now result }
{
    let mut turn = book.turn(rt, seat);
    let reply = turn.value().ask(caller, call);
    turn.done();
    reply
}

/// A turn in which frames pass.
pub(crate) fn pass_in_turn<R: Wait>(
    rt: &R,
    book: &Book<Held>,
    seat: &mut Seat<Held>,
    frames: &Frames<'_>,
    replica: &mut Replica,
    verdicts: &mut ArrayVec<Verdict, 32>,
    packed: Result<Vec<Packed>, AllocError>,
) -> Result<(), AllocError>
    requires seat { IsSeatOf history_in fixed_in book.now seat.old }
    requires left { 0 < seat.old.left }
    requires place { place_of frames.now.caller.0 (opened book.now).callers.items ≡ seat.old.number }
    requires worker { (9 ≤ frames.now.caller.0) × (frames.now.caller.0 ≤ 24) }
    requires stands { (front : List Entry) × BeginsWith (seen seat.old) front × Stands (opened book.now).adapter.limits front replica.old }
    requires count { length frames.now.parcels.now ≤ 32 }
    requires verdicts { verdicts.old.items ≡ verdicts_by replica.old.flows frames.now.parcels.now }
    requires packed { IfOk packed (λ ready. ready.items ≡ passed_all frames.now.caller frames.now.parcels.now verdicts.old.items) }
    ensures seat { IsSeatOf history_in fixed_in book.now seat.new }
    ensures same { (seat.new.number ≡ seat.old.number) × (seat.new.left + 1 ≡ seat.old.left) }
    ensures legal { IsLegal (opened book.now).adapter.limits (seen seat.new) }
    ensures grew { Grew (seen seat.old) (seen seat.new) (passed_all frames.now.caller frames.now.parcels.now verdicts.new.items) }
    ensures mine { mine history_in fixed_in owner_by book.now seat.new ≡ mine history_in fixed_in owner_by book.now seat.old ++ passed_all frames.now.caller frames.now.parcels.now verdicts.new.items }
    ensures count { OnOk result (length verdicts.new.items ≡ length frames.now.parcels.now) }
    ensures none { OnErr result (verdicts.new.items ≡ []) }
    ensures stands { Stands (opened book.now).adapter.limits (seen seat.new) replica.new }
    ensures current { OnOk result (IsCurrent (opened book.now).adapter.limits (seen seat.new) replica.new) }
{
    let mut turn = book.turn(rt, seat);
    let passed = turn.value().pass(frames, replica, verdicts, packed);
    turn.done();
    passed
}
