//! The frames that a worker lets pass in one turn.
ghost use Rattle.std.specs.Prelude.{◌≡◌, ◌≤◌, ◌<◌, ◌+◌, ◌++◌, [], ◌∷◌, List, IfOk, OnOk, length};
ghost use Rattle.running_phase.specs.declared.copies.FrameCopy.{FrameCopy};
ghost use Rattle.running_phase.specs.Turns.{Has, Took, taken_by};

use crate::copies::FrameCopy;
use crate::shares::taker;
use arrayvec::ArrayVec;
use flow_actions::Verdict;
use flow_calls::{Caller, Parcel};
use io_edges::Gate;
use packet_headers::parse;
use replica::Replica;
use std::alloc::{AllocError, Global};

/// The most frames of one turn.
const MAX_BURST: usize = 32;

/// Frames of one worker, in rising order of their numbers.
#[derive(Drop)]
pub(super) struct Burst<'a> {
    pub(super) frames: Vec<&'a FrameCopy>,
    /// What the history is to keep of each.
    pub(super) parcels: Vec<Parcel>,
    /// The verdict on each.
    pub(super) verdicts: ArrayVec<Verdict, 32>,
}

impl<'a> Burst<'a> {
    /// No frames, and room for a turn's.
    pub(super) fn new(alloc: Global) -> Result<Burst<'a>, AllocError> {
        Ok(Burst {
            frames: Vec::with_capacity(alloc, MAX_BURST)?,
            parcels: Vec::with_capacity(alloc, MAX_BURST)?,
            verdicts: ArrayVec::new(),
        })
    }

    /// Lets its frames go, and keeps the room.
    pub(super) fn clear(&mut self)
        ensures frames { self.new.frames.items ≡ [] }
        ensures parcels { self.new.parcels.items ≡ [] }
        ensures verdicts { self.new.verdicts.items ≡ [] }
    {
        self.frames.clear();
        self.parcels.clear();
        self.verdicts.clear();
    }
}

/// Takes a worker's next frames out of `rest`, at most `MAX_BURST`, and classifies each. The frames behind them come back.
pub(super) fn gather<'a, G: Gate>(
    gate: &G,
    workers: u32,
    caller: Caller,
    replica: &Replica,
    rest: &'a [FrameCopy],
    burst: &mut Burst<'a>,
) -> Result<&'a [FrameCopy], AllocError>
    requires workers { (1 ≤ workers) × (workers ≤ 16) }
    requires caller { 9 ≤ caller.0 }
    requires none { Has replica.now.flows [] burst.old }
    ensures took { IfOk result (λ left. Took workers caller.0 replica.now.flows rest.now left.now burst.new) }
    ensures count { OnOk result (length burst.new.parcels.items ≤ 32) }
    ensures few { IfOk result (λ left. length burst.new.parcels.items + length left.now ≤ length rest.now) }
    ensures fewer { IfOk result (λ left. 0 < length rest.now → length left.now < length rest.now) }
{
    let mut left = rest;
    while burst.parcels.len() < MAX_BURST {
        let Some((frame, behind)) = left.split_first() else {
            return Ok(left);
        };
        offer(gate, workers, caller, replica, frame, burst)?;
        left = behind;
    }
    Ok(left)
}

/// Takes a frame, where it is the worker's.
fn offer<'a, G: Gate>(
    gate: &G,
    workers: u32,
    caller: Caller,
    replica: &Replica,
    frame: &'a FrameCopy,
    burst: &mut Burst<'a>,
) -> Result<(), AllocError>
    requires workers { (1 ≤ workers) × (workers ≤ 16) }
    requires caller { 9 ≤ caller.0 }
    requires room { length burst.old.parcels.items < 32 }
    requires has { length burst.old.verdicts.items ≡ length burst.old.parcels.items }
    ensures has { OnOk result ((copies : List FrameCopy) → Has replica.now.flows copies burst.old
        → Has replica.now.flows (copies ++ taken_by workers caller.0 (frame.now ∷ [])) burst.new) }
    ensures count { OnOk result (length burst.new.parcels.items ≤ length burst.old.parcels.items + 1) }
{
    if taker(workers, frame.number) != caller {
        return Ok(());
    }
    gate.before_classify(u32::from(caller.0 - 9), frame.number);
    take(replica, frame, burst)
}

/// Takes a frame, with the replica's verdict on it.
fn take<'a>(
    replica: &Replica,
    frame: &'a FrameCopy,
    burst: &mut Burst<'a>,
) -> Result<(), AllocError>
    requires room { length burst.old.parcels.items < 32 }
    requires has { length burst.old.verdicts.items ≡ length burst.old.parcels.items }
    ensures has { OnOk result ((copies : List FrameCopy) → Has replica.now.flows copies burst.old
        → Has replica.now.flows (copies ++ frame.now ∷ []) burst.new) }
    ensures count { OnOk result (length burst.new.parcels.items ≡ length burst.old.parcels.items + 1) }
{
    let parcel = Parcel {
        number: frame.number,
        key: parse(frame.bytes.as_slice()),
        len: frame.bytes.len() as u32,
    };
    burst.verdicts.push(replica.classify(&parcel.key));
    burst.parcels.push(parcel)?;
    burst.frames.push(frame)?;
    Ok(())
}
