//! A packet worker in a phase.
ghost use Rattle.std.specs.Prelude.{◌≡◌, ◌≤◌, ◌<◌, ◌+◌, ◌++◌, ℕ, Option, All, OnOk, length, is_some, map};
ghost use Rattle.std.specs.List.Sorted.{IsStrictlyIncreasing};
ghost use Rattle.capture_files.specs.Record.{Frame};
ghost use Rattle.flow_calls.specs.Entries.{calls_by, numbers_by, parcels_of};
ghost use Rattle.flow_port.specs.Bursts.{Rise};
ghost use Rattle.flow_port.specs.Ports.{IsSeatAt, limits_of, mine, opening_of, seen, since, turns, whose};
ghost use Rattle.flow_port.specs.Standing.{StandsAt};
ghost use Rattle.running_phase.specs.Copies.{Finds, numbers, parcels};
ghost use Rattle.running_phase.specs.Sends.{AreKept, sent_by};
ghost use Rattle.running_phase.specs.Shares.{share_of};
ghost use Rattle.running_phase.specs.Turns.{Has, lent};

mod bursts;
mod keeping;

use crate::copies::FrameCopy;
use bursts::{Burst, gather};
use flow_calls::{Caller, Parcel};
use flow_port::{FlowPort, PortSeat};
use io_edges::Gate;
use keeping::keep_sent;
use replica::Replica;
use std::alloc::{AllocError, Global};
use std::sync::Wait;

/// The frames of a phase, in rising order of their numbers, and how many workers share them.
#[derive(Clone, Copy)]
pub(crate) struct Frames<'a> {
    pub(crate) alloc: Global,
    pub(crate) copies: &'a [FrameCopy],
    pub(crate) workers: u32,
}

/// A worker's copy of what packets see, and the frames that it sent in this phase, where they are kept.
#[derive(Drop)]
pub(crate) struct Worker {
    pub(crate) replica: Replica,
    pub(crate) kept: Option<Vec<FrameCopy>>,
}

/// Lets the worker's frames pass, in order, at most 32 in each turn.
pub(crate) fn work<R: Wait, G: Gate>(
    rt: &R,
    gate: &G,
    port: &FlowPort,
    frames: &Frames<'_>,
    seat: &mut PortSeat,
    worker: &mut Worker,
) -> Result<(), AllocError>
    requires workers { (1 ≤ frames.now.workers) × (frames.now.workers ≤ 16) }
    requires seat { IsSeatAt port.now seat.old }
    requires caller { (9 ≤ (whose seat.old).0) × ((whose seat.old).0 < 9 + frames.now.workers) }
    requires left { length frames.now.copies.now ≤ turns seat.old }
    requires rising { IsStrictlyIncreasing (numbers frames.now.copies.now) }
    requires behind { All (λ n. All (λ c. n < c.number) frames.now.copies.now) (numbers_by (whose seat.old).0 (seen seat.old)) }
    requires stands { StandsAt port.now seat.old worker.old.replica }
    ensures seat { IsSeatAt port.now seat.new }
    ensures caller { whose seat.new ≡ whose seat.old }
    ensures calls { (who : ℕ) → calls_by who (mine port.now seat.new) ≡ calls_by who (mine port.now seat.old) }
    ensures frames { OnOk result (parcels_of (mine port.now seat.new) ≡ parcels_of (mine port.now seat.old) ++ share_of frames.now.workers (whose seat.old).0 (parcels frames.now.copies.now)) }
    ensures stands { StandsAt port.now seat.new worker.new.replica }
    ensures keeps { is_some worker.new.kept ≡ is_some worker.old.kept }
    ensures kept { OnOk result ((look : ℕ → Option Frame) → Finds look frames.now.copies.now
        → AreKept (sent_by (whose seat.old).0 (limits_of port.now) look (opening_of port.now) (since port.now (seen seat.old))) worker.old.kept
        → AreKept (sent_by (whose seat.old).0 (limits_of port.now) look (opening_of port.now) (since port.now (seen seat.new))) worker.new.kept) }
{
    let caller = seat.caller();
    let mut burst = Burst::new(frames.alloc)?;
    let mut rest = frames.copies;
    while !rest.is_empty() {
        burst.clear();
        rest = gather(
            gate,
            frames.workers,
            caller,
            &worker.replica,
            rest,
            &mut burst,
        )?;
        pass(rt, gate, port, frames.alloc, seat, worker, &mut burst)?;
    }
    Ok(())
}

/// Lets a burst pass in one turn, where it has frames, and keeps those that go out.
///
/// `Err` is want of memory. The frames have passed, or none has.
fn pass<R: Wait, G: Gate>(
    rt: &R,
    gate: &G,
    port: &FlowPort,
    alloc: Global,
    seat: &mut PortSeat,
    worker: &mut Worker,
    burst: &mut Burst<'_>,
) -> Result<(), AllocError>
    requires seat { IsSeatAt port.now seat.old }
    requires caller { (9 ≤ (whose seat.old).0) × ((whose seat.old).0 ≤ 24) }
    requires count { length burst.old.parcels.items ≤ 32 }
    requires left { length burst.old.parcels.items ≤ turns seat.old }
    requires numbers { Rise (whose seat.old).0 (seen seat.old) burst.old.parcels.items }
    requires stands { StandsAt port.now seat.old worker.old.replica }
    requires has { Has worker.old.replica.flows (lent burst.old) burst.old }
    ensures seat { IsSeatAt port.now seat.new }
    ensures caller { whose seat.new ≡ whose seat.old }
    ensures turns { turns seat.old ≤ turns seat.new + length burst.old.parcels.items }
    ensures calls { (who : ℕ) → calls_by who (mine port.now seat.new) ≡ calls_by who (mine port.now seat.old) }
    ensures frames { OnOk result (parcels_of (mine port.now seat.new) ≡ parcels_of (mine port.now seat.old) ++ burst.old.parcels.items) }
    ensures numbers { OnOk result (numbers_by (whose seat.old).0 (seen seat.new) ≡ numbers_by (whose seat.old).0 (seen seat.old) ++ map (λ p. p.number) burst.old.parcels.items) }
    ensures stands { StandsAt port.now seat.new worker.new.replica }
    ensures keeps { is_some worker.new.kept ≡ is_some worker.old.kept }
    ensures kept { OnOk result ((look : ℕ → Option Frame) → Finds look (lent burst.old)
        → AreKept (sent_by (whose seat.old).0 (limits_of port.now) look (opening_of port.now) (since port.now (seen seat.old))) worker.old.kept
        → AreKept (sent_by (whose seat.old).0 (limits_of port.now) look (opening_of port.now) (since port.now (seen seat.new))) worker.new.kept) }
{
    if burst.parcels.is_empty() {
        return Ok(());
    }
    port.burst(
        rt,
        seat,
        &mut worker.replica,
        burst.parcels.as_slice(),
        &mut burst.verdicts,
    )?;
    tell_gate(gate, seat.caller(), burst.parcels.as_slice());
    keep_sent(alloc, &worker.replica, burst, &mut worker.kept)
}

/// Tells the gate of frames that were entered.
fn tell_gate<G: Gate>(gate: &G, caller: Caller, parcels: &[Parcel])
    requires { 9 ≤ caller.0 }
{
    for parcel in parcels {
        gate.after_commit(u32::from(caller.0 - 9), parcel.number);
    }
}
