//! The callers of a phase at work, each on a thread of its own where there are threads.
ghost use Rattle.std.specs.Prelude.{◌≡◌, ◌≤◌, All, OnOk};
ghost use denote.Param.Send.{IsSync};
ghost use Rattle.flow_port.specs.Ports.{IsFreshAt, IsSeatAt, whose};
ghost use Rattle.running_phase.specs.Actors.{AreOfKind, DidItsPart, HasKept, IsDone, IsDoneWorker, IsFreshWorker, IsPlan, IsReady, is_worker};

use crate::asking::{ask_all, calls_of};
use crate::middle::Phase;
use crate::worker::{Frames, Worker, work};
use flow_port::{FlowPort, PortSeat};
use io_edges::Gate;
use std::alloc::{AllocError, Global};
use std::sync::Wait;
use std::thread::{Threads, for_each_mut, join_mut};

/// What all actors of a phase know.
#[derive(Clone, Copy)]
pub(crate) struct Plan<'a> {
    pub(crate) alloc: Global,
    pub(crate) phase: Phase<'a>,
    pub(crate) workers: u32,
}

/// What an actor is.
#[derive(Drop)]
pub(crate) enum Role {
    /// The shell or an agent.
    Asker,
    /// A packet worker.
    Passer(Worker),
}

/// A caller of a phase with its seat.
#[derive(Drop)]
pub(crate) struct Actor {
    pub(crate) seat: PortSeat,
    pub(crate) role: Role,
    /// Whether it met want of memory.
    pub(crate) failed: bool,
}

/// The actors of a phase.
#[derive(Drop)]
pub(crate) struct Crew {
    /// Worker 0.
    pub(crate) lead: Actor,
    pub(crate) others: Vec<Actor>,
}

/// What the shell or an agent has to do.
fn ask<R: Wait>(
    rt: &R,
    port: &FlowPort,
    plan: &Plan<'_>,
    seat: &mut PortSeat,
) -> Result<(), AllocError>
    requires seat { IsFreshAt port.now seat.old }
    requires asker { (whose seat.old).0 ≤ 8 }
    requires plan { IsPlan port.now plan.now }
    ensures seat { IsSeatAt port.now seat.new }
    ensures caller { whose seat.new ≡ whose seat.old }
    ensures did { OnOk result (DidItsPart port.now plan.now seat.new) }
{
    let calls = calls_of(&plan.phase, seat.caller());
    ask_all(rt, port, seat, calls)
}

/// What a worker has to do.
fn pass<R: Wait, G: Gate>(
    rt: &R,
    gate: &G,
    port: &FlowPort,
    plan: &Plan<'_>,
    seat: &mut PortSeat,
    worker: &mut Worker,
) -> Result<(), AllocError>
    requires seat { IsFreshAt port.now seat.old }
    requires worker { IsFreshWorker port.now plan.now (whose seat.old).0 worker.old }
    requires plan { IsPlan port.now plan.now }
    ensures seat { IsSeatAt port.now seat.new }
    ensures caller { whose seat.new ≡ whose seat.old }
    ensures did { OnOk result (DidItsPart port.now plan.now seat.new) }
    ensures worker { IsDoneWorker port.now plan.now seat.new worker.new }
    ensures kept { OnOk result (HasKept port.now plan.now seat.new worker.new) }
{
    let frames = Frames {
        alloc: plan.alloc,
        copies: plan.phase.frames,
        workers: plan.workers,
    };
    work(rt, gate, port, &frames, seat, worker)
}

/// What an actor has to do in the phase.
fn act<R: Wait, G: Gate>(rt: &R, gate: &G, port: &FlowPort, plan: &Plan<'_>, actor: &mut Actor)
    requires ready { IsReady port.now plan.now actor.old }
    requires plan { IsPlan port.now plan.now }
    ensures done { IsDone port.now plan.now actor.new }
    ensures kind { is_worker actor.new ≡ is_worker actor.old }
{
    match &mut actor.role {
        Role::Asker => {
            let asked = ask(rt, port, plan, &mut actor.seat);
            actor.failed = asked.is_err();
        }
        Role::Passer(worker) => {
            let passed = pass(rt, gate, port, plan, &mut actor.seat, worker);
            actor.failed = passed.is_err();
        }
    }
}

/// The work of some actors, each on a thread of its own.
fn act_all<R: Threads + Wait + Sync, G: Gate + Sync>(
    rt: &R,
    gate: &G,
    port: &FlowPort,
    plan: &Plan<'_>,
    actors: &mut [Actor],
)
    requires ready { All (IsReady port.now plan.now) actors.old }
    requires plan { IsPlan port.now plan.now }
    ensures done { All (IsDone port.now plan.now) actors.new }
    ensures kinds { AreOfKind actors.old actors.new }
{
    let threads = actors.len().max(1);
    for_each_mut(
        rt,
        actors,
        threads,
        &|_, actor: &mut Actor|
            requires { IsReady port.now plan.now actor.now × IsPlan port.now plan.now }
            ensures { IsDone port.entry.now plan.entry.now actor.exit.now × (is_worker actor.exit.now ≡ is_worker actor.entry.now) }
        { act(rt, gate, port, plan, actor) },
    );
}

/// The work of all actors: that of the lead on this thread, beside the others.
pub(crate) fn act_beside<R: Threads + Wait + Sync, G: Gate + Sync>(
    rt: &R,
    gate: &G,
    port: &FlowPort,
    plan: &Plan<'_>,
    lead: &mut Actor,
    others: &mut [Actor],
)
    requires lead { IsReady port.now plan.now lead.old }
    requires others { All (IsReady port.now plan.now) others.old }
    requires plan { IsPlan port.now plan.now }
    ensures lead { IsDone port.now plan.now lead.new × (is_worker lead.new ≡ is_worker lead.old) }
    ensures others { All (IsDone port.now plan.now) others.new }
    ensures kinds { AreOfKind others.old others.new }
{
    join_mut(
        rt,
        &mut ||
            requires { IsSync R.row × IsSync G.row × All (IsReady port.now plan.now) others.now × IsPlan port.now plan.now }
            ensures { All (IsDone port.entry.now plan.entry.now) others.exit.now × AreOfKind others.entry.now others.exit.now }
        { act_all(rt, gate, port, plan, others) },
        &mut || act(rt, gate, port, plan, lead),
    );
}
