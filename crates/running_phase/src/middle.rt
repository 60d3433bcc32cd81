//! A phase's middle on threads: a port is made, its callers work, and it is closed.
ghost use Rattle.std.specs.Prelude.{◌≡◌, ◌≤◌, ◌<◌, ◌^◌, ◌+◌, ◌++◌, ℕ, List, [], Option, true, All, IfOk, OnOk, length, map, is_some};
ghost use Rattle.std.specs.List.{count_by};
ghost use Rattle.std.specs.List.Sorted.{IsStrictlyIncreasing};
ghost use Rattle.capture_files.specs.Record.{Frame};
ghost use Rattle.flow_calls.specs.declared.call.Call.{Call};
ghost use Rattle.flow_calls.specs.declared.caller.Caller.{Caller};
ghost use Rattle.flow_calls.specs.declared.entry.Entry.{Entry};
ghost use Rattle.flow_calls.specs.Entries.{numbers_by};
ghost use Rattle.adapter.specs.History.{IsLegal};
ghost use Rattle.flow_grammar.specs.declared.part.Part.TheVariants as parts;
ghost use Rattle.flow_port.specs.Ports.{IsFreshAt, IsListOf, callers_of, limit_of, limits_of, opening_of, seats_in, whose};
ghost use Rattle.flow_port.specs.Standing.{Stands};
ghost use Rattle.whole_history.specs.Whole.{IsMiddle};
ghost use Rattle.running_phase.specs.Actors.{HasLists, IsDone, IsPlan, IsReady, is_worker};
ghost use Rattle.running_phase.specs.Copies.{Finds, numbers, parcels};
ghost use Rattle.running_phase.specs.Roster.{roster, workers_from};
ghost use Rattle.running_phase.specs.Sends.{AreKept, all_sent};

use crate::actors::{Actor, Crew, Plan, act_beside};
use crate::copies::FrameCopy;
use crate::handing::hand_in;
use crate::order::{SentBy, in_order};
use crate::roster::callers_of;
use crate::seating::seat_all;
use adapter::Adapter;
use flow_calls::Call;
use flow_grammar::CallList;
use flow_port::{FlowPort, PortSeats};
use io_edges::Gate;
use replica::Replica;
use std::alloc::{AllocError, Global};
use std::sync::Wait;
use std::thread::Threads;

/// What a phase has between its opening and its closing.
#[derive(Clone, Copy)]
pub struct Phase<'a> {
    /// The shell's calls.
    pub shell: &'a [Call],
    /// The calls of the agents of the flow queues 0 to 7.
    pub agents: &'a [CallList; 8],
    /// The frames that it takes, in rising order of their numbers.
    pub frames: &'a [FrameCopy],
    /// Whether frames that go out are kept.
    pub keeps: bool,
}

/// What a phase's middle leaves.
#[derive(Drop)]
pub struct Middle {
    pub adapter: Adapter,
    /// The frames that went out, as the rules edited them, in the order of the history, where they are kept.
    pub sent: Option<Vec<FrameCopy>>,
}

/// The work of all actors, and behind it the actors, the lead last.
fn act_together<R: Threads + Wait + Sync, G: Gate + Sync>(
    rt: &R,
    gate: &G,
    port: &FlowPort,
    plan: &Plan<'_>,
    crew: Crew,
) -> Result<Vec<Actor>, AllocError>
    requires lead { IsReady port.now plan.now crew.lead × (is_worker crew.lead ≡ true) }
    requires others { All (IsReady port.now plan.now) crew.others.items }
    requires plan { IsPlan port.now plan.now }
    ensures done { IfOk result (λ actors. All (IsDone port.now plan.now) actors.items) }
    ensures count { IfOk result (λ actors. length actors.items ≡ length crew.others.items + 1) }
    ensures workers { IfOk result (λ actors. count_by is_worker actors.items ≡ count_by is_worker crew.others.items + 1) }
{
    let Crew { lead, others } = crew;
    let mut lead = lead;
    let mut actors = others;
    act_beside(rt, gate, port, plan, &mut lead, actors.as_mut_slice());
    actors.push(lead)?;
    Ok(actors)
}

/// The frames that went out, where they are kept.
fn sent_in_order(
    plan: &Plan<'_>,
    adapter: &Adapter,
    from: u64,
    lists: Vec<SentBy>,
) -> Result<Option<Vec<FrameCopy>>, AllocError>
    ensures keeps { IfOk result (λ sent. is_some sent ≡ plan.now.phase.keeps) }
    ensures sent { IfOk result (λ sent. (look : ℕ → Option Frame) → (before middle : List Entry) → adapter.now.history ≡ before ++ middle → from ≡ length before
        → (plan.now.phase.keeps ≡ true → HasLists adapter.now.limits look before middle lists.items)
        → AreKept (all_sent adapter.now.limits look before middle) sent) }
{
    let keeps = plan.phase.keeps;
    if keeps {
        let sent = in_order(plan.alloc, adapter, from, lists)?;
        return Ok(Some(sent));
    }
    Ok(None)
}

/// Closes the port behind the actors' work.
fn finish(
    port: FlowPort,
    plan: &Plan<'_>,
    seats: PortSeats,
    actors: Vec<Actor>,
    replicas: &mut Vec<Replica>,
    from: u64,
) -> Result<Middle, AllocError>
    requires done { All (IsDone port plan.now) actors.items }
    requires count { (1 ≤ length actors.items) × (length actors.items ≡ length (callers_of port)) }
    requires workers { count_by is_worker actors.items ≡ plan.now.workers }
    requires list { IsListOf port seats × (limit_of seats ≡ length (callers_of port)) }
    requires none { (seats_in seats ≡ []) × (replicas.old.items ≡ []) }
    requires callers { callers_of port ≡ roster plan.now.phase.agents.now plan.now.workers }
    requires from { from ≡ length (opening_of port) }
    requires plan { IsPlan port plan.now }
    ensures limits { IfOk result (λ made. made.adapter.limits ≡ limits_of port) }
    ensures legal { IfOk result (λ made. IsLegal made.adapter.limits made.adapter.history) }
    ensures middle { IfOk result (λ made. (middle : List Entry) × (made.adapter.history ≡ opening_of port ++ middle)
        × ((opening closing : Call) → (count : Option ℕ) → IsMiddle plan.now.workers
        (parts.Phase opening count plan.now.phase.shell.now plan.now.phase.agents.now closing) (parcels plan.now.phase.frames.now) middle)) }
    ensures stands { IfOk result (λ made. All (λ r. Stands made.adapter.limits made.adapter.history r) replicas.new.items) }
    ensures count { OnOk result (length replicas.new.items ≡ plan.now.workers) }
    ensures keeps { IfOk result (λ made. is_some made.sent ≡ plan.now.phase.keeps) }
    ensures sent { IfOk result (λ made. (look : ℕ → Option Frame) → Finds look plan.now.phase.frames.now
        → (middle : List Entry) → made.adapter.history ≡ opening_of port ++ middle
        → AreKept (all_sent (limits_of port) look (opening_of port) middle) made.sent) }
{
    let mut seats = seats;
    let mut actors = actors;
    let mut lists = Vec::new(plan.alloc);
    let failed = hand_in(&port, plan, &mut seats, replicas, &mut lists, &mut actors)?;
    let adapter = port.close(seats);
    if failed {
        return Err(AllocError);
    }
    let sent = sent_in_order(plan, &adapter, from, lists)?;
    Ok(Middle { adapter, sent })
}

/// The work of all who have a seat at the port, and its close.
fn run_seated<R: Threads + Wait + Sync, G: Gate + Sync>(
    rt: &R,
    gate: &G,
    port: FlowPort,
    plan: &Plan<'_>,
    seats: PortSeats,
    replicas: &mut Vec<Replica>,
    from: u64,
) -> Result<Middle, AllocError>
    requires plan { IsPlan port plan.now }
    requires fresh { All (IsFreshAt port) (seats_in seats) }
    requires seated { (askers : List Caller) × (map whose (seats_in seats) ≡ askers ++ workers_from 9 (length replicas.old.items)) × All (λ c. c.0 ≤ 8) askers }
    requires workers { length replicas.old.items ≡ plan.now.workers }
    requires stands { All (λ r. Stands (limits_of port) (opening_of port) r) replicas.old.items }
    requires list { IsListOf port seats × (limit_of seats ≡ length (callers_of port)) }
    requires count { length (seats_in seats) ≡ length (callers_of port) }
    requires callers { callers_of port ≡ roster plan.now.phase.agents.now plan.now.workers }
    requires from { from ≡ length (opening_of port) }
    ensures limits { IfOk result (λ made. made.adapter.limits ≡ limits_of port) }
    ensures legal { IfOk result (λ made. IsLegal made.adapter.limits made.adapter.history) }
    ensures middle { IfOk result (λ made. (middle : List Entry) × (made.adapter.history ≡ opening_of port ++ middle)
        × ((opening closing : Call) → (count : Option ℕ) → IsMiddle plan.now.workers
        (parts.Phase opening count plan.now.phase.shell.now plan.now.phase.agents.now closing) (parcels plan.now.phase.frames.now) middle)) }
    ensures stands { IfOk result (λ made. All (λ r. Stands made.adapter.limits made.adapter.history r) replicas.new.items) }
    ensures count { OnOk result (length replicas.new.items ≡ plan.now.workers) }
    ensures keeps { IfOk result (λ made. is_some made.sent ≡ plan.now.phase.keeps) }
    ensures sent { IfOk result (λ made. (look : ℕ → Option Frame) → Finds look plan.now.phase.frames.now
        → (middle : List Entry) → made.adapter.history ≡ opening_of port ++ middle
        → AreKept (all_sent (limits_of port) look (opening_of port) middle) made.sent) }
{
    let mut seats = seats;
    let crew = seat_all(&port, plan, &mut seats, replicas)?;
    let actors = act_together(rt, gate, &port, plan, crew)?;
    finish(port, plan, seats, actors, replicas, from)
}

/// Runs a phase's middle: the shell, the agents that have calls and a worker for each replica, each on a thread of its own where
/// there are threads. Worker 0 is the lead and stays on the caller's thread.
///
/// `Err` is want of memory, of any of them.
pub fn run_middle<R: Threads + Wait + Sync, G: Gate + Sync>(
    rt: &R,
    gate: &G,
    alloc: Global,
    adapter: Adapter,
    replicas: &mut Vec<Replica>,
    phase: &Phase<'_>,
) -> Result<Middle, AllocError>
    requires workers { (1 ≤ length replicas.old.items) × (length replicas.old.items ≤ 16) }
    requires stands { All (λ r. Stands adapter.limits adapter.history r) replicas.old.items }
    requires few { (length phase.now.shell.now ≤ 2 ^ 32) × All (λ calls. length calls ≤ 2 ^ 32) phase.now.agents.now × (length phase.now.frames.now ≤ 2 ^ 32) }
    requires rising { IsStrictlyIncreasing (numbers phase.now.frames.now) }
    requires behind { (who : ℕ) → All (λ n. All (λ c. n < c.number) phase.now.frames.now) (numbers_by who adapter.history) }
    ensures limits { IfOk result (λ made. made.adapter.limits ≡ adapter.limits) }
    ensures legal { IfOk result (λ made. IsLegal made.adapter.limits made.adapter.history) }
    ensures middle { IfOk result (λ made. (middle : List Entry) × (made.adapter.history ≡ adapter.history ++ middle)
        × ((opening closing : Call) → (count : Option ℕ) → IsMiddle (length replicas.old.items)
        (parts.Phase opening count phase.now.shell.now phase.now.agents.now closing) (parcels phase.now.frames.now) middle)) }
    ensures stands { IfOk result (λ made. All (λ r. Stands made.adapter.limits made.adapter.history r) replicas.new.items) }
    ensures count { OnOk result (length replicas.new.items ≡ length replicas.old.items) }
    ensures keeps { IfOk result (λ made. is_some made.sent ≡ phase.now.keeps) }
    ensures sent { IfOk result (λ made. (look : ℕ → Option Frame) → Finds look phase.now.frames.now
        → (middle : List Entry) → made.adapter.history ≡ adapter.history ++ middle
        → AreKept (all_sent adapter.limits look adapter.history middle) made.sent) }
{
    let plan = Plan {
        alloc,
        phase: *phase,
        workers: replicas.len() as u32,
    };
    let from = adapter.entries();
    let callers = callers_of(phase.agents, plan.workers);
    let Ok((port, seats)) = FlowPort::new(alloc, adapter, callers.as_slice()) else {
        return Err(AllocError);
    };
    run_seated(rt, gate, port, &plan, seats, replicas, from)
}
