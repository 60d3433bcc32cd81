//! Actors hand in what they have when all are done: their seats, the replicas, and the frames that were sent.
ghost use Rattle.std.specs.Prelude.{◌≡◌, ◌≤◌, ◌<◌, ◌+◌, ◌++◌, [], ◌∷◌, false, All, IfOk, OnOk, length};
ghost use Rattle.std.specs.List.{count_by};
ghost use Rattle.flow_port.specs.Ports.{IsListOf, limit_of, seats_in, whose};
ghost use Rattle.running_phase.specs.Actors.{AreLeft, IsDone, is_worker, list_of, replica_of};

use crate::actors::{Actor, Plan, Role};
use crate::order::SentBy;
use crate::worker::Worker;
use flow_calls::Caller;
use flow_port::{FlowPort, PortSeats};
use replica::Replica;
use std::alloc::AllocError;

fn either(one: bool, other: bool) -> bool
    ensures one { result ≡ false → one ≡ false }
    ensures other { result ≡ false → other ≡ false }
{
    one || other
}

/// Puts a worker's replica and the frames that it sent behind those of others.
fn leave(
    caller: Caller,
    role: Role,
    replicas: &mut Vec<Replica>,
    lists: &mut Vec<SentBy>,
) -> Result<(), AllocError>
    ensures replicas { OnOk result (replicas.new.items ≡ replicas.old.items ++ replica_of role) }
    ensures lists { OnOk result (lists.new.items ≡ lists.old.items ++ list_of caller role) }
{
    let Role::Passer(worker) = role else {
        return Ok(());
    };
    let Worker { replica, kept } = worker;
    replicas.push(replica)?;
    let Some(copies) = kept else {
        return Ok(());
    };
    lists.push(SentBy { caller, copies })?;
    Ok(())
}

/// Takes an actor apart, and tells whether it failed.
fn hand_in_one(
    port: &FlowPort,
    plan: &Plan<'_>,
    seats: &mut PortSeats,
    replicas: &mut Vec<Replica>,
    lists: &mut Vec<SentBy>,
    actor: Actor,
) -> Result<bool, AllocError>
    requires done { IsDone port.now plan.now actor }
    requires list { IsListOf port.now seats.old }
    requires room { length (seats_in seats.old) < limit_of seats.old }
    ensures failed { IfOk result (λ failed. failed ≡ actor.failed) }
    ensures seats { OnOk result (seats_in seats.new ≡ seats_in seats.old ++ actor.seat ∷ []) }
    ensures replicas { OnOk result (replicas.new.items ≡ replicas.old.items ++ replica_of actor.role) }
    ensures lists { OnOk result (lists.new.items ≡ lists.old.items ++ list_of (whose actor.seat) actor.role) }
    ensures list { OnOk result (IsListOf port.now seats.new) }
    ensures limit { OnOk result (limit_of seats.new ≡ limit_of seats.old) }
{
    let Actor { seat, role, failed } = actor;
    let caller = seat.caller();
    let pushed = seats.push(seat);
    let Ok(()) = pushed else { unreachable!() };
    leave(caller, role, replicas, lists)?;
    Ok(failed)
}

/// Takes all actors apart, and tells whether one failed.
pub(crate) fn hand_in(
    port: &FlowPort,
    plan: &Plan<'_>,
    seats: &mut PortSeats,
    replicas: &mut Vec<Replica>,
    lists: &mut Vec<SentBy>,
    actors: &mut Vec<Actor>,
) -> Result<bool, AllocError>
    requires done { All (IsDone port.now plan.now) actors.old.items }
    requires list { IsListOf port.now seats.old }
    requires room { length actors.old.items ≤ limit_of seats.old }
    requires none { (seats_in seats.old ≡ []) × (replicas.old.items ≡ []) × (lists.old.items ≡ []) }
    ensures left { IfOk result (λ failed. AreLeft port.now plan.now failed (seats_in seats.new) replicas.new.items lists.new.items) }
    ensures count { OnOk result (length (seats_in seats.new) ≡ length actors.old.items) }
    ensures replicas { OnOk result (length replicas.new.items ≡ count_by is_worker actors.old.items) }
{
    let mut failed = false;
    while let Some(actor) = actors.pop() {
        let here = hand_in_one(port, plan, seats, replicas, lists, actor)?;
        failed = either(failed, here);
    }
    Ok(failed)
}
