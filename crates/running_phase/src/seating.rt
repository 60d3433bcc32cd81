//! Seats become actors: each worker's with a replica of its own.
ghost use Rattle.std.specs.Prelude.{◌≡◌, ◌≤◌, ◌+◌, ◌++◌, List, [], true, All, IfOk, IfSome, OnOk, map, length, is_some};
ghost use Rattle.std.specs.List.{count_by};
ghost use Rattle.flow_calls.specs.declared.caller.Caller.{Caller};
ghost use Rattle.flow_port.specs.Ports.{IsFreshAt, IsListOf, limit_of, limits_of, opening_of, seats_in, whose};
ghost use Rattle.flow_port.specs.Standing.{Stands};
ghost use Rattle.running_phase.specs.Actors.{IsReady, is_worker};
ghost use Rattle.running_phase.specs.Roster.{workers_from};

use crate::actors::{Actor, Crew, Plan, Role};
use crate::copies::FrameCopy;
use crate::worker::Worker;
use flow_port::{FlowPort, PortSeats};
use replica::Replica;
use std::alloc::AllocError;

/// Room for the frames that a worker sends, where they are kept.
fn no_copies(plan: &Plan<'_>) -> Option<Vec<FrameCopy>>
    ensures keeps { is_some result ≡ plan.now.phase.keeps }
    ensures empty { IfSome result (λ copies. copies.items ≡ []) }
{
    if plan.phase.keeps {
        return Some(Vec::new(plan.alloc));
    }
    None
}

/// An actor for each worker. Theirs are the last seats, so worker 0 comes last.
fn seat_workers(
    port: &FlowPort,
    plan: &Plan<'_>,
    seats: &mut PortSeats,
    replicas: &mut Vec<Replica>,
    actors: &mut Vec<Actor>,
) -> Result<(), AllocError>
    requires fresh { All (IsFreshAt port.now) (seats_in seats.old) }
    requires callers { (askers : List Caller) × (map whose (seats_in seats.old) ≡ askers ++ workers_from 9 (length replicas.old.items)) × All (λ c. c.0 ≤ 8) askers }
    requires workers { length replicas.old.items ≡ plan.now.workers }
    requires stands { All (λ r. Stands (limits_of port.now) (opening_of port.now) r) replicas.old.items }
    requires list { IsListOf port.now seats.old }
    requires none { actors.old.items ≡ [] }
    ensures ready { OnOk result (All (IsReady port.now plan.now) actors.new.items) }
    ensures count { OnOk result (length actors.new.items ≡ plan.now.workers) }
    ensures workers { OnOk result (All (λ a. is_worker a ≡ true) actors.new.items) }
    ensures replicas { OnOk result (replicas.new.items ≡ []) }
    ensures fresh { OnOk result (All (IsFreshAt port.now) (seats_in seats.new)) }
    ensures askers { OnOk result (All (λ s. (whose s).0 ≤ 8) (seats_in seats.new)) }
    ensures seats { OnOk result (length (seats_in seats.new) + plan.now.workers ≡ length (seats_in seats.old)) }
    ensures list { OnOk result (IsListOf port.now seats.new) }
    ensures limit { OnOk result (limit_of seats.new ≡ limit_of seats.old) }
{
    while let Some(replica) = replicas.pop() {
        let Some(seat) = seats.pop() else {
            unreachable!()
        };
        let kept = no_copies(plan);
        actors.push(Actor {
            seat,
            role: Role::Passer(Worker { replica, kept }),
            failed: false,
        })?;
    }
    Ok(())
}

/// An actor for each seat of the shell and the agents.
fn seat_askers(
    port: &FlowPort,
    plan: &Plan<'_>,
    seats: &mut PortSeats,
    actors: &mut Vec<Actor>,
) -> Result<(), AllocError>
    requires fresh { All (IsFreshAt port.now) (seats_in seats.old) }
    requires askers { All (λ s. (whose s).0 ≤ 8) (seats_in seats.old) }
    requires list { IsListOf port.now seats.old }
    requires ready { All (IsReady port.now plan.now) actors.old.items }
    ensures ready { OnOk result (All (IsReady port.now plan.now) actors.new.items) }
    ensures count { OnOk result (length actors.new.items ≡ length actors.old.items + length (seats_in seats.old)) }
    ensures workers { OnOk result (count_by is_worker actors.new.items ≡ count_by is_worker actors.old.items) }
    ensures empty { OnOk result (seats_in seats.new ≡ []) }
    ensures list { OnOk result (IsListOf port.now seats.new) }
    ensures limit { OnOk result (limit_of seats.new ≡ limit_of seats.old) }
{
    while let Some(seat) = seats.pop() {
        actors.push(Actor {
            seat,
            role: Role::Asker,
            failed: false,
        })?;
    }
    Ok(())
}

/// An actor for each seat. The replicas go to the workers.
pub(crate) fn seat_all(
    port: &FlowPort,
    plan: &Plan<'_>,
    seats: &mut PortSeats,
    replicas: &mut Vec<Replica>,
) -> Result<Crew, AllocError>
    requires fresh { All (IsFreshAt port.now) (seats_in seats.old) }
    requires callers { (askers : List Caller) × (map whose (seats_in seats.old) ≡ askers ++ workers_from 9 (length replicas.old.items)) × All (λ c. c.0 ≤ 8) askers }
    requires workers { (length replicas.old.items ≡ plan.now.workers) × (1 ≤ plan.now.workers) }
    requires stands { All (λ r. Stands (limits_of port.now) (opening_of port.now) r) replicas.old.items }
    requires list { IsListOf port.now seats.old }
    ensures lead { IfOk result (λ crew. IsReady port.now plan.now crew.lead × (is_worker crew.lead ≡ true)) }
    ensures others { IfOk result (λ crew. All (IsReady port.now plan.now) crew.others.items) }
    ensures count { IfOk result (λ crew. length crew.others.items + 1 ≡ length (seats_in seats.old)) }
    ensures workers { IfOk result (λ crew. count_by is_worker crew.others.items + 1 ≡ plan.now.workers) }
    ensures replicas { OnOk result (replicas.new.items ≡ []) }
    ensures empty { OnOk result (seats_in seats.new ≡ []) }
    ensures list { OnOk result (IsListOf port.now seats.new) }
    ensures limit { OnOk result (limit_of seats.new ≡ limit_of seats.old) }
{
    let mut others = Vec::new(plan.alloc);
    seat_workers(port, plan, seats, replicas, &mut others)?;
    let Some(lead) = others.pop() else {
        unreachable!()
    };
    seat_askers(port, plan, seats, &mut others)?;
    Ok(Crew { lead, others })
}
