//! Seats become members of a crew, and members hand their seats in.
ghost use Rattle.std.specs.Prelude.{◌≡◌, ◌≤◌, ◌<◌, ◌++◌, ℕ, [], ◌∷◌, All, IfOk, OnOk, length};
ghost use Rattle.flow_rules.specs.Limits.{AreLimits};
ghost use Rattle.flow_calls.specs.Entries.{numbers_by};
ghost use Rattle.flow_port.specs.Ports.{IsFreshAt, IsListOf, IsSeatAt, limit_of, limits_of, opening_of, seats_in, whose};
ghost use Rattle.test_crews.specs.Members.{IsDone, IsFreshRole, IsPlan, IsReady};

use crate::passing::Passing;
use crate::plan::Plan;
use crate::share::Share;
use flow_calls::Caller;
use flow_port::{FlowPort, PortSeat, PortSeats};
use flow_rules::Limits;
use replica::Replica;
use std::alloc::AllocError;

/// What a member of a crew is.
#[derive(Drop)]
pub(crate) enum Role<'a> {
    /// The shell.
    Asker,
    /// A worker.
    Passer(Passing<'a>),
}

/// A caller with its seat.
#[derive(Drop)]
pub(crate) struct Member<'a> {
    pub(crate) seat: PortSeat,
    pub(crate) role: Role<'a>,
    /// The calls that it asked.
    pub(crate) asked: usize,
    /// Whether it met want of memory.
    pub(crate) failed: bool,
}

/// The role of a caller, who has done nothing yet.
fn role_of<'a>(plan: &Plan<'a>, limits: Limits, caller: Caller) -> Result<Role<'a>, AllocError>
    requires plan { IsPlan plan.now }
    requires limits { AreLimits limits }
    requires caller { caller.0 ≤ 24 }
    ensures { IfOk result (λ role. IsFreshRole limits caller.0 role) }
{
    if caller.0 < Caller::LEAD.0 {
        return Ok(Role::Asker);
    }
    let share = Share {
        keys: plan.keys,
        next: u32::from(caller.0 - Caller::LEAD.0) + 1,
        step: u32::from(plan.workers),
        end: plan.frames.saturating_add(1),
    };
    let replica = Replica::new(plan.alloc, limits)?;
    Ok(Role::Passer(Passing { share, replica }))
}

/// A member for each seat.
pub(crate) fn seat_all<'a>(
    port: &FlowPort,
    plan: &Plan<'a>,
    limits: Limits,
    seats: &mut PortSeats,
) -> Result<Vec<Member<'a>>, AllocError>
    requires plan { IsPlan plan.now }
    requires limits { AreLimits limits × (limits_of port.now ≡ limits) }
    requires frames { (who : ℕ) → numbers_by who (opening_of port.now) ≡ [] }
    requires fresh { All (IsFreshAt port.now) (seats_in seats.old) }
    requires known { All (λ s. (whose s).0 ≤ 24) (seats_in seats.old) }
    requires list { IsListOf port.now seats.old }
    ensures ready { IfOk result (λ crew. All (IsReady port.now) crew.items) }
    ensures count { IfOk result (λ crew. length crew.items ≡ length (seats_in seats.old)) }
    ensures empty { OnOk result (seats_in seats.new ≡ []) }
    ensures list { OnOk result (IsListOf port.now seats.new × (limit_of seats.new ≡ limit_of seats.old)) }
{
    let mut crew = Vec::new(plan.alloc);
    while let Some(seat) = seats.pop() {
        let role = role_of(plan, limits, seat.caller())?;
        crew.push(Member {
            seat,
            role,
            asked: 0,
            failed: false,
        })?;
    }
    Ok(crew)
}

/// Puts a seat back into the list.
fn hand_in(port: &FlowPort, seats: &mut PortSeats, seat: PortSeat)
    requires seat { IsSeatAt port.now seat }
    requires list { IsListOf port.now seats.old }
    requires room { length (seats_in seats.old) < limit_of seats.old }
    ensures seats { seats_in seats.new ≡ seats_in seats.old ++ seat ∷ [] }
    ensures list { IsListOf port.now seats.new }
    ensures limit { limit_of seats.new ≡ limit_of seats.old }
{
    let _port = port;
    seats.push(seat).unwrap();
}

/// The calls that were asked, with those of one more member. None where one met want of memory.
fn with_member(asked: Option<usize>, more: usize, failed: bool) -> Option<usize> {
    if failed {
        return None;
    }
    Some(asked?.saturating_add(more))
}

/// Takes the seats of all members back, and tells how many calls they asked. None where one met want of memory.
pub(crate) fn gather(port: &FlowPort, seats: &mut PortSeats, crew: Vec<Member<'_>>) -> Option<usize>
    requires done { All (IsDone port.now) crew.items }
    requires list { IsListOf port.now seats.old }
    requires room { length crew.items ≤ limit_of seats.old }
    requires none { seats_in seats.old ≡ [] }
    ensures seats { All (IsSeatAt port.now) (seats_in seats.new) }
    ensures count { length (seats_in seats.new) ≡ length crew.entry.items }
{
    let mut crew = crew;
    let mut asked = Some(0);
    while let Some(member) = crew.pop() {
        asked = with_member(asked, member.asked, member.failed);
        hand_in(port, seats, member.seat);
    }
    asked
}
