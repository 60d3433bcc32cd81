//! A crew at work, from the adapter that it begins with to the closed history.
ghost use Rattle.std.specs.Prelude.{◌≡◌, ◌≤◌, ◌+◌, ℕ, [], All, IfOk, length};
ghost use Rattle.turn_book.specs.Views.{BeginsWith};
ghost use Rattle.flow_calls.specs.Entries.{numbers_by};
ghost use Rattle.flow_port.specs.Ports.{AreDifferent, IsFreshAt, IsListOf, callers_of, limit_of, limits_of, opening_of, seats_in, whose};
ghost use Rattle.test_crews.specs.Members.{IsDone, IsPlan, IsReady};

use crate::asking::ask_all;
use crate::passing::pass_all;
use crate::plan::Plan;
use crate::seating::{Member, Role, gather, seat_all};
use adapter::Adapter;
use arrayvec::ArrayVec;
use flow_calls::Caller;
use flow_port::{FlowPort, PortSeats};
use std::alloc::AllocError;
use std::sync::Wait;
use std::sync::atomic::{AtomicU64, Ordering};
use std::thread::{Threads, for_each_mut};
use std::time::Clock;

/// What a crew leaves.
#[derive(Drop)]
pub struct Run {
    /// With the closed history.
    pub adapter: Adapter,
    /// How many of the plan's calls the shell asked.
    pub asked: usize,
}

/// What a member does. `done` counts the workers that have done it.
fn act<R: Wait + Clock>(
    rt: &R,
    port: &FlowPort,
    plan: &Plan<'_>,
    done: &AtomicU64,
    member: &mut Member<'_>,
)
    requires plan { IsPlan plan.now }
    requires ready { IsReady port.now member.old }
    ensures { IsDone port.now member.new }
{
    match &mut member.role {
        Role::Asker => match ask_all(rt, port, plan, done, &mut member.seat) {
            Ok(asked) => member.asked = asked,
            Err(_) => member.failed = true,
        },
        Role::Passer(passing) => {
            let passed = pass_all(rt, port, plan.alloc, plan.burst, &mut member.seat, passing);
            member.failed = passed.is_err();
            done.fetch_add(1, Ordering::SeqCst);
        }
    }
}

/// What all members do, each on a thread of its own.
fn act_all<R: Threads + Wait + Clock + Sync>(
    rt: &R,
    port: &FlowPort,
    plan: &Plan<'_>,
    crew: &mut [Member<'_>],
)
    requires plan { IsPlan plan.now }
    requires ready { All (IsReady port.now) crew.old }
    ensures { All (IsDone port.now) crew.new }
{
    let done = AtomicU64::new(0);
    let threads = crew.len().max(1);
    for_each_mut(
        rt,
        crew,
        threads,
        &|_, member: &mut Member<'_>|
            requires { IsPlan plan.now × IsReady port.now member.now }
            ensures { IsDone port.entry.now member.exit.now }
        { act(rt, port, plan, &done, member) },
    );
}

/// The work of all members, and behind it the crew.
fn act_together<'a, R: Threads + Wait + Clock + Sync>(
    rt: &R,
    port: &FlowPort,
    plan: &Plan<'_>,
    crew: Vec<Member<'a>>,
) -> Vec<Member<'a>>
    requires plan { IsPlan plan.now }
    requires ready { All (IsReady port.now) crew.items }
    ensures done { All (IsDone port.now) result.items }
    ensures count { length result.items ≡ length crew.entry.items }
{
    let mut crew = crew;
    act_all(rt, port, plan, crew.as_mut_slice());
    crew
}

/// The shell and the workers, in rising order.
fn callers(workers: u8) -> ArrayVec<Caller, 25>
    requires { workers ≤ 16 }
    ensures count { length result.items ≡ workers + 1 }
    ensures differ { AreDifferent result.items }
    ensures known { All (λ c. c.0 ≤ 24) result.items }
{
    let mut callers: ArrayVec<Caller, 25> = ArrayVec::new();
    callers.push(Caller::SHELL);
    for worker in 0..workers {
        callers.push(Caller(Caller::LEAD.0 + worker));
    }
    callers
}

/// The work of all who have a seat at the port, and its close.
fn run_seated<R: Threads + Wait + Clock + Sync>(
    rt: &R,
    port: FlowPort,
    plan: &Plan<'_>,
    crew: Vec<Member<'_>>,
    seats: PortSeats,
) -> Result<Run, AllocError>
    requires plan { IsPlan plan.now }
    requires ready { All (IsReady port) crew.items }
    requires count { (1 ≤ length crew.items) × (length crew.items ≡ length (callers_of port)) }
    requires list { IsListOf port seats × (limit_of seats ≡ length (callers_of port)) }
    requires none { seats_in seats ≡ [] }
    ensures limits { IfOk result (λ run. run.adapter.limits ≡ limits_of port) }
    ensures begins { IfOk result (λ run. BeginsWith run.adapter.history (opening_of port)) }
{
    let mut seats = seats;
    let crew = act_together(rt, &port, plan, crew);
    let told = gather(&port, &mut seats, crew);
    let adapter = port.close(seats);
    let Some(asked) = told else {
        return Err(AllocError);
    };
    Ok(Run { adapter, asked })
}

/// Lets a crew work at a port over that adapter, each member on a thread of its own where there are threads, and closes the port.
///
/// `Err` is want of memory, of any of them.
pub fn run_crew<R: Threads + Wait + Clock + Sync>(
    rt: &R,
    adapter: Adapter,
    plan: &Plan<'_>,
) -> Result<Run, AllocError>
    requires plan { IsPlan plan.now }
    requires frames { (who : ℕ) → numbers_by who adapter.history ≡ [] }
    ensures limits { IfOk result (λ run. run.adapter.limits ≡ adapter.limits) }
    ensures begins { IfOk result (λ run. BeginsWith run.adapter.history adapter.history) }
{
    let limits = adapter.limits();
    let callers = callers(plan.workers);
    let Ok((port, seats)) = FlowPort::new(plan.alloc, adapter, callers.as_slice()) else {
        return Err(AllocError);
    };
    let mut seats = seats;
    let crew = seat_all(&port, plan, limits, &mut seats)?;
    run_seated(rt, port, plan, crew, seats)
}
