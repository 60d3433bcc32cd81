//! What the shell of a crew does.
ghost use Rattle.std.specs.Prelude.{◌≡◌, ◌≤◌, ◌^◌, length, IfOk};
ghost use Rattle.flow_port.specs.Ports.{IsSeatAt, turns, whose};

use crate::plan::Plan;
use flow_port::{FlowPort, PortSeat};
use std::alloc::AllocError;
use std::sync::Wait;
use std::sync::atomic::{AtomicU64, Ordering};
use std::thread::{sleep, yield_now};
use std::time::{Clock, Duration};

/// Lets some time go by, or other threads have their turn.
fn wait(clock: &impl Clock, pause: Option<Duration>) {
    match pause {
        Some(time) => sleep(clock, time),
        None => yield_now(),
    }
}

/// Asks the plan's calls in order until all workers are done, and tells how many were asked.
pub(crate) fn ask_all<R: Wait + Clock>(
    rt: &R,
    port: &FlowPort,
    plan: &Plan<'_>,
    done: &AtomicU64,
    seat: &mut PortSeat,
) -> Result<usize, AllocError>
    requires seat { IsSeatAt port.now seat.old }
    requires caller { (whose seat.old).0 ≤ 8 }
    requires turns { length plan.now.calls.now ≤ turns seat.old }
    ensures seat { IsSeatAt port.now seat.new }
    ensures asked { IfOk result (λ asked. asked ≤ length plan.now.calls.now) }
{
    for place in 0..plan.calls.len() {
        if done.load(Ordering::SeqCst) >= u64::from(plan.workers) {
            return Ok(place);
        }
        port.call(rt, seat, &plan.calls[place])?;
        wait(rt, plan.pause);
    }
    Ok(plan.calls.len())
}
