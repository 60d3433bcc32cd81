//! How the shell and the agents ask in a phase: their calls in order, one in each turn.
ghost use Rattle.std.specs.Prelude.{◌≡◌, ◌≤◌, ◌++◌, length, OnOk};
ghost use Rattle.flow_calls.specs.Entries.{calls_by, parcels_of};
ghost use Rattle.flow_port.specs.Ports.{IsSeatAt, mine, turns, whose};
ghost use Rattle.running_phase.specs.Shares.{calls_in};

use crate::middle::Phase;
use flow_calls::{Call, Caller};
use flow_port::{FlowPort, PortSeat};
use std::alloc::AllocError;
use std::sync::Wait;

/// The calls of the shell or of an agent.
pub(crate) fn calls_of<'a>(phase: &Phase<'a>, caller: Caller) -> &'a [Call]
    requires { caller.0 ≤ 8 }
    ensures { result.now ≡ calls_in phase.now.shell.now phase.now.agents.now caller.0 }
{
    if caller.0 == 0 {
        return phase.shell;
    }
    let agents = phase.agents;
    let lists = &agents[..];
    lists[usize::from(caller.0 - 1)].as_slice()
}

/// Asks the calls.
pub(crate) fn ask_all<R: Wait>(
    rt: &R,
    port: &FlowPort,
    seat: &mut PortSeat,
    calls: &[Call],
) -> Result<(), AllocError>
    requires seat { IsSeatAt port.now seat.old }
    requires caller { (whose seat.old).0 ≤ 8 }
    requires left { length calls.now ≤ turns seat.old }
    ensures seat { IsSeatAt port.now seat.new }
    ensures caller { whose seat.new ≡ whose seat.old }
    ensures calls { OnOk result (calls_by (whose seat.old).0 (mine port.now seat.new) ≡ calls_by (whose seat.old).0 (mine port.now seat.old) ++ calls.now) }
    ensures frames { OnOk result (parcels_of (mine port.now seat.new) ≡ parcels_of (mine port.now seat.old)) }
{
    for call in calls {
        port.call(rt, seat, call)?;
    }
    Ok(())
}
