//! The calls of a caller, one after the other.
ghost use Rattle.std.specs.Prelude.{◌≡◌, ◌≤◌, OnOk};
ghost use Rattle.adapter.specs.Seen.{Grows};
ghost use Rattle.whole_history.specs.Serial.{asks_of, all_asks_of};

use adapter::Adapter;
use flow_calls::{Call, Caller};
use flow_grammar::CallList;
use std::alloc::AllocError;

/// Asks the calls.
pub(crate) fn ask_all(
    adapter: &mut Adapter,
    caller: Caller,
    calls: &[Call],
) -> Result<(), AllocError>
    requires { caller.0 ≤ 8 }
    ensures asks { OnOk result (Grows adapter.old adapter.new (asks_of adapter.old.limits caller.0 calls.now adapter.old.history)) }
    ensures limits { adapter.new.limits ≡ adapter.old.limits }
{
    for call in calls {
        adapter.step(caller, call)?;
    }
    Ok(())
}

/// Asks the calls of the agents of all flow queues, by number.
pub(crate) fn ask_agents(adapter: &mut Adapter, agents: &[CallList; 8]) -> Result<(), AllocError>
    ensures asks { OnOk result (Grows adapter.old adapter.new (all_asks_of adapter.old.limits 1 agents.now adapter.old.history)) }
    ensures limits { adapter.new.limits ≡ adapter.old.limits }
{
    let mut caller = 1u8;
    for calls in agents {
        ask_all(adapter, Caller(caller), calls.as_slice())?;
        caller += 1;
    }
    Ok(())
}
