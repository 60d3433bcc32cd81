//! Who takes part in a phase: the shell, the agents that have calls, and the workers.
ghost use Rattle.std.specs.Prelude.{◌≡◌, ◌≤◌, ◌<◌, ◌+◌, ◌++◌, length, All};
ghost use Rattle.flow_port.specs.Ports.{AreDifferent};
ghost use Rattle.running_phase.specs.Roster.{agents_from, roster, with_calls, workers_from};

use arrayvec::ArrayVec;
use flow_calls::Caller;
use flow_grammar::CallList;

/// Puts a caller behind the others, if it has calls.
fn push_asker(number: u8, calls: &CallList, callers: &mut ArrayVec<Caller, 25>)
    requires { length callers.old.items < 25 }
    ensures callers { callers.new.items ≡ callers.old.items ++ with_calls number calls.now }
    ensures count { length callers.new.items ≤ length callers.old.items + 1 }
{
    if calls.len() == 0 {
        return;
    }
    callers.push(Caller(number));
}

fn push_agents(agents: &[CallList; 8], callers: &mut ArrayVec<Caller, 25>)
    requires first { length callers.old.items ≤ 1 }
    ensures callers { callers.new.items ≡ callers.old.items ++ agents_from 1 agents.now }
    ensures count { length callers.new.items ≤ 9 }
{
    for queue in 0..8u8 {
        push_asker(1 + queue, &agents[usize::from(queue)], callers);
    }
}

fn push_workers(workers: u32, callers: &mut ArrayVec<Caller, 25>)
    requires few { workers ≤ 16 }
    requires room { length callers.old.items ≤ 9 }
    ensures callers { callers.new.items ≡ callers.old.items ++ workers_from 9 workers }
    ensures count { length callers.new.items ≡ length callers.old.items + workers }
{
    for worker in 0..workers {
        callers.push(Caller(9 + worker as u8));
    }
}

/// The callers of a phase, in rising order.
pub(crate) fn callers_of(agents: &[CallList; 8], workers: u32) -> ArrayVec<Caller, 25>
    requires { workers ≤ 16 }
    ensures callers { result.items ≡ roster agents.now workers }
    ensures count { (1 ≤ length result.items) × (length result.items ≤ 25) }
    ensures differ { AreDifferent result.items }
    ensures known { All (λ c. c.0 ≤ 24) result.items }
    ensures queues { length agents.now ≡ 8 }
{
    let mut callers: ArrayVec<Caller, 25> = ArrayVec::new();
    callers.push(Caller::SHELL);
    push_agents(agents, &mut callers);
    push_workers(workers, &mut callers);
    callers
}
