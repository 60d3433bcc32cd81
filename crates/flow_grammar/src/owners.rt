//! Who makes the calls of a phase.
ghost use Rattle.std.specs.Prelude.{◌≡◌, ◌≤◌, [], ◌∷◌, IfOk};
ghost use Rattle.flow_grammar.specs.Owners as spec;

use crate::call_list::CallList;
use flow_calls::Op;
use std::alloc::{AllocError, Global};

/// How many flow queues have agents.
const AGENTS: u16 = 8;

/// The calls of a phase, each with its owner.
#[derive(Drop)]
pub(crate) struct Dealt {
    pub(crate) shell: CallList,
    /// By flow queue.
    pub(crate) agents: [CallList; 8],
}

/// The flow queue that a call names.
fn queue_of(op: &Op) -> Option<u16>
    ensures { result ≡ spec.queue_of op.now }
{
    match op {
        Op::QueueCreate { queue, .. } => Some(*queue),
        Op::QueueDestroy { queue, .. } => Some(*queue),
        Op::QueueIndirectCreate { queue, .. } => Some(*queue),
        Op::QueueIndirectUpdate { queue, .. } => Some(*queue),
        Op::QueueIndirectDestroy { queue, .. } => Some(*queue),
        Op::Push(queue) => Some(*queue),
        Op::Pull(queue) => Some(*queue),
        _ => None,
    }
}

/// The caller that a call belongs to: the shell is 0, the agent of flow queue q is 1 + q.
#[tactic(auto, unfolding(crate::specs::Owners::owner_of))]
fn owner_of(op: &Op) -> u16
    ensures value { result ≡ spec.owner_of op.now }
    ensures within { result ≤ 8 }
{
    match queue_of(op) {
        Some(queue) if queue < AGENTS => 1 + queue,
        _ => 0,
    }
}

/// The calls of eight agents that have none.
fn no_calls(alloc: Global) -> [CallList; 8]
    ensures { result ≡ [] ∷ [] ∷ [] ∷ [] ∷ [] ∷ [] ∷ [] ∷ [] ∷ [] }
{
    [
        CallList::new(alloc),
        CallList::new(alloc),
        CallList::new(alloc),
        CallList::new(alloc),
        CallList::new(alloc),
        CallList::new(alloc),
        CallList::new(alloc),
        CallList::new(alloc),
    ]
}

/// Deals the calls of a phase to their owners, each in order.
pub(crate) fn deal(alloc: Global, calls: CallList) -> Result<Dealt, AllocError>
    ensures shell { IfOk result (λ dealt. dealt.shell ≡ spec.owned_by 0 calls) }
    ensures agents { IfOk result (λ dealt. dealt.agents ≡ spec.agent_calls calls) }
{
    let mut shell = CallList::new(alloc);
    let mut agents = no_calls(alloc);
    for call in calls.into_calls() {
        let owner = owner_of(&call.op);
        if owner == 0 {
            shell.push(call)?;
        } else {
            agents[owner as usize - 1].push(call)?;
        }
    }
    Ok(Dealt { shell, agents })
}
