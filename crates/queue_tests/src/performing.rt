//! What an operation of a queue does as it takes effect, and whether it succeeds.
use crate::plain::{Held, Kept, PlainPort, put, remove};
use crate::rules::has_kind;
use crate::users::Use;
use flow_actions::Action;
use flow_calls::OpKind;
use std::alloc::AllocError;

/// What was performed, and whether it succeeded.
pub(crate) type Outcome = (OpKind, bool);

/// A rule that stands in no table isn't there for a queue.
fn destroy(port: &mut PlainPort, id: u32) -> bool {
    let may_go = port.has_rule(id, true);
    if may_go {
        port.remove_rule(id);
    }
    may_go
}

fn update(port: &mut PlainPort, object: Kept<Action>) -> Result<bool, AllocError> {
    let is_there = has_kind(port, object.id, &object.value);
    if is_there {
        put(&mut port.objects, object.id, object.value)?;
    }
    Ok(is_there)
}

fn unshare(port: &mut PlainPort, id: u16) -> bool {
    let may_go = port.object(id).is_some() && Use::Object(id).count(port) == 0;
    if may_go {
        remove(&mut port.objects, id);
    }
    may_go
}

/// An operation that no queue holds any more takes effect, or fails and changes nothing.
fn perform(port: &mut PlainPort, op: Held) -> Result<Outcome, AllocError> {
    Ok(match op {
        Held::RuleCreate(rule) => {
            port.rules.push(rule)?;
            (OpKind::RuleCreate, true)
        }
        Held::RuleDestroy(id) => (OpKind::RuleDestroy, destroy(port, id)),
        Held::IndirectCreate(object) => {
            put(&mut port.objects, object.id, object.value)?;
            (OpKind::IndirectCreate, true)
        }
        Held::IndirectUpdate(object) => (OpKind::IndirectUpdate, update(port, object)?),
        Held::IndirectDestroy(id) => (OpKind::IndirectDestroy, unshare(port, id)),
    })
}

fn take_oldest(port: &mut PlainPort, queue: u16) -> Option<Held> {
    let own = port.queues.get_mut(queue as usize)?;
    if own.held.is_empty() {
        return None;
    }
    Some(own.held.remove(0))
}

fn leave_result(port: &mut PlainPort, queue: u16, is_done: bool) -> Result<(), AllocError> {
    if let Some(own) = port.queues.get_mut(queue as usize) {
        own.results.push(is_done)?;
    }
    Ok(())
}

/// All that a queue holds takes effect, in order. The outcomes come behind those that are there.
pub(crate) fn push(
    port: &mut PlainPort,
    queue: u16,
    outcomes: &mut Vec<Outcome>,
) -> Result<(), AllocError> {
    for _ in 0..port.size {
        let Some(op) = take_oldest(port, queue) else {
            return Ok(());
        };
        let outcome = perform(port, op)?;
        leave_result(port, queue, outcome.1)?;
        outcomes.push(outcome)?;
    }
    Ok(())
}
