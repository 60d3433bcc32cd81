//! What calls on flow queues do, until operations take effect.
use crate::binding::{Place, bound};
use crate::plain::{Held, Kept, PlainPort, PlainQueue, find};
use crate::refusals::{Refused, is_out_of_range, judge_rule, judge_shareable, refuse_if, wanted};
use crate::rules::made;
use crate::users::Use;
use flow_actions::Action;
use flow_calls::{Op, OpKind, Reply, RuleLists};
use flow_rules::Cause;
use std::alloc::AllocError;
use std::mem;

fn add_queue(port: &mut PlainPort) -> Result<(), AllocError> {
    let held = Vec::new(port.alloc);
    let results = Vec::new(port.alloc);
    port.queues.push(PlainQueue { held, results })?;
    Ok(())
}

pub(crate) fn configure(port: &mut PlainPort, queues: u32, size: u32) -> Result<Reply, Refused> {
    refuse_if(!port.queues.is_empty(), Cause::AlreadyConfigured)?;
    let is_in_range = queues >= 1 && queues <= 8 && size >= 1 && size <= 1024;
    refuse_if(!is_in_range, Cause::QueueRange)?;
    port.size = size;
    for _ in 0..queues {
        add_queue(port)?;
    }
    Ok(Reply::Configured(queues, size))
}

/// What the queue holds takes effect behind this.
pub(crate) fn judge_push(port: &PlainPort, queue: u16) -> Result<Reply, Refused> {
    wanted(port.queues.as_slice().get(queue as usize), Cause::NoQueue)?;
    Ok(Reply::Pushed(queue))
}

/// All results that wait in a queue, which then has none.
pub(crate) fn pull(port: &mut PlainPort, queue: u16) -> Result<Vec<bool>, Refused> {
    let none = Vec::new(port.alloc);
    let own = wanted(port.queues.get_mut(queue as usize), Cause::NoQueue)?;
    Ok(mem::replace(&mut own.results, none))
}

/// In flight are the operations that are held, and those whose results weren't pulled.
fn judge_room(port: &PlainPort, queue: u16) -> Result<(), Refused> {
    let own = wanted(port.queues.as_slice().get(queue as usize), Cause::NoQueue)?;
    let in_flight = own.held.len().wrapping_add(own.results.len());
    refuse_if(in_flight == port.size as usize, Cause::QueueFull)
}

fn creation(port: &mut PlainPort, place: Place, own: &RuleLists) -> Result<Held, Refused> {
    let spec = bound(port, place, own)?;
    judge_rule(port, &spec)?;
    let table = wanted(find(port.tables.as_slice(), place.table), Cause::NoObject)?;
    let taken = Use::Slot(place.table).count(port);
    refuse_if(taken == table.rules_number, Cause::TableFull)?;
    Ok(Held::RuleCreate(port.make_rule(Some(place.table), spec)))
}

/// Whether the action is there is known as the update takes effect.
fn new_value(port: &PlainPort, id: u16, action: &Action) -> Result<Held, Refused> {
    judge_shareable(action)?;
    refuse_if(*action == Action::Count, Cause::CannotUpdate)?;
    refuse_if(is_out_of_range(port, action), Cause::ActionConf)?;
    let value = action.copied();
    Ok(Held::IndirectUpdate(Kept { id, value }))
}

/// What a queue is asked to hold.
fn operation(port: &mut PlainPort, op: &Op) -> Result<Option<Held>, Refused> {
    Ok(Some(match op {
        Op::QueueCreate {
            table,
            pt,
            act,
            lists,
            ..
        } => {
            let (table, pt, act) = (*table, *pt, *act);
            creation(port, Place { table, pt, act }, lists.get())?
        }
        Op::QueueDestroy { rule, .. } => Held::RuleDestroy(*rule),
        Op::QueueIndirectCreate {
            id,
            attr,
            action,
            ..
        } => Held::IndirectCreate(made(port, *id, attr, action.get())?),
        Op::QueueIndirectUpdate { id, action, .. } => new_value(port, *id, action.get())?,
        Op::QueueIndirectDestroy { id, .. } => Held::IndirectDestroy(*id),
        _ => return Ok(None),
    }))
}

fn enqueued(op: &Held) -> Reply {
    match op {
        Held::RuleCreate(rule) => Reply::Enqueued(OpKind::RuleCreate, rule.id),
        Held::RuleDestroy(id) => Reply::Enqueued(OpKind::RuleDestroy, *id),
        Held::IndirectCreate(kept) => Reply::Enqueued(OpKind::IndirectCreate, kept.id as u32),
        Held::IndirectUpdate(kept) => Reply::Enqueued(OpKind::IndirectUpdate, kept.id as u32),
        Held::IndirectDestroy(id) => Reply::Enqueued(OpKind::IndirectDestroy, *id as u32),
    }
}

fn hold(port: &mut PlainPort, queue: u16, op: Held) -> Result<(), AllocError> {
    if let Some(own) = port.queues.get_mut(queue as usize) {
        own.held.push(op)?;
    }
    Ok(())
}

/// An operation is held, behind the others.
pub(crate) fn enqueue(port: &mut PlainPort, queue: u16, op: &Op) -> Result<Reply, Refused> {
    judge_room(port, queue)?;
    let Some(held) = operation(port, op)? else {
        return Ok(Reply::Bye);
    };
    let reply = enqueued(&held);
    hold(port, queue, held)?;
    Ok(reply)
}
