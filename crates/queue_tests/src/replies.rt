//! The reply that the plain model gives to a call.
use crate::performing::{Outcome, push};
use crate::plain::{PlainPort, Table};
use crate::refusals::{Refused, judge_rule};
use crate::{queues, rules, templates};
use flow_calls::{Op, Reply};
use std::alloc::AllocError;

/// What a reply must tell. A list is told from the model's own rules.
#[derive(Drop)]
pub(crate) enum Due {
    Reply(Reply),
    Listed,
    Pulled(u16, Vec<bool>),
}

/// The queue of an operation, and whether it is only held.
fn queue_of(op: &Op) -> Option<(u16, bool)> {
    match op {
        Op::QueueCreate {
            queue,
            postpone,
            ..
        }
        | Op::QueueDestroy {
            queue,
            postpone,
            ..
        }
        | Op::QueueIndirectCreate {
            queue,
            postpone,
            ..
        }
        | Op::QueueIndirectUpdate {
            queue,
            postpone,
            ..
        }
        | Op::QueueIndirectDestroy {
            queue,
            postpone,
            ..
        } => Some((*queue, *postpone)),
        _ => None,
    }
}

/// The queue whose operations take effect behind an accepted call.
fn pushed_by(op: &Op) -> Option<u16> {
    if let Op::Push(queue) = op {
        return Some(*queue);
    }
    match queue_of(op) {
        Some((queue, false)) => Some(queue),
        _ => None,
    }
}

fn on_templates(port: &mut PlainPort, op: &Op) -> Result<Reply, Refused> {
    match op {
        Op::PatternTemplateCreate { id, attr, pattern } => {
            templates::create_pattern(port, *id, attr, pattern)
        }
        Op::PatternTemplateDestroy(id) => templates::destroy_pattern(port, *id),
        Op::ActionsTemplateCreate { id, attr, lists } => {
            templates::create_actions(port, *id, attr, lists)
        }
        Op::ActionsTemplateDestroy(id) => templates::destroy_actions(port, *id),
        Op::TableCreate {
            id,
            attr,
            rules_number,
            templates,
        } => {
            let table = Table {
                attr: *attr,
                rules_number: *rules_number,
                templates: templates.clone()?,
            };
            templates::create_table(port, *id, table)
        }
        Op::TableDestroy(id) => templates::destroy_table(port, *id),
        Op::Configure { queues, size } => queues::configure(port, *queues, *size),
        _ => Ok(Reply::Bye),
    }
}

fn on_rules(port: &mut PlainPort, op: &Op) -> Result<Reply, Refused> {
    match op {
        Op::Validate(spec) => {
            judge_rule(port, spec.get())?;
            Ok(Reply::Validated)
        }
        Op::Create(spec) => rules::create(port, spec.get()),
        Op::Destroy(id) => rules::destroy(port, *id),
        Op::Flush => Ok(rules::flush(port)),
        Op::Query(id) => rules::query(port, *id),
        Op::IndirectCreate { id, attr, action } => {
            let object = rules::made(port, *id, attr, action.get())?;
            rules::share(port, object)
        }
        Op::IndirectUpdate { id, action } => rules::update(port, *id, action.get()),
        Op::IndirectDestroy(id) => rules::unshare(port, *id),
        Op::IndirectQuery(id) => rules::query_shared(port, *id),
        _ => on_templates(port, op),
    }
}

fn judged(port: &mut PlainPort, op: &Op) -> Result<Due, Refused> {
    if let Some((queue, _)) = queue_of(op) {
        return Ok(Due::Reply(queues::enqueue(port, queue, op)?));
    }
    match op {
        Op::List => Ok(Due::Listed),
        Op::Push(queue) => Ok(Due::Reply(queues::judge_push(port, *queue)?)),
        Op::Pull(queue) => Ok(Due::Pulled(*queue, queues::pull(port, *queue)?)),
        _ => Ok(Due::Reply(on_rules(port, op)?)),
    }
}

/// What is due to a call, which the model carries out. Outcomes of operations come behind those that are there.
pub(crate) fn answer(
    port: &mut PlainPort,
    op: &Op,
    outcomes: &mut Vec<Outcome>,
) -> Result<Due, AllocError> {
    match judged(port, op) {
        Ok(due) => {
            if let Some(queue) = pushed_by(op) {
                push(port, queue, outcomes)?;
            }
            Ok(due)
        }
        Err(Refused::For(fault)) => Ok(Due::Reply(Reply::Fault(fault))),
        Err(Refused::NoMemory) => Err(AllocError),
    }
}
