//! Whether a reply tells what is due.
use crate::binding::{action_kinds, item_kinds};
use crate::plain::{PlainPort, PlainRule};
use crate::replies::Due;
use flow_calls::{ListRow, Reply};
use op_queues::Outcomes;
use std::alloc::{AllocError, Global};

fn is_listed(alloc: Global, rule: &PlainRule, row: &ListRow) -> Result<bool, AllocError> {
    let items = item_kinds(alloc, rule.spec.pattern.items.as_slice())?;
    let actions = action_kinds(alloc, rule.spec.actions.list.as_slice())?;
    Ok(
        rule.id == row.id
            && rule.spec.attr.group == row.group
            && rule.spec.attr.priority == row.priority
            && items.as_slice() == row.items.as_slice()
            && actions.as_slice() == row.actions.as_slice(),
    )
}

/// The rows are the rules in effect, in the order in which they took effect.
fn are_listed(port: &PlainPort, rows: &[ListRow]) -> Result<bool, AllocError> {
    if rows.len() != port.rules.len() {
        return Ok(false);
    }
    for (rule, row) in port.rules.as_slice().iter().zip(rows) {
        if !is_listed(port.alloc, rule, row)? {
            return Ok(false);
        }
    }
    Ok(true)
}

fn are_results(results: &[bool], outcomes: &Outcomes) -> bool {
    if results.len() != outcomes.len() {
        return false;
    }
    for place in 0..outcomes.len() {
        if results.get(place) != Some(&outcomes.get(place)) {
            return false;
        }
    }
    true
}

/// Replies that name an object.
fn is_same_object(due: &Reply, reply: &Reply) -> bool {
    match (due, reply) {
        (Reply::IndirectCreated(id), Reply::IndirectCreated(told)) => id == told,
        (Reply::IndirectUpdated(id), Reply::IndirectUpdated(told)) => id == told,
        (Reply::IndirectDestroyed(id), Reply::IndirectDestroyed(told)) => id == told,
        (Reply::PatternTemplateCreated(id), Reply::PatternTemplateCreated(told)) => id == told,
        (Reply::PatternTemplateDestroyed(id), Reply::PatternTemplateDestroyed(told)) => id == told,
        (Reply::ActionsTemplateCreated(id), Reply::ActionsTemplateCreated(told)) => id == told,
        (Reply::ActionsTemplateDestroyed(id), Reply::ActionsTemplateDestroyed(told)) => id == told,
        (Reply::TableCreated(id), Reply::TableCreated(told)) => id == told,
        (Reply::TableDestroyed(id), Reply::TableDestroyed(told)) => id == told,
        (Reply::Pushed(queue), Reply::Pushed(told)) => queue == told,
        _ => false,
    }
}

fn is_same(due: &Reply, reply: &Reply) -> bool {
    match (due, reply) {
        (Reply::Validated, Reply::Validated) | (Reply::Flushed, Reply::Flushed) => true,
        (Reply::Created(id), Reply::Created(told)) => id == told,
        (Reply::Destroyed(id), Reply::Destroyed(told)) => id == told,
        (Reply::Counted(hits, bytes), Reply::Counted(told_hits, told_bytes)) => {
            hits == told_hits && bytes == told_bytes
        }
        (Reply::Configured(queues, size), Reply::Configured(told_queues, told_size)) => {
            queues == told_queues && size == told_size
        }
        (Reply::Enqueued(kind, id), Reply::Enqueued(told_kind, told)) => {
            kind == told_kind && id == told
        }
        (Reply::Fault(fault), Reply::Fault(told)) => fault == told,
        _ => is_same_object(due, reply),
    }
}

/// Whether a reply tells what is due, behind the call that it answers.
pub(crate) fn is_told(port: &PlainPort, due: &Due, reply: &Reply) -> Result<bool, AllocError> {
    match (due, reply) {
        (Due::Reply(due), reply) => Ok(is_same(due, reply)),
        (Due::Listed, Reply::Listed(list)) => are_listed(port, list.as_slice()),
        (Due::Pulled(queue, results), Reply::Pulled(told, outcomes)) => {
            Ok(queue == told && are_results(results.as_slice(), outcomes.get()))
        }
        _ => Ok(false),
    }
}
