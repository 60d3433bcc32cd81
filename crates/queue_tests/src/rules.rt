//! What calls on rules and on shared actions do. No frame passes, so each counter stands at 0.
use crate::plain::{Kept, PlainPort, put, remove};
use crate::refusals::{
    Refused, id_for, is_out_of_range, judge_rule, judge_shareable, refuse_if, wanted,
};
use crate::users::{Use, object_ids};
use flow_actions::Action;
use flow_calls::Reply;
use flow_rules::{Attr, Cause, RuleSpec};
use std::alloc::AllocError;

/// There may be so many shared actions, held ones too.
const MAX_OBJECTS: usize = 1024;

/// The store is for rules that stand in no table.
fn is_store_full(port: &PlainPort) -> bool {
    let mut stored: u32 = 0;
    for rule in port.rules.as_slice() {
        stored = stored.wrapping_add(rule.table.is_none() as u32);
    }
    stored >= port.limits.flow_max
}

fn store(port: &mut PlainPort, spec: RuleSpec) -> Result<u32, AllocError> {
    let rule = port.make_rule(None, spec);
    let id = rule.id;
    port.rules.push(rule)?;
    Ok(id)
}

pub(crate) fn create(port: &mut PlainPort, spec: &RuleSpec) -> Result<Reply, Refused> {
    judge_rule(port, spec)?;
    refuse_if(is_store_full(port), Cause::StoreFull)?;
    let id = store(port, spec.clone()?)?;
    Ok(Reply::Created(id))
}

pub(crate) fn destroy(port: &mut PlainPort, id: u32) -> Result<Reply, Refused> {
    refuse_if(!port.has_rule(id, false), Cause::NoRule)?;
    port.remove_rule(id);
    Ok(Reply::Destroyed(id))
}

/// Rules of tables go too. Operations stay held.
pub(crate) fn flush(port: &mut PlainPort) -> Reply {
    port.rules.clear();
    Reply::Flushed
}

pub(crate) fn query(port: &PlainPort, id: u32) -> Result<Reply, Refused> {
    let rule = wanted(port.rule(id), Cause::NoRule)?;
    let has_count = rule.spec.actions.list.as_slice().contains(&Action::Count);
    refuse_if(!has_count, Cause::NoCounter)?;
    Ok(Reply::Counted(0, 0))
}

/// The shared action that a creation makes, at once or by a queue.
pub(crate) fn made(
    port: &PlainPort,
    id: Option<u16>,
    attr: &Attr,
    action: &Action,
) -> Result<Kept<Action>, Refused> {
    refuse_if(attr.egress, Cause::Egress)?;
    judge_shareable(action)?;
    refuse_if(is_out_of_range(port, action), Cause::ActionConf)?;
    let ids = object_ids(port)?;
    let id = id_for(ids.as_slice(), id, MAX_OBJECTS)?;
    let value = action.copied();
    Ok(Kept { id, value })
}

pub(crate) fn share(port: &mut PlainPort, object: Kept<Action>) -> Result<Reply, Refused> {
    let id = object.id;
    put(&mut port.objects, id, object.value)?;
    Ok(Reply::IndirectCreated(id))
}

/// Whether an action of this kind is in effect at the id.
pub(crate) fn has_kind(port: &PlainPort, id: u16, action: &Action) -> bool {
    match port.object(id) {
        Some(value) => value.kind() == action.kind(),
        None => false,
    }
}

pub(crate) fn update(port: &mut PlainPort, id: u16, action: &Action) -> Result<Reply, Refused> {
    refuse_if(port.object(id).is_none(), Cause::NoObject)?;
    refuse_if(!has_kind(port, id, action), Cause::KindDiffers)?;
    refuse_if(*action == Action::Count, Cause::CannotUpdate)?;
    refuse_if(is_out_of_range(port, action), Cause::ActionConf)?;
    put(&mut port.objects, id, action.copied())?;
    Ok(Reply::IndirectUpdated(id))
}

pub(crate) fn unshare(port: &mut PlainPort, id: u16) -> Result<Reply, Refused> {
    refuse_if(port.object(id).is_none(), Cause::NoObject)?;
    refuse_if(Use::Object(id).count(port) > 0, Cause::Busy)?;
    remove(&mut port.objects, id);
    Ok(Reply::IndirectDestroyed(id))
}

pub(crate) fn query_shared(port: &PlainPort, id: u16) -> Result<Reply, Refused> {
    let value = wanted(port.object(id), Cause::NoObject)?;
    refuse_if(*value != Action::Count, Cause::NoCounter)?;
    Ok(Reply::Counted(0, 0))
}
