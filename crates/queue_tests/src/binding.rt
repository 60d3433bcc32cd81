//! The rule that an enqueue makes of a table's templates, or why it makes none. No generated list has `Void`.
use crate::plain::{PlainPort, find};
use crate::refusals::{Refused, refuse_at, wanted};
use flow_actions::{Action, ActionKind, Actions};
use flow_calls::{ActionLists, RuleLists};
use flow_rules::{Cause, RuleSpec};
use packet_headers::ItemKind;
use pattern_items::Item;
use std::alloc::{AllocError, Global};

/// The table and the places of its templates that an enqueue names.
#[derive(Clone, Copy)]
pub(crate) struct Place {
    pub(crate) table: u16,
    pub(crate) pt: u16,
    pub(crate) act: u16,
}

pub(crate) fn item_kinds(alloc: Global, items: &[Item]) -> Result<Vec<ItemKind>, AllocError> {
    let mut kinds = Vec::new(alloc);
    for item in items {
        kinds.push(item.kind)?;
    }
    Ok(kinds)
}

pub(crate) fn action_kinds(alloc: Global, list: &[Action]) -> Result<Vec<ActionKind>, AllocError> {
    let mut kinds = Vec::new(alloc);
    for action in list {
        kinds.push(action.kind())?;
    }
    Ok(kinds)
}

/// A list is refused at the first place where it isn't the one wanted, and where it is too short at its end.
fn judge_same<K: PartialEq>(wanted: &[K], list: &[K], cause: Cause) -> Result<(), Refused> {
    for at in 0..16u16 {
        let differs = wanted.get(at as usize) != list.get(at as usize);
        refuse_at(differs, cause, at)?;
    }
    Ok(())
}

/// The enqueued items have the kinds of the template's.
fn judge_items(alloc: Global, template: &[Item], items: &[Item]) -> Result<(), Refused> {
    let wanted = item_kinds(alloc, template)?;
    let kinds = item_kinds(alloc, items)?;
    judge_same(wanted.as_slice(), kinds.as_slice(), Cause::ItemDiffers)
}

/// These are the kinds of the template's actions.
pub(crate) fn judge_kinds(
    alloc: Global,
    template: &[Action],
    kinds: &[ActionKind],
) -> Result<(), Refused> {
    let wanted = action_kinds(alloc, template)?;
    judge_same(wanted.as_slice(), kinds, Cause::ActionDiffers)
}

/// The actions of a rule: the values that the template sets, and its own elsewhere.
fn bound_actions(lists: &ActionLists, own: &Actions) -> Result<Actions, AllocError> {
    let mut bound = own.clone()?;
    let template = lists.actions.list.as_slice();
    let values = template.iter().zip(&lists.masks.set);
    for (action, (value, is_set)) in bound.list.as_mut_slice().iter_mut().zip(values) {
        if *is_set {
            *action = value.copied();
        }
    }
    Ok(bound)
}

/// The rule, which isn't judged yet. Items without numbers stay as they are.
pub(crate) fn bound(port: &PlainPort, place: Place, own: &RuleLists) -> Result<RuleSpec, Refused> {
    let table = wanted(find(port.tables.as_slice(), place.table), Cause::NoObject)?;
    let ids = table.templates.get();
    let pattern = ids.patterns.as_slice().get(place.pt as usize);
    let pattern = *wanted(pattern, Cause::TemplateIndex)?;
    let actions = ids.actions.as_slice().get(place.act as usize);
    let actions = *wanted(actions, Cause::TemplateIndex)?;
    let pattern = wanted(find(port.patterns.as_slice(), pattern), Cause::NoObject)?.get();
    let lists = wanted(find(port.actions.as_slice(), actions), Cause::NoObject)?.get();
    let items = own.pattern.items.as_slice();
    judge_items(port.alloc, pattern.items.as_slice(), items)?;
    let kinds = action_kinds(port.alloc, own.actions.list.as_slice())?;
    judge_kinds(port.alloc, lists.actions.list.as_slice(), kinds.as_slice())?;
    Ok(RuleSpec {
        attr: table.attr,
        pattern: own.pattern.clone()?,
        actions: bound_actions(lists, &own.actions)?,
    })
}
