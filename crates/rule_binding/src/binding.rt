//! Rules bound to their templates.
ghost use Rattle.std.specs.Prelude.{◌≡◌, ◌≤◌, ◌<◌, ◌+◌, ◌++◌, ◌^◌, length, IfOk};
ghost use Rattle.std.specs.Result.{result_err};
ghost use Rattle.flow_rules.specs.Faults.{first};
ghost use Rattle.rule_binding.specs.Binding.{item_faults, binding_faults, bound_item, bound_items, bound_action, bound_actions, bound_rule};

use crate::difference::difference;
use crate::masks::has_bits;
use crate::template::{ActionsTemplate, PatternTemplate, TemplateAction, TemplateItem};
use arrayvec::ArrayVec;
use flow_actions::{Action, Actions, MAX_ACTIONS};
use flow_rules::{Attr, Cause, Fault, RuleSpec};
use packet_headers::ItemKind;
use pattern_items::{Item, MAX_ITEMS, Pattern};

/// The rule of these items and actions that is bound to its templates, with the attributes of its table, or the first fault.
pub fn bind(
    attr: &Attr,
    items: &PatternTemplate,
    list: &ActionsTemplate,
    pattern: &Pattern,
    actions: &Actions,
) -> Result<RuleSpec, Fault>
    ensures rule { IfOk result (λ rule. rule ≡ bound_rule attr.now items.now list.now pattern.now actions.now) }
    ensures fault { result_err result ≡ first (binding_faults items.now list.now pattern.now actions.now) }
{
    if let Some(fault) = binding_fault(items, list, pattern, actions) {
        return Err(fault);
    }
    let mut bound = ArrayVec::new();
    bind_items(&mut bound, items.items.as_slice(), pattern.items.as_slice());
    let mut done = ArrayVec::new();
    bind_actions(&mut done, list.list.as_slice(), actions.list.as_slice());
    Ok(RuleSpec {
        attr: *attr,
        pattern: Pattern {
            items: bound,
            more: 0,
        },
        actions: Actions {
            list: done,
            more: 0,
        },
    })
}

fn fault(cause: Cause, at: u16) -> Fault
    ensures { result ≡ record { cause = cause; at = at } }
{
    Fault { cause, at }
}

/// The first fault of binding a rule.
fn binding_fault(
    items: &PatternTemplate,
    list: &ActionsTemplate,
    pattern: &Pattern,
    actions: &Actions,
) -> Option<Fault>
    ensures { result ≡ first (binding_faults items.now list.now pattern.now actions.now) }
{
    if pattern.more > 0 {
        return Some(fault(Cause::TooManyItems, 0));
    }
    if actions.more > 0 {
        return Some(fault(Cause::TooManyActions, 0));
    }
    if let Some(at) = difference(items.items.as_slice(), 0, pattern.items.as_slice()) {
        return Some(fault(Cause::ItemDiffers, at));
    }
    if let Some(fault) = item_fault(0, items.items.as_slice(), pattern.items.as_slice()) {
        return Some(fault);
    }
    let at = difference(list.list.as_slice(), 0, actions.list.as_slice())?;
    Some(fault(Cause::ActionDiffers, at))
}

/// The first fault of the items from a place on, where their kinds are those of the template.
fn item_fault(place: u16, template: &[TemplateItem], items: &[Item]) -> Option<Fault>
    requires { place + length items.now < 2 ^ 16 }
    ensures { result ≡ first (item_faults place template.now items.now) }
{
    let (wanted, behind) = template.split_first()?;
    let (item, items) = items.split_first()?;
    if item.kind == ItemKind::Void {
        return item_fault(place + 1, template, items);
    }
    if item.last.is_some() {
        return Some(fault(Cause::LastInTemplate, place));
    }
    if has_bits(&wanted.mask) && item.given.is_none() {
        return Some(fault(Cause::SpecNeeded, place));
    }
    item_fault(place + 1, behind, items)
}

/// An item with the template's mask.
fn bound_item(wanted: &TemplateItem, item: &Item) -> Item
    ensures { result ≡ bound_item wanted.now item.now }
{
    if has_bits(&wanted.mask) {
        return Item {
            kind: item.kind,
            given: item.given,
            last: None,
            mask: wanted.mask,
        };
    }
    Item {
        kind: item.kind,
        given: None,
        last: None,
        mask: None,
    }
}

/// Adds the items, bound to those of a template.
#[tactic(auto, using(std::proofs::lemmas::List::append_assoc))]
fn bind_items(bound: &mut ArrayVec<Item, MAX_ITEMS>, template: &[TemplateItem], items: &[Item])
    requires { length bound.old.items + length items.now ≤ 16 }
    ensures { bound.new.items ≡ bound.old.items ++ bound_items template.now items.now }
{
    let Some((item, items)) = items.split_first() else {
        return;
    };
    let Some((wanted, behind)) = template.split_first() else {
        bound.push(*item);
        bind_items(bound, template, items);
        return;
    };
    if item.kind == ItemKind::Void {
        bound.push(*item);
        bind_items(bound, template, items);
        return;
    }
    bound.push(bound_item(wanted, item));
    bind_items(bound, behind, items);
}

/// An action with the template's value, where all rules share it.
fn bound_action(wanted: &TemplateAction, action: &Action) -> Action
    ensures { result ≡ bound_action wanted.now action.now }
{
    if wanted.fixed {
        return wanted.action.copied();
    }
    action.copied()
}

/// Adds the actions, bound to those of a template.
#[tactic(auto, using(std::proofs::lemmas::List::append_assoc))]
fn bind_actions(
    done: &mut ArrayVec<Action, MAX_ACTIONS>,
    template: &[TemplateAction],
    list: &[Action],
)
    requires { length done.old.items + length list.now ≤ 16 }
    ensures { done.new.items ≡ done.old.items ++ bound_actions template.now list.now }
{
    let Some((action, list)) = list.split_first() else {
        return;
    };
    let Some((wanted, behind)) = template.split_first() else {
        done.push(action.copied());
        bind_actions(done, template, list);
        return;
    };
    if action.is_void() {
        done.push(action.copied());
        bind_actions(done, template, list);
        return;
    }
    done.push(bound_action(wanted, action));
    bind_actions(done, behind, list);
}
