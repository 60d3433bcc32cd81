//! Actions templates: what they keep of their actions, and when they are refused.
ghost use Rattle.std.specs.Prelude.{◌≡◌, ◌≤◌, ◌+◌, ◌++◌, length};
ghost use Rattle.flow_rules.specs.Faults.{first};
ghost use Rattle.rule_binding.specs.Templates.{actions_template_of, actions_faults, kinds_done, set_kinds, template_actions};

use crate::difference::difference;
use crate::template::{ActionsTemplate, Masks, TemplateAction};
use arrayvec::ArrayVec;
use flow_actions::{Action, ActionKind, Actions, MAX_ACTIONS};
use flow_rules::{Attr, Cause, Fault, direction_fault};

/// The template that actions and a mask list are.
pub fn actions_template(actions: &Actions, masks: &Masks) -> ActionsTemplate
    ensures { result ≡ actions_template_of actions.now masks.now }
{
    let mut fixed = ArrayVec::new();
    set_kinds(&mut fixed, masks.kinds.as_slice(), &masks.set);
    let mut list = ArrayVec::new();
    template_actions(&mut list, actions.list.as_slice(), fixed.as_slice());
    ActionsTemplate { list }
}

/// Adds for each kind but `Void` whether its value is set.
#[tactic(auto, using(std::proofs::lemmas::List::append_assoc))]
fn set_kinds(fixed: &mut ArrayVec<bool, MAX_ACTIONS>, kinds: &[ActionKind], set: &[bool])
    requires { length fixed.old.items + length kinds.now ≤ 16 }
    ensures { fixed.new.items ≡ fixed.old.items ++ set_kinds kinds.now set.now }
{
    let Some((kind, kinds)) = kinds.split_first() else {
        return;
    };
    let Some((is_set, set)) = set.split_first() else {
        return;
    };
    if *kind == ActionKind::Void {
        set_kinds(fixed, kinds, set);
        return;
    }
    fixed.push(*is_set);
    set_kinds(fixed, kinds, set);
}

/// Adds what a template keeps of actions.
#[tactic(auto, using(std::proofs::lemmas::List::append_assoc))]
fn template_actions(
    kept: &mut ArrayVec<TemplateAction, MAX_ACTIONS>,
    list: &[Action],
    fixed: &[bool],
)
    requires { length kept.old.items + length list.now ≤ 16 }
    ensures { kept.new.items ≡ kept.old.items ++ template_actions list.now fixed.now }
{
    let Some((action, list)) = list.split_first() else {
        return;
    };
    if action.is_void() {
        template_actions(kept, list, fixed);
        return;
    }
    let (is_fixed, fixed) = match fixed.split_first() {
        Some((is_fixed, fixed)) => (*is_fixed, fixed),
        None => (false, fixed),
    };
    kept.push(TemplateAction {
        action: action.copied(),
        fixed: is_fixed,
    });
    template_actions(kept, list, fixed);
}

/// The first fault of an actions template, but those of its id.
pub fn actions_fault(attr: &Attr, actions: &Actions, masks: &Masks) -> Option<Fault>
    ensures { result ≡ first (actions_faults attr.now actions.now masks.now) }
{
    if let Some(fault) = direction_fault(attr) {
        return Some(fault);
    }
    if actions.more > 0 || masks.more > 0 {
        return Some(Fault {
            cause: Cause::TooManyActions,
            at: 0,
        });
    }
    let kinds = kinds_done(actions.list.as_slice());
    let at = difference(kinds.as_slice(), 0, masks.kinds.as_slice())?;
    Some(Fault {
        cause: Cause::ActionDiffers,
        at,
    })
}

/// The kinds of the actions, `Void` left out.
fn kinds_done(list: &[Action]) -> ArrayVec<ActionKind, MAX_ACTIONS>
    requires { length list.now ≤ 16 }
    ensures { result.items ≡ kinds_done list.now }
{
    let mut kinds = ArrayVec::new();
    for action in list {
        if action.is_void() {
            continue;
        }
        kinds.push(action.kind());
    }
    kinds
}
