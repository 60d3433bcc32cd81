//! Rules bound to their templates, row by row.
use crate::made::{INGRESS, each, masks};
use flow_actions::{Action, ActionKind};
use flow_rules::{Cause, Fault, RuleSpec};
use packet_headers::ItemKind;
use pattern_items::{Item, Pattern};
use rule_binding::{actions_template, bind, pattern_template};
use std::process::Abort;
use test_rules::{actions_of, any, pattern_of};

/// `eth / void / ipv4 mask 0xff00`, each field by the mask.
fn template(rt: &impl Abort) -> Pattern {
    let mut masked = any(ItemKind::Ipv4);
    masked.mask = Some(each(0xff00));
    pattern_of(&[any(ItemKind::Eth), any(ItemKind::Void), masked])
}

/// An item of IPv4 with numbers and another mask.
fn numbers() -> Item {
    let mut item = any(ItemKind::Ipv4);
    item.given = Some(each(0x1234));
    item.mask = Some(each(1));
    item
}

/// Bound to these items, and to the actions `queue index 3 / mark`, of which the queue is fixed.
fn bound(rt: &impl Abort, items: &[Item], list: &[Action]) -> Result<RuleSpec, Fault> {
    let fixed = actions_of(&[Action::Queue(3), Action::Mark(0)]);
    let list_template = actions_template(
        &fixed,
        &masks(rt, &[ActionKind::Queue, ActionKind::Mark]),
    );
    bind(
        &INGRESS,
        &pattern_template(&template(rt)),
        &list_template,
        &pattern_of(items),
        &actions_of(list),
    )
}

fn is_refused(rule: &Result<RuleSpec, Fault>, cause: Cause, at: u16) -> bool {
    match rule {
        Ok(_) => false,
        Err(fault) => *fault == Fault { cause, at },
    }
}

#[test]
fn a_mask_needs_a_spec(rt: HostRuntime) {
    let rule = bound(
        &rt,
        &[any(ItemKind::Eth), any(ItemKind::Ipv4)],
        &[Action::Queue(0), Action::Mark(7)],
    );
    assert!(rt; is_refused(&rule, Cause::SpecNeeded, 1));
}

#[test]
fn places_count_void(rt: HostRuntime) {
    let rule = bound(
        &rt,
        &[any(ItemKind::Void), any(ItemKind::Eth), any(ItemKind::Udp)],
        &[Action::Queue(0), Action::Mark(7)],
    );
    assert!(rt; is_refused(&rule, Cause::ItemDiffers, 2));
}

#[test]
fn a_short_list_differs_at_its_length(rt: HostRuntime) {
    let rule = bound(
        &rt,
        &[any(ItemKind::Eth), numbers()],
        &[Action::Void, Action::Queue(0)],
    );
    assert!(rt; is_refused(&rule, Cause::ActionDiffers, 2));
}

#[test]
fn the_template_has_masks_and_fixed_values(rt: HostRuntime) {
    let rule = bound(
        &rt,
        &[any(ItemKind::Eth), numbers()],
        &[Action::Queue(0), Action::Mark(7)],
    );
    let Ok(rule) = rule else {
        panic!(rt; "refused");
    };
    assert!(rt; rule.pattern.items.len() == 2 && rule.actions.list.len() == 2);
    assert!(rt;
        rule.pattern.items[1].given == Some(each(0x1234))
            && rule.pattern.items[1].mask == Some(each(0xff00))
    );
    assert!(rt;
        rule.actions.list[0] == Action::Queue(3) && rule.actions.list[1] == Action::Mark(7)
    );
}
