//! Rules as the tests ask for them.
ghost use Rattle.std.specs.Prelude.{◌≡◌, ◌<◌};

use flow_rules::{Limits, Rule, RuleSpec, validate};
use packet_headers::ItemKind;
use pattern_items::{Fields, Item};
use rule_index::RuleIndex;
use std::alloc::{AllocError, Global};
use std::process::Abort;
use std::sync::Arc;
use test_rules::{NoneShared, actions_of, ingress, pattern_of};

const LIMITS: Limits = Limits {
    rxq: 1,
    flow_max: 1,
};

const NONE: Fields = Fields { v: [0; 6] };

/// An item that asks for a field's number, or, where `last` isn't 0, for one up to that.
pub fn asks(kind: ItemKind, field: usize, number: u128, last: u128) -> Item
    requires { field < 6 }
{
    let mut given = NONE;
    given.v[field] = number;
    let mut until = NONE;
    until.v[field] = last;
    let mut mask = NONE;
    mask.v[field] = u128::MAX;
    Item {
        kind,
        given: Some(given),
        last: Some(until),
        mask: Some(mask),
    }
}

/// The rule of these items, or none where they have a fault.
pub fn made(rt: &impl Abort, id: u32, group: u32, priority: u32, items: &[Item]) -> Option<Rule> {
    let spec = RuleSpec {
        attr: ingress(group, priority),
        pattern: pattern_of(items),
        actions: actions_of(&[]),
    };
    validate(&spec, &LIMITS, &NoneShared, id).ok()
}

/// The rule of these items, which have no fault.
pub fn rule(rt: &impl Abort, id: u32, group: u32, priority: u32, items: &[Item]) -> Rule {
    let Some(rule) = made(rt, id, group, priority, items) else {
        panic!(rt; "rule {id} has a fault")
    };
    rule
}

/// Puts a rule with a new id into an index that has room.
pub fn put(rt: &impl Abort, index: &mut RuleIndex, rule: &Rule) -> Result<(), AllocError> {
    assert!(rt; index.rule(rule.id()).is_none());
    assert!(rt; index.len() < 131_072);
    assert!(rt; index.inserts() < u64::MAX);
    index.insert(rule)
}

/// The same without a copy.
pub fn put_shared(
    rt: &impl Abort,
    index: &mut RuleIndex,
    rule: &Arc<Rule, Global>,
) -> Result<(), AllocError> {
    assert!(rt; index.rule(rule.id()).is_none());
    assert!(rt; index.len() < 131_072);
    assert!(rt; index.inserts() < u64::MAX);
    index.insert_shared(rule)
}
