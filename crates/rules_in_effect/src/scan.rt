//! Scans of the rules in effect.
ghost use Rattle.std.specs.Prelude.{◌≡◌, map, count_by};
ghost use Rattle.std.specs.Option.{option_map};
ghost use Rattle.std.specs.List.{list_any};
ghost use Rattle.flow_rules.specs.Best as spec;
ghost use Rattle.rules_in_effect.specs.Entries.{rule_in, is_plain, is_user};
ghost use Rattle.rules_in_effect.specs.Scan.{is_lower, next_best, scanned};

use crate::in_effect::InEffect;
use flow_rules::{Rule, has_shared};
use packet_headers::Key;

/// The best rule of a group so far, or one of these that comes before it and takes a frame of these layers.
pub(crate) fn better_of<'a>(
    entries: &'a [InEffect],
    so_far: Option<&'a Rule>,
    group: u32,
    key: &Key,
) -> Option<&'a Rule>
    ensures { option_map (λ rule. rule.now) result ≡ scanned group key.now (option_map (λ rule. rule.now) so_far.entry) entries.entry.now }
{
    let mut best = so_far;
    for entry in entries {
        best = better(entry.rule.get(), best, group, key);
    }
    best
}

/// The best rule so far, or a later one that comes before it and takes a frame of these layers, in this group.
fn better<'a>(rule: &'a Rule, best: Option<&'a Rule>, group: u32, key: &Key) -> Option<&'a Rule>
    ensures { option_map (λ rule. rule.now) result ≡ next_best group key.now (option_map (λ rule. rule.now) best.entry) rule.entry.now }
{
    if !comes_before(rule, best) {
        return best;
    }
    if !takes(rule, group, key) {
        return best;
    }
    Some(rule)
}

/// Whether a rule takes a frame of these layers, in this group.
fn takes(rule: &Rule, group: u32, key: &Key) -> bool
    ensures { result ≡ spec.takes group key.now rule.now }
{
    if rule.group() != group {
        return false;
    }
    rule.test().matches(key)
}

/// Whether a later rule comes before the best one so far: its priority number is lower.
fn comes_before(rule: &Rule, best: Option<&Rule>) -> bool
    ensures { result ≡ is_lower rule.now (option_map (λ rule. rule.now) best.entry) }
{
    match best {
        Some(best) => rule.priority() < best.priority(),
        None => true,
    }
}

/// Whether one of these rules uses the shared action of this id.
pub(crate) fn is_used_in(entries: &[InEffect], id: u32) -> bool
    ensures { result ≡ list_any (is_user id) entries.now }
{
    entries.iter().any(|entry| is_user(entry, id))
}

/// Whether a rule uses the shared action of this id.
fn is_user(entry: &InEffect, id: u32) -> bool
    ensures { result ≡ is_user id entry.now }
{
    has_shared(id, entry.rule.get().actions().list.as_slice())
}
