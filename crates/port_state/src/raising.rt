//! Counters rise with the frames that name them.
ghost use Rattle.std.specs.Prelude.{◌≡◌, ◌≤◌, true, [], ◌∷◌, map, flat_map, length, IfSome};
ghost use Rattle.std.specs.Option.{option_to_list};
ghost use Rattle.flow_rules.specs.declared.counter.Counter.{Counter as CounterView};
ghost use Rattle.flow_rules.specs.Shared.{shared_at, value_in, counter_in};
ghost use Rattle.flow_rules.specs.Naming.{named_by, namings_of, rule_at};
ghost use Rattle.rules_in_effect.specs.Entries.{rule_in};
ghost use Rattle.indirect_counters.specs.Entries.{values_in_effect};
ghost use Rattle.port_state.specs.KeptState.{count_kept};
ghost use Rattle.port_state.specs.Raising.{Raises, HasRoomFor, IsKept, IsNamed, IsSharedThere, actions_in, is_count_of, naming_at};

use crate::state::value_of;
use flow_actions::Action;
use flow_rules::{Counter, is_count};
use indirect_counters::Indirects;
use rules_in_effect::RulesInEffect;

/// Counts a frame of so many bytes for the rules of these ids, in order.
pub(crate) fn raise_all(rules: &mut RulesInEffect, shared: &mut Indirects, path: &[u32], bytes: u32)
    requires few { length path.now ≤ 16 }
    requires room { (c : CounterView) → HasRoomFor 256 (count_kept rules.old.list shared.old.entries c) }
    ensures raises { Raises rules.old.list shared.old.entries rules.new.list shared.new.entries
        (flat_map (λ id. namings_of (values_in_effect shared.old.entries) (rule_at id (map rule_in rules.old.list))) path.now) bytes }
    ensures few { length (flat_map (λ id. namings_of (values_in_effect shared.old.entries) (rule_at id (map rule_in rules.old.list))) path.now) ≤ 256 }
{
    for place in 0..path.len() {
        raise_rule(rules, shared, path[place], bytes);
    }
}

/// Counts a frame of so many bytes for each action of a rule that comes to COUNT.
fn raise_rule(rules: &mut RulesInEffect, shared: &mut Indirects, id: u32, bytes: u32)
    requires room { (c : CounterView) → HasRoomFor 16 (count_kept rules.old.list shared.old.entries c) }
    ensures raises { Raises rules.old.list shared.old.entries rules.new.list shared.new.entries
        (namings_of (values_in_effect shared.old.entries) (rule_at id (map rule_in rules.old.list))) bytes }
    ensures few { length (namings_of (values_in_effect shared.old.entries) (rule_at id (map rule_in rules.old.list))) ≤ 16 }
{
    for place in 0..actions_of(rules, id) {
        if let Some(counter) = named_at(rules, shared, id, place) {
            raise_one(rules, shared, counter, bytes);
        }
    }
}

/// How many actions the rule of an id has.
fn actions_of(rules: &RulesInEffect, id: u32) -> usize
    ensures number { result ≡ length (actions_in (rule_at id (map rule_in rules.now.list))) }
    ensures few { result ≤ 16 }
{
    match rules.get(id) {
        Some(entry) => entry.rule.get().actions().list.len(),
        None => 0,
    }
}

/// The counter that the action at a place of a rule names, if it comes to COUNT.
fn named_at(rules: &RulesInEffect, shared: &Indirects, id: u32, place: usize) -> Option<Counter>
    ensures named { option_to_list result ≡ naming_at (values_in_effect shared.now.entries) (rule_at id (map rule_in rules.now.list)) place }
    ensures there { IfSome result (λ counter. IsKept counter rules.now.list shared.now.entries) }
{
    let Some(entry) = rules.get(id) else {
        return None;
    };
    let rule = entry.rule.get();
    let list = rule.actions().list.as_slice();
    if place >= list.len() {
        return None;
    }
    named_by(shared, rule.id(), &list[place])
}

/// The counter that an action of a rule names, if it comes to COUNT.
fn named_by(shared: &Indirects, rule: u32, action: &Action) -> Option<Counter>
    ensures named { option_to_list result ≡ named_by (counter_in rule action.now) (value_in (values_in_effect shared.now.entries) action.now) }
    ensures there { IfSome result (IsNamed rule shared.now.entries) }
{
    match action {
        Action::Count => Some(Counter::Rule(rule)),
        Action::Indirect(id) => {
            if is_shared_count(shared, *id) {
                Some(Counter::Shared(*id))
            } else {
                None
            }
        }
        Action::Void
        | Action::Queue(_)
        | Action::Rss(_)
        | Action::Drop
        | Action::Jump(_)
        | Action::Mark(_)
        | Action::Set(_) => None,
    }
}

/// Whether the shared action of an id is COUNT.
fn is_shared_count(shared: &Indirects, id: u32) -> bool
    ensures value { result ≡ is_count_of (shared_at id (values_in_effect shared.now.entries)) }
    ensures there { result ≡ true → IsSharedThere id shared.now.entries }
{
    match value_of(shared, id) {
        Some(action) => is_count(action),
        None => false,
    }
}

/// Counts a frame of so many bytes.
fn raise_one(rules: &mut RulesInEffect, shared: &mut Indirects, counter: Counter, bytes: u32)
    requires there { IsKept counter rules.old.list shared.old.entries }
    requires room { HasRoomFor 1 (count_kept rules.old.list shared.old.entries counter) }
    ensures { Raises rules.old.list shared.old.entries rules.new.list shared.new.entries (counter ∷ []) bytes }
{
    match counter {
        Counter::Rule(id) => rules.raise(id, bytes),
        Counter::Shared(id) => shared.raise(id as u16, bytes),
    }
}
