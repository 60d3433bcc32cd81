//! The rules in effect.
ghost use Rattle.std.specs.Prelude.{◌≡◌, ◌+◌, ◌≤◌, [], ◌∷◌, ◌++◌, None, length, map, drop, slice_get, count_by, if◌then◌else◌, IfOk, OnOk};
ghost use Rattle.std.specs.Option.{option_copied, option_map, is_none};
ghost use Rattle.std.specs.List.{list_any};
ghost use Rattle.flow_rules.specs.Best as spec;
ghost use Rattle.flow_rules.specs.Naming.{HaveOwnIds};
ghost use Rattle.rules_in_effect.specs.Entries.{rule_in, is_plain, is_user, entry_at, without, raised, AreDistinct, CanCount};

use crate::in_effect::InEffect;
use crate::index::IdIndex;
use crate::order::Order;
use flow_rules::{Count, Rule};
use packet_headers::Key;
use shared_value::Shared;
use std::alloc::{AllocError, Global};
use std::marker::Model;

/// The rules in effect, in the order in which they took effect. No two have one id.
#[derive(Drop)]
pub struct RulesInEffect {
    order: Order,
    /// The handle of each rule, by its id.
    index: IdIndex,
    /// How many rules stand in no table.
    plain: usize,
}

impl Model for RulesInEffect {
    ghost use Rattle.rules_in_effect.specs.RulesView.{RulesView};

    ghost Value = { RulesView };

    ghost use Rattle.rules_in_effect.specs.Inside.{view_of, IsSound};

    ghost view = { view_of };

    ghost invariant = { IsSound };
}

impl RulesInEffect {
    /// No rules. This takes no memory.
    pub fn new(alloc: Global) -> RulesInEffect
        ensures { result.list ≡ [] }
    {
        RulesInEffect {
            order: Order::new(alloc),
            index: IdIndex::new(alloc),
            plain: 0,
        }
    }

    /// How many rules there are.
    pub fn len(&self) -> usize
        ensures value { result ≡ length self.now.list }
        ensures distinct { AreDistinct self.now.list }
        ensures own { HaveOwnIds (map rule_in self.now.list) }
    {
        self.order.len()
    }

    /// How many of them stand in no table.
    pub fn plain_len(&self) -> usize
        ensures { result ≡ count_by is_plain self.now.list }
    {
        self.plain
    }

    /// Takes memory for so many rules more. Above 2^31 rules in all there is none.
    pub fn reserve(&mut self, more: u32) -> Result<(), AllocError>
        ensures same { self.new.list ≡ self.old.list }
        ensures room { OnOk result (more ≤ self.new.room) }
    {
        self.index.reserve(more)?;
        self.order.reserve(more)
    }

    /// A rule takes effect behind all others, in room for one. Nothing is counted yet.
    pub fn push(&mut self, rule: Shared<Rule>, table: Option<u16>)
        requires room { 1 ≤ self.old.room }
        requires fresh { entry_at rule.id self.old.list ≡ None }
        ensures list { self.new.list ≡ self.old.list ++ record { rule = rule; table = table; count = record { hits = 0; bytes = 0 } } ∷ [] }
        ensures left { self.old.room ≤ self.new.room + 1 }
    {
        let id = rule.get().id();
        let handle = self.order.append(InEffect {
            rule,
            table,
            count: Count { hits: 0, bytes: 0 },
        });
        self.index.insert(id, handle);
        self.plain += one_if_plain(table);
    }

    /// Takes the rule of this id out, if it is in effect.
    pub fn remove(&mut self, id: u32) -> Option<InEffect>
        ensures entry { result ≡ entry_at id self.old.list }
        ensures others { self.new.list ≡ without id self.old.list }
        ensures room { self.old.room ≤ self.new.room }
    {
        let Some(handle) = self.index.get(id) else {
            return None;
        };
        self.index.remove(id);
        let entry = self.order.take(handle);
        self.plain -= one_if_plain(entry.table);
        Some(entry)
    }

    /// Takes the rule out that took effect first.
    pub fn pop_first(&mut self) -> Option<InEffect>
        ensures entry { result ≡ slice_get self.old.list 0 }
        ensures others { self.new.list ≡ drop 1 self.old.list }
        ensures room { self.old.room ≤ self.new.room }
    {
        let Some(id) = self.first_id() else {
            return None;
        };
        self.remove(id)
    }

    /// The id of the rule that took effect first.
    fn first_id(&self) -> Option<u32>
        ensures value { result ≡ option_map (λ entry. entry.rule.id) (slice_get self.now.list 0) }
        ensures distinct { AreDistinct self.now.list }
    {
        match self.order.first() {
            Some(entry) => Some(entry.rule.get().id()),
            None => None,
        }
    }

    /// All rules go.
    pub fn clear(&mut self)
        ensures list { self.new.list ≡ [] }
        ensures room { self.old.room ≤ self.new.room }
    {
        while self.pop_first().is_some() {}
    }

    /// Whether a rule uses the shared action of this id.
    pub fn is_used(&self, id: u32) -> bool
        ensures { result ≡ list_any (is_user id) self.now.list }
    {
        self.order.is_used(id)
    }

    /// The rule of this id, if it is in effect.
    pub fn get(&self, id: u32) -> Option<&InEffect>
        ensures { option_copied result ≡ entry_at id self.now.list }
    {
        let Some(handle) = self.index.get(id) else {
            return None;
        };
        self.order.get(handle)
    }

    /// Counts one frame more, of so many bytes, for the rule of this id.
    pub fn raise(&mut self, id: u32, bytes: u32)
        requires { CanCount bytes (entry_at id self.old.list) }
        ensures list { self.new.list ≡ raised id bytes self.old.list }
        ensures room { self.new.room ≡ self.old.room }
    {
        let Some(handle) = self.index.get(id) else {
            unreachable!()
        };
        self.order.hit(handle, bytes);
    }

    /// The rule of a group that takes a frame of these layers.
    pub fn best(&self, group: u32, key: &Key) -> Option<&Rule>
        ensures { option_map (λ rule. rule.now) result ≡ spec.best (map rule_in self.now.list) group key.now }
    {
        self.order.best(group, key)
    }

    /// All rules, in the order in which they took effect.
    pub fn rows(&self, alloc: Global) -> Result<Vec<&InEffect>, AllocError>
        ensures { IfOk result (λ rows. map (λ row. row.now) rows.items ≡ self.now.list) }
    {
        self.order.rows(alloc)
    }
}

/// One for a rule that stands in no table.
fn one_if_plain(table: Option<u16>) -> usize
    ensures { result ≡ (if is_none table then 1 else 0) }
{
    match table {
        None => 1,
        Some(_) => 0,
    }
}
