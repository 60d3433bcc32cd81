//! The index.
ghost use Rattle.std.specs.Prelude.{◌≡◌, ◌<◌, ◌+◌, ◌^◌, ◌-◌, ◌++◌, ◌∷◌, [], None, Some, false, length, IfOk, OnOk, OnErr};
ghost use Rattle.std.specs.Option.{option_map};
ghost use Rattle.std.specs.Arc.{arc_value};
ghost use Rattle.flow_rules.specs.Best as spec;
ghost use Rattle.flow_rules.specs.RuleView.{RuleView};
ghost use Rattle.flow_rules.specs.Changes.{without};
ghost use Rattle.rule_index.specs.Index.{IsIndexed};
ghost use Rattle.rule_index.specs.IndexView.{no_rules, named};
ghost use Rattle.rule_index.specs.Rank.{present};

use crate::finder::{Finder, find, forget, put, renew, rule_at};
use crate::scan::best_of;
use crate::slot::RuleSlot;
use flow_rules::Rule;
use packet_headers::Key;
use std::alloc::{AllocError, Global};
use std::marker::Model;
use std::sync::Arc;

/// The most places, those of removed rules among them: far more than there may be rules.
const MAX_PLACES: usize = 1_048_576;

/// So many places without a rule are left, however few rules there are.
const SPARE_PLACES: usize = 64;

/// Rules in the order of their inserts, kept so that the best of a group is found.
#[derive(Drop)]
pub struct RuleIndex {
    alloc: Global,
    slots: Vec<RuleSlot>,
    finder: Finder,
    /// How many rules there are.
    count: usize,
    inserts: u64,
}

impl Model for RuleIndex {
    ghost use Rattle.rule_index.specs.IndexView.{IndexView};

    ghost Value = { IndexView };

    ghost use Rattle.rule_index.specs.Rank.{present};
    ghost use Rattle.rule_index.specs.Index.{IsSound};

    ghost view = { λ a. record { rules = present a.slots.items; inserts = a.inserts } };

    ghost invariant = { λ a. IsSound a.slots.items a.finder a.count };
}

/// Whether the places are to be counted anew: as many are without a rule as with one, or there are too many.
fn is_worn(places: usize, count: usize) -> bool
    ensures { result ≡ false → places < 1048576 }
{
    if places >= MAX_PLACES {
        return true;
    }
    places / 2 > count.saturating_add(SPARE_PLACES)
}

/// Counts the places anew where that is due, so that one more has room.
fn make_room(
    alloc: Global,
    slots: &mut Vec<RuleSlot>,
    finder: &mut Finder,
    count: usize,
) -> Result<(), AllocError>
    requires indexed { IsIndexed slots.old.items finder.old }
    requires few { length (present slots.old.items) < 131072 }
    ensures indexed { IsIndexed slots.new.items finder.new }
    ensures present { present slots.new.items ≡ present slots.old.items }
    ensures room { OnOk result (length slots.new.items < 1048576) }
{
    if !is_worn(slots.as_slice().len(), count) {
        return Ok(());
    }
    renew(alloc, slots, finder)?;
    Ok(())
}

impl RuleIndex {
    /// Without rules.
    pub fn new(alloc: Global) -> Result<RuleIndex, AllocError>
        ensures { IfOk result (λ index. index ≡ no_rules) }
    {
        Ok(RuleIndex {
            alloc,
            slots: Vec::new(alloc),
            finder: Finder::new(alloc),
            count: 0,
            inserts: 0,
        })
    }

    /// Puts the rule behind the others, in its slot.
    fn enter(&mut self, rule: &Rule, slot: RuleSlot) -> Result<(), AllocError>
        requires new { named rule.now.id self.old.rules ≡ None }
        requires few { length self.old.rules < 131072 }
        requires inserts { self.old.inserts < 2 ^ 64 - 1 }
        requires slot { slot ≡ Some rule.now }
        ensures ok { OnOk result (self.new ≡ record { rules = self.old.rules ++ rule.now ∷ []; inserts = self.old.inserts + 1 }) }
        ensures err { OnErr result (self.new ≡ self.old) }
    {
        make_room(self.alloc, &mut self.slots, &mut self.finder, self.count)?;
        put(self.alloc, &mut self.slots, &mut self.finder, rule, slot)?;
        self.count += 1;
        self.inserts += 1;
        Ok(())
    }

    /// Puts a copy of the rule behind the others.
    pub fn insert(&mut self, rule: &Rule) -> Result<(), AllocError>
        requires new { named rule.now.id self.old.rules ≡ None }
        requires few { length self.old.rules < 131072 }
        requires inserts { self.old.inserts < 2 ^ 64 - 1 }
        ensures ok { OnOk result (self.new ≡ record { rules = self.old.rules ++ rule.now ∷ []; inserts = self.old.inserts + 1 }) }
        ensures err { OnErr result (self.new ≡ self.old) }
    {
        let slot = RuleSlot::with_copy(self.alloc, rule)?;
        self.enter(rule, slot)
    }

    /// The same without a copy: this index and all others that get it share the rule.
    pub fn insert_shared(&mut self, rule: &Arc<Rule, Global>) -> Result<(), AllocError>
        requires new { named (arc_value rule.now).id self.old.rules ≡ None }
        requires few { length self.old.rules < 131072 }
        requires inserts { self.old.inserts < 2 ^ 64 - 1 }
        ensures ok { OnOk result (self.new ≡ record { rules = self.old.rules ++ arc_value rule.now ∷ []; inserts = self.old.inserts + 1 }) }
        ensures err { OnErr result (self.new ≡ self.old) }
    {
        let slot = RuleSlot::with_share(rule)?;
        self.enter(rule, slot)
    }

    /// How many rules there are.
    pub fn len(&self) -> usize
        ensures { result ≡ length self.now.rules }
    {
        self.count
    }

    /// How many inserts succeeded.
    pub fn inserts(&self) -> u64
        ensures { result ≡ self.now.inserts }
    {
        self.inserts
    }

    /// Takes out the rule of this id, and nothing where there is none.
    pub fn remove(&mut self, id: u32)
        ensures { self.new ≡ record self.old { rules = without id self.old.rules } }
    {
        let Some(place) = find(self.slots.as_slice(), &self.finder, id) else {
            return;
        };
        forget(self.slots.as_mut_slice(), &mut self.finder, id, place);
        self.count = self.count.saturating_sub(1);
    }

    /// Takes out all rules.
    pub fn clear(&mut self)
        ensures { self.new ≡ record self.old { rules = [] } }
    {
        self.slots.clear();
        self.finder.clear();
        self.count = 0;
    }

    /// The id of the rule of a group that takes a frame.
    pub fn best(&self, group: u32, key: &Key) -> Option<u32>
        ensures { result ≡ option_map (λ (rule : RuleView). rule.id) (spec.best self.now.rules group key.now) }
    {
        self.best_counted(group, key, &mut 0)
    }

    /// The same; `seen` rises by the number of rules whose values were compared with the frame's.
    pub fn best_counted(&self, group: u32, key: &Key, seen: &mut u64) -> Option<u32>
        ensures { result ≡ option_map (λ (rule : RuleView). rule.id) (spec.best self.now.rules group key.now) }
    {
        match best_of(&self.finder, self.slots.as_slice(), group, key, seen) {
            None => None,
            Some(lead) => Some(lead.id),
        }
    }

    /// The rule of this id, if there is one.
    pub fn rule(&self, id: u32) -> Option<&Rule>
        ensures { option_map (λ rule. rule.now) result ≡ named id self.now.rules }
    {
        let Some(place) = find(self.slots.as_slice(), &self.finder, id) else {
            return None;
        };
        rule_at(self.slots.as_slice(), place)
    }
}
