//! Template tables and their slots.
ghost use Rattle.std.specs.Prelude.{◌≡◌, ◌+◌, ◌<◌, nat_eq, nat_lt, length, option_copied, IfOk, None, Some};
ghost use Rattle.std.specs.Map.{lookup};
ghost use Rattle.template_tables.specs.Slots.{IsAbove, reserved, settled, freed, settled_in};
ghost use Rattle.template_tables.specs.TableView.{empty_table};

use crate::slots::place_of;
use arrayvec::ArrayVec;
use flow_rules::{Attr, Rule};
use shared_value::Shared;
use std::alloc::{AllocError, Global};
use std::marker::Model;

/// The most templates of a kind in a table.
pub const MAX_TEMPLATES: usize = 8;

/// A template table: the group, priority and templates of its rules, and their slots.
#[derive(Drop)]
pub(crate) struct Table {
    attr: Attr,
    /// The ids of its pattern templates.
    patterns: ArrayVec<u16, MAX_TEMPLATES>,
    /// The ids of its actions templates.
    actions: ArrayVec<u16, MAX_TEMPLATES>,
    /// How many slots there are.
    rules_number: u32,
    /// The taken slots with the ids of their rules, in the order of the reservations. There is room for all.
    slots: Vec<(u32, Option<Shared<Rule>>)>,
    /// The greatest id for which a slot was ever reserved.
    greatest: Option<u32>,
}

impl Model for Table {
    ghost use Rattle.template_tables.specs.TableView.{TableView};

    ghost Value = { TableView };

    ghost use Rattle.template_tables.specs.TableInside.{view_of, IsWhole};

    ghost view = { view_of };

    ghost invariant = { IsWhole };
}

impl Table {
    /// A table of no rules, with the memory for all its slots.
    pub(crate) fn new(
        alloc: Global,
        attr: &Attr,
        rules_number: u32,
        patterns: &ArrayVec<u16, MAX_TEMPLATES>,
        actions: &ArrayVec<u16, MAX_TEMPLATES>,
    ) -> Result<Table, AllocError>
        ensures { IfOk result (λ table. table ≡ empty_table attr.now rules_number patterns.now.items actions.now.items) }
    {
        let patterns = patterns.clone()?;
        let actions = actions.clone()?;
        let slots = Vec::with_capacity(alloc, rules_number as usize)?;
        Ok(Table {
            attr: *attr,
            patterns,
            actions,
            rules_number,
            slots,
            greatest: None,
        })
    }

    /// The attributes of its rules.
    pub(crate) fn attr(&self) -> &Attr
        ensures { result.now ≡ self.now.attr }
    {
        &self.attr
    }

    /// The ids of its pattern templates.
    pub(crate) fn patterns(&self) -> &[u16]
        ensures { result.now ≡ self.now.patterns }
    {
        self.patterns.as_slice()
    }

    /// The ids of its actions templates.
    pub(crate) fn actions(&self) -> &[u16]
        ensures { result.now ≡ self.now.actions }
    {
        self.actions.as_slice()
    }

    /// How many slots there are.
    pub(crate) fn rules_number(&self) -> u32
        ensures { result ≡ self.now.rules_number }
    {
        self.rules_number
    }

    /// Whether a slot is taken.
    pub(crate) fn is_busy(&self) -> bool
        ensures { result ≡ nat_lt 0 (length self.now.slots) }
    {
        !self.slots.is_empty()
    }

    /// How many slots are free.
    pub(crate) fn slots_left(&self) -> u32
        ensures { result + length self.now.slots ≡ self.now.rules_number }
    {
        self.rules_number - self.slots.len() as u32
    }

    /// Takes a slot for the rule of this id.
    pub(crate) fn reserve(&mut self, id: u32)
        requires above { IsAbove id self.old.greatest }
        requires room { length self.old.slots < self.old.rules_number }
        ensures { self.new ≡ reserved id self.old }
    {
        self.slots.push_reserved((id, None));
        self.greatest = Some(id);
    }

    /// Puts a rule into the slot that was reserved for its id.
    pub(crate) fn settle(&mut self, rule: Shared<Rule>)
        requires { lookup (nat_eq rule.id) self.old.slots ≡ Some None }
        ensures { self.new ≡ settled rule self.old }
    {
        let id = rule.get().id();
        if let Some(place) = place_of(self.slots.as_slice(), id) {
            self.slots[place] = (id, Some(rule));
        }
    }

    /// The rule in the slot of an id, where one is settled there.
    pub(crate) fn rule(&self, id: u32) -> Option<&Rule>
        ensures { option_copied result ≡ settled_in id self.now }
    {
        let place = place_of(self.slots.as_slice(), id)?;
        let rule = self.slots[place].1.as_ref()?;
        Some(rule.get())
    }

    /// Empties the slot of an id, where a rule is settled there.
    pub(crate) fn free(&mut self, id: u32) -> Option<Shared<Rule>>
        ensures rule { result ≡ settled_in id self.old }
        ensures freed { self.new ≡ freed id self.old }
    {
        let place = place_of(self.slots.as_slice(), id)?;
        if self.slots[place].1.is_none() {
            return None;
        }
        self.slots.remove(place).1
    }
}
