//! What the plain model keeps: a list of each thing that callers made, and nothing that can be counted.
use flow_actions::Action;
use flow_calls::{ActionLists, TableTemplates};
use flow_rules::{Attr, Limits, RuleSpec};
use pattern_items::Pattern;
use shared_value::Shared;
use std::alloc::{AllocError, Global};

/// A rule in effect, or one whose creation is held.
#[derive(Drop)]
pub(crate) struct PlainRule {
    pub(crate) id: u32,
    /// The table that it stands in. A rule of `flow create` stands in none.
    pub(crate) table: Option<u16>,
    pub(crate) spec: RuleSpec,
}

/// A shared action, a template or a table, at its id.
#[derive(Drop)]
pub(crate) struct Kept<T> {
    pub(crate) id: u16,
    pub(crate) value: T,
}

/// An operation that a queue holds.
#[derive(Drop)]
pub(crate) enum Held {
    RuleCreate(PlainRule),
    RuleDestroy(u32),
    IndirectCreate(Kept<Action>),
    IndirectUpdate(Kept<Action>),
    IndirectDestroy(u16),
}

#[derive(Drop)]
pub(crate) struct PlainQueue {
    /// The oldest first.
    pub(crate) held: Vec<Held>,
    /// Whether each performed operation succeeded, the oldest first.
    pub(crate) results: Vec<bool>,
}

#[derive(Drop)]
pub(crate) struct Table {
    pub(crate) attr: Attr,
    pub(crate) rules_number: u32,
    pub(crate) templates: Shared<TableTemplates>,
}

#[derive(Drop)]
pub(crate) struct PlainPort {
    pub(crate) alloc: Global,
    pub(crate) limits: Limits,
    /// The rules in effect, in the order in which they took effect.
    pub(crate) rules: Vec<PlainRule>,
    /// The shared actions in effect.
    pub(crate) objects: Vec<Kept<Action>>,
    pub(crate) patterns: Vec<Kept<Shared<Pattern>>>,
    pub(crate) actions: Vec<Kept<Shared<ActionLists>>>,
    pub(crate) tables: Vec<Kept<Table>>,
    /// None before they are configured.
    pub(crate) queues: Vec<PlainQueue>,
    /// How many operations each queue is for.
    pub(crate) size: u32,
    /// Rule ids that were given.
    pub(crate) given: u32,
}

impl PlainPort {
    /// Nothing is there yet.
    pub(crate) fn new(alloc: Global, limits: Limits) -> PlainPort {
        PlainPort {
            alloc,
            limits,
            rules: Vec::new(alloc),
            objects: Vec::new(alloc),
            patterns: Vec::new(alloc),
            actions: Vec::new(alloc),
            tables: Vec::new(alloc),
            queues: Vec::new(alloc),
            size: 0,
            given: 0,
        }
    }

    /// The rule of the next id.
    pub(crate) fn make_rule(&mut self, table: Option<u16>, spec: RuleSpec) -> PlainRule {
        let id = self.given;
        self.given = id.wrapping_add(1);
        PlainRule { id, table, spec }
    }

    /// The rule in effect of an id.
    pub(crate) fn rule(&self, id: u32) -> Option<&PlainRule> {
        for rule in self.rules.as_slice() {
            if rule.id == id {
                return Some(rule);
            }
        }
        None
    }

    /// Whether a rule is in effect, in a table or in none.
    pub(crate) fn has_rule(&self, id: u32, in_table: bool) -> bool {
        match self.rule(id) {
            Some(rule) => rule.table.is_some() == in_table,
            None => false,
        }
    }

    pub(crate) fn remove_rule(&mut self, id: u32) {
        self.rules.retain(|rule| rule.id != id);
    }

    /// The shared action in effect at an id.
    pub(crate) fn object(&self, id: u16) -> Option<&Action> {
        find(self.objects.as_slice(), id)
    }
}

/// What stands at an id.
pub(crate) fn find<T>(list: &[Kept<T>], id: u16) -> Option<&T> {
    for kept in list {
        if kept.id == id {
            return Some(&kept.value);
        }
    }
    None
}

/// The ids in use.
pub(crate) fn ids_of<T>(alloc: Global, list: &[Kept<T>]) -> Result<Vec<u16>, AllocError> {
    let mut ids = Vec::new(alloc);
    for kept in list {
        ids.push(kept.id)?;
    }
    Ok(ids)
}

/// Nothing stands at an id.
pub(crate) fn remove<T: Drop>(list: &mut Vec<Kept<T>>, id: u16) {
    list.retain(|kept| kept.id != id);
}

/// This stands at its id, and nothing else.
pub(crate) fn put<T: Drop>(list: &mut Vec<Kept<T>>, id: u16, value: T) -> Result<(), AllocError> {
    remove(list, id);
    list.push(Kept { id, value })?;
    Ok(())
}
