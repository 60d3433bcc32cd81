//! The rules in effect, as a replica keeps them.
ghost use Rattle.std.specs.Prelude.{◌≡◌, [], ◌∷◌, ◌++◌, None, OnOk, OnErr};
ghost use Rattle.std.specs.Option.{option_map};
ghost use Rattle.flow_rules.specs.Best as spec;
ghost use Rattle.flow_rules.specs.Changes.{without};
ghost use Rattle.flow_rules.specs.Naming.{rule_at};

use flow_rules::Rule;
use packet_headers::Key;
use rules_in_effect::RulesInEffect;
use shared_value::Shared;
use std::alloc::{AllocError, Global};
use std::marker::Model;

/// The rules in effect, in the order in which they took effect: a plain list, which is scanned for the best rule of a group.
#[derive(Drop)]
pub(crate) struct RuleList {
    rules: RulesInEffect,
}

impl Model for RuleList {
    ghost use Rattle.std.specs.Prelude.{List, map};
    ghost use Rattle.flow_rules.specs.RuleView.{RuleView};
    ghost use Rattle.rules_in_effect.specs.Entries.{rule_in};

    ghost Value = { List RuleView };

    ghost view = { λ l. map rule_in l.rules.list };
}

impl RuleList {
    /// No rules. It takes no memory.
    pub(crate) fn new(alloc: Global) -> RuleList
        ensures { result ≡ [] }
    {
        RuleList {
            rules: RulesInEffect::new(alloc),
        }
    }

    /// Puts a rule behind the others, none of which has its id.
    pub(crate) fn push(&mut self, rule: &Shared<Rule>) -> Result<(), AllocError>
        requires { rule_at rule.now.id self.old ≡ None }
        ensures ok { OnOk result (self.new ≡ self.old ++ rule.now ∷ []) }
        ensures err { OnErr result (self.new ≡ self.old) }
    {
        self.rules.reserve(1)?;
        let copy = rule.clone()?;
        self.rules.push(copy, None);
        Ok(())
    }

    /// Takes out the rule of an id, and nothing where there is none.
    pub(crate) fn remove(&mut self, id: u32)
        ensures { self.new ≡ without id self.old }
    {
        self.rules.remove(id);
    }

    /// Takes out all rules.
    pub(crate) fn clear(&mut self)
        ensures { self.new ≡ [] }
    {
        self.rules.clear();
    }

    /// The rule of an id, if there is one.
    pub(crate) fn rule(&self, id: u32) -> Option<&Rule>
        ensures { option_map (λ rule. rule.now) result ≡ rule_at id self.now }
    {
        match self.rules.get(id) {
            Some(entry) => Some(entry.rule.get()),
            None => None,
        }
    }

    /// The rule of a group that takes a frame of these layers.
    pub(crate) fn best(&self, group: u32, key: &Key) -> Option<&Rule>
        ensures { option_map (λ rule. rule.now) result ≡ spec.best self.now group key.now }
    {
        self.rules.best(group, key)
    }
}
