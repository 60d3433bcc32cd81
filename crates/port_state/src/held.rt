//! What flow queues hold.
ghost use Rattle.std.specs.Prelude.{◌≡◌, ◌≤◌, length, IfOk};

use flow_actions::Action;
use flow_rules::Rule;
use shared_value::Shared;
use std::alloc::AllocError;
use std::marker::Model;

/// A rule whose creation is held: a copy for each who keeps it once it takes effect, so that taking effect wants no memory.
#[derive(Drop)]
pub struct HeldRule {
    in_effect: Shared<Rule>,
    in_slot: Shared<Rule>,
    told: Shared<Rule>,
}

impl Model for HeldRule {
    ghost use Rattle.std.specs.Prelude.{◌≡◌, ◌≤◌, length};
    ghost use Rattle.flow_rules.specs.RuleView.{RuleView};

    ghost Value = { RuleView };

    ghost view = { λ rule. rule.in_effect };

    ghost invariant = { λ rule. (rule.in_slot ≡ rule.in_effect) × (rule.told ≡ rule.in_effect) × (length rule.in_effect.actions ≤ 16) };
}

impl HeldRule {
    pub(crate) fn new(rule: Shared<Rule>) -> Result<HeldRule, AllocError>
        ensures { IfOk result (λ held. held ≡ rule) }
    {
        // The rule tells that it has at most 16 actions.
        let _actions = rule.get().actions();
        let in_slot = rule.clone()?;
        let told = rule.clone()?;
        Ok(HeldRule {
            in_effect: rule,
            in_slot,
            told,
        })
    }

    /// The copies: for the list of rules in effect, for the slot of the table, and for those who follow the changes.
    pub(crate) fn into_parts(self) -> (Shared<Rule>, Shared<Rule>, Shared<Rule>)
        ensures in_effect { result.0 ≡ self }
        ensures in_slot { result.1 ≡ self }
        ensures told { result.2 ≡ self }
        ensures few { length self.actions ≤ 16 }
    {
        (self.in_effect, self.in_slot, self.told)
    }

    /// The rule.
    pub(crate) fn get(&self) -> &Rule
        ensures { result.now ≡ self.now }
    {
        self.in_effect.get()
    }
}

/// An operation that a flow queue holds.
#[derive(Drop)]
pub enum Held {
    /// The rule takes effect in the table of this id.
    RuleCreated(HeldRule, u16),
    /// The table rule of this id goes.
    RuleDestroyed(u32),
    /// An action that rules can share takes effect at this id.
    SharedCreated(u16, Action),
    /// The shared action of this id has this value.
    SharedUpdated(u16, Action),
    /// The shared action of this id goes.
    SharedDestroyed(u16),
}
