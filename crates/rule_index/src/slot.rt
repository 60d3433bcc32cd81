//! Slots: a rule, or none any more.
ghost use Rattle.std.specs.Prelude.{◌≡◌, None, Some, IfOk, is_some};
ghost use Rattle.std.specs.Option.{option_map};
ghost use Rattle.std.specs.Arc.{arc_value};

use flow_rules::Rule;
use std::alloc::{AllocError, Global};
use std::marker::Model;
use std::sync::Arc;

/// A rule, as long as it isn't removed. It may be shared with other indexes.
#[derive(Drop)]
pub(crate) struct RuleSlot {
    rule: Option<Arc<Rule, Global>>,
}

impl Model for RuleSlot {
    ghost use Rattle.std.specs.Prelude.{Option};
    ghost use Rattle.std.specs.Option.{option_map};
    ghost use Rattle.std.specs.Arc.{arc_value};
    ghost use Rattle.flow_rules.specs.RuleView.{RuleView};

    ghost Value = { Option RuleView };

    ghost view = { λ s. option_map (λ rule. arc_value rule) s.rule };
}

impl RuleSlot {
    /// A slot with a copy of this rule.
    pub(crate) fn with_copy(alloc: Global, rule: &Rule) -> Result<RuleSlot, AllocError>
        ensures { IfOk result (λ slot. slot ≡ Some rule.now) }
    {
        let copy = rule.clone()?;
        let kept = Arc::new(alloc, copy)?;
        Ok(RuleSlot { rule: Some(kept) })
    }

    /// A slot that shares this rule.
    pub(crate) fn with_share(rule: &Arc<Rule, Global>) -> Result<RuleSlot, AllocError>
        ensures { IfOk result (λ slot. slot ≡ Some (arc_value rule.now)) }
    {
        let kept = Arc::try_clone(rule)?;
        Ok(RuleSlot { rule: Some(kept) })
    }

    /// The rule, if it is there.
    #[inline(always)]
    pub(crate) fn rule(&self) -> Option<&Rule>
        ensures { option_map (λ rule. rule.now) result ≡ self.now }
    {
        match &self.rule {
            None => None,
            Some(rule) => Some(rule),
        }
    }

    /// Whether the rule is there.
    pub(crate) fn has_rule(&self) -> bool
        ensures { result ≡ is_some self.now }
    {
        self.rule.is_some()
    }

    /// Takes the rule out.
    pub(crate) fn clear(&mut self)
        ensures { self.new ≡ None }
    {
        self.rule = None;
    }
}
