//! Valid rules.
ghost use Rattle.std.specs.Prelude.{◌≡◌};
ghost use Rattle.flow_rules.specs.Valid.{IsValid};

use flow_actions::Actions;
use pattern_items::Test;
use std::alloc::AllocError;
use std::marker::Model;

/// A rule that [`validate`](crate::validate) found right: its group and priority are in their ranges, each jump goes to
/// a later group, and at most one action of its own is a fate.
#[derive(Drop)]
pub struct Rule {
    pub(crate) id: u32,
    pub(crate) group: u32,
    pub(crate) priority: u32,
    pub(crate) test: Test,
    pub(crate) actions: Actions,
}

impl Model for Rule {
    ghost use Rattle.flow_rules.specs.RuleView.{RuleView};

    ghost Value = { RuleView };

    ghost use Rattle.flow_rules.specs.Valid.{view_of, IsValidInside};

    ghost view = { view_of };

    ghost invariant = { IsValidInside };
}

impl Clone for Rule {
    ghost is_clone = { λ rule copy. copy ≡ rule };

    fn clone(&self) -> Result<Rule, AllocError> {
        let test = self.test.clone()?;
        let actions = self.actions.clone()?;
        Ok(Rule {
            id: self.id,
            group: self.group,
            priority: self.priority,
            test,
            actions,
        })
    }
}

impl Rule {
    /// The rule's id.
    pub fn id(&self) -> u32
        ensures { result ≡ self.now.id }
    {
        self.id
    }

    /// The group in which it stands, 0 to 15.
    pub fn group(&self) -> u32
        ensures { result ≡ self.now.group }
    {
        self.group
    }

    /// Its priority, 0 to 65,535; a lower number comes first.
    pub fn priority(&self) -> u32
        ensures { result ≡ self.now.priority }
    {
        self.priority
    }

    /// Which frames it takes.
    pub fn test(&self) -> &Test
        ensures { result.now ≡ self.now.test }
    {
        &self.test
    }

    /// Its actions, in order.
    pub fn actions(&self) -> &Actions
        ensures list { result.now.list.items ≡ self.now.actions }
        ensures whole { result.now.more ≡ 0 }
        ensures valid { IsValid self.now.group self.now.priority result.now.list.items }
    {
        &self.actions
    }
}
