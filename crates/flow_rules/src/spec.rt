//! Rules as they are asked for.
ghost use Rattle.std.specs.Prelude.{◌≡◌};

use flow_actions::Actions;
use pattern_items::Pattern;
use std::alloc::AllocError;

/// The attributes of a rule (rte_flow guide: attributes).
#[derive(Clone, Copy, PartialEq, Eq, Debug, Default)]
pub struct Attr {
    /// The group, 0 to 15.
    pub group: u32,
    /// The priority, 0 to 65,535; a lower number comes first.
    pub priority: u32,
    /// The rule is for frames that come in. This is required.
    pub ingress: bool,
    /// The rule is for frames that go out. No port takes it.
    pub egress: bool,
    /// The rule is for frames between ports. No port takes it.
    pub transfer: bool,
}

/// A rule as asked for.
#[derive(Debug, Drop)]
pub struct RuleSpec {
    pub attr: Attr,
    /// Which frames it takes.
    pub pattern: Pattern,
    /// What it does with them.
    pub actions: Actions,
}

impl Clone for RuleSpec {
    ghost is_clone = { λ spec copy. copy ≡ spec };

    fn clone(&self) -> Result<RuleSpec, AllocError> {
        let pattern = self.pattern.clone()?;
        let actions = self.actions.clone()?;
        let attr = self.attr;
        Ok(RuleSpec {
            attr,
            pattern,
            actions,
        })
    }
}
