//! A port on which no action is shared.
use flow_actions::ActionKind;
use flow_rules::Known;

/// No action is shared.
pub struct NoneShared;

impl Known for NoneShared {
    ghost use Rattle.std.specs.Prelude.{None};

    ghost kinds = { λ _ _. None };

    fn kind_of(&self, _id: u32) -> Option<ActionKind> {
        None
    }
}
