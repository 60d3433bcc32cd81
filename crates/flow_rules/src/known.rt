//! The actions that rules share.
ghost use Rattle.std.specs.Prelude.{ℕ, Option, ◌≡◌};
ghost use Rattle.flow_actions.specs.declared.action.ActionKind.{ActionKind};

use flow_actions::ActionKind;

/// What is known of the actions that rules share by an id.
pub trait Known {
    /// The kind of the action of an id, if there is one in effect.
    ghost kinds: { Self → ℕ → Option ActionKind };

    /// The kind of the action of this id, if there is one in effect.
    fn kind_of(&self, id: u32) -> Option<ActionKind>
        ensures { result ≡ kinds self.now id };
}
