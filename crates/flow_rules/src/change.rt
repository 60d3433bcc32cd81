//! What calls change for packets.
use crate::rule::Rule;
use flow_actions::Action;
use shared_value::Shared;

/// A change of the rules in effect, of the actions that they share, or of what becomes of a frame that no rule takes.
#[derive(Drop)]
pub enum Change {
    /// The rule takes effect, behind all others.
    Added(Shared<Rule>),
    /// The rule of this id is gone.
    Removed(u32),
    /// All rules are gone.
    Flushed,
    /// The action that rules share by this id has this value.
    IndirectSet(u32, Action),
    /// The action that rules share by this id is gone.
    IndirectGone(u32),
    /// Whether a frame that no rule takes is dropped.
    Isolated(bool),
}
