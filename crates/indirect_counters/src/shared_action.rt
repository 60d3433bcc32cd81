//! What stands at an id.
ghost use Rattle.std.specs.Prelude.{◌≡◌};
ghost use Rattle.indirect_counters.specs.Entries.{created};

use flow_actions::Action;
use flow_rules::Count;

/// An action that rules share.
#[derive(Debug, Drop)]
pub struct SharedAction {
    /// What each rule that names it does with a frame.
    pub value: Action,
    /// How many rules use it.
    pub users: u32,
    /// Whether it waits to take effect.
    pub held: bool,
    /// What it has counted since it took effect, where its value is COUNT.
    pub count: Count,
}

/// A new one: nobody uses it, and nothing is counted.
pub(crate) fn created(action: &Action, held: bool) -> SharedAction
    ensures { result ≡ created action.now held }
{
    SharedAction {
        value: action.copied(),
        users: 0,
        held,
        count: Count { hits: 0, bytes: 0 },
    }
}
