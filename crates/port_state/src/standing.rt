//! What calls and frames are judged by.
ghost use Rattle.std.specs.Prelude.{◌≤◌, length};
ghost use Rattle.flow_rules.specs.OnPort.{IsBelow};
ghost use Rattle.flow_rules.specs.declared.counter.Counter.{Counter};
ghost use Rattle.port_state.specs.Counted.{HasRoom};
ghost use Rattle.port_state.specs.Kept.{AreKept};
ghost use Rattle.port_state.specs.KeptState.{count_in};
ghost use Rattle.port_state.specs.Raising.{HasRoomFor};
ghost use Rattle.port_state.specs.Standing.{Counts, standing_kept};

use crate::count::count;
use crate::state::State;
use flow_actions::Fate;
use flow_calls::Totals;

/// The state, and what else a call's reply depends on.
#[derive(Drop)]
pub struct Standing {
    pub state: State,
    pub totals: Totals,
}

impl Standing {
    /// Counts a frame of so many bytes, with the rules on its way and its fate.
    pub fn count_frame(&mut self, path: &[u32], fate: Fate, bytes: u32)
        requires few { length path.now ≤ 16 }
        requires below { IsBelow 16 fate }
        requires room { (c : Counter) → HasRoomFor 256 (count_in self.old.state c) }
        requires totals { HasRoom self.old.totals }
        ensures counts { Counts (standing_kept self.old) (standing_kept self.new) path.now fate bytes }
        ensures kept { AreKept self.old.state → AreKept self.new.state }
    {
        self.state.raise(path, bytes);
        count(&mut self.totals, fate);
    }
}
