//! The totals of frames, kept as they pass.
ghost use Rattle.std.specs.Prelude.{◌≡◌, ◌<◌, ◌+◌, ◌^◌, length, slice_index};
ghost use Rattle.port_state.specs.Counted.{counted, HasRoom};
ghost use Rattle.flow_rules.specs.OnPort.{IsBelow};

use flow_actions::Fate;
use flow_calls::Totals;

/// Counts a frame of this fate.
pub(crate) fn count(totals: &mut Totals, fate: Fate)
    requires below { IsBelow 16 fate }
    requires room { HasRoom totals.old }
    ensures { totals.new ≡ counted totals.old fate }
{
    totals.received += 1;
    match fate {
        Fate::Queue(queue) => totals.queues[queue as usize] += 1,
        Fate::Drop => totals.dropped += 1,
    }
}
