//! Which frame is whose.
ghost use Rattle.std.specs.Prelude.{◌≡◌, ◌≤◌};
ghost use Rattle.running_phase.specs.Shares.{taker_of};

use flow_calls::Caller;

/// The worker that takes the frame of that number.
pub(crate) fn taker(workers: u32, number: u32) -> Caller
    requires { (1 ≤ workers) × (workers ≤ 16) }
    ensures { result.0 ≡ taker_of workers number }
{
    Caller(9 + (number % workers) as u8)
}
