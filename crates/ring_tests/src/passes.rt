//! Passes out of their list and back into it, and what they do.
ghost use Rattle.std.specs.Prelude.{◌≡◌, ◌+◌, ◌<◌, ◌≤◌, length, map, All, IfErr};
ghost use Rattle.frame_ring.specs.Passes.{number_of, offered, passes_in, limit_of, gathered, frames_of, frames_in};
ghost use Rattle.frame_ring.specs.Rings.{floor_of, IsPassOf, IsFresh, AreAllOf, WasDrained, IsSettled};
ghost use Rattle.ring_tests.specs.Numbered.{AreNumbered};

use frame_ring::{Buffer, FrameRing, RingPass, RingPasses};
use std::sync::Wait;

/// The last of the new passes that are in the list.
pub(crate) fn take_pass(ring: &FrameRing, passes: &mut RingPasses) -> RingPass
    requires passes { All (IsPassOf ring.now) (passes_in passes.old) × All IsFresh (passes_in passes.old) }
    requires some { 0 < length (passes_in passes.old) }
    requires numbers { AreNumbered (passes_in passes.old) }
    ensures pass { IsPassOf ring.now result × IsFresh result }
    ensures number { number_of result ≡ length (passes_in passes.new) }
    ensures numbers { AreNumbered (passes_in passes.new) }
    ensures passes { All (IsPassOf ring.now) (passes_in passes.new) × All IsFresh (passes_in passes.new) }
    ensures length { length (passes_in passes.new) + 1 ≡ length (passes_in passes.old) }
    ensures list { (limit_of passes.new ≡ limit_of passes.old) × (gathered passes.new ≡ gathered passes.old) }
{
    let _ring = ring;
    passes.pop().unwrap()
}

/// Puts a pass back into the list.
pub(crate) fn hand_in(ring: &FrameRing, passes: &mut RingPasses, pass: RingPass)
    requires pass { IsPassOf ring.now pass }
    requires passes { All (IsPassOf ring.now) (passes_in passes.old) }
    requires room { length (passes_in passes.old) < limit_of passes.old }
    ensures passes { All (IsPassOf ring.now) (passes_in passes.new) }
    ensures length { length (passes_in passes.new) ≡ length (passes_in passes.old) + 1 }
    ensures list { (limit_of passes.new ≡ limit_of passes.old) × (gathered passes.new ≡ gathered passes.old) }
{
    let _ring = ring;
    passes.push(pass).unwrap();
}

/// Offers the buffer under that number.
pub(crate) fn offer_as<R: Wait>(
    rt: &R,
    ring: &FrameRing,
    pass: &mut RingPass,
    mut buffer: Buffer,
    number: u32,
) -> Result<(), Buffer>
    requires pass { IsPassOf ring.now pass.old × (number_of pass.old ≡ 0) }
    requires number { (floor_of ring.now < number) × All (λ f. f.number < number) (offered pass.old) }
    ensures pass { IsPassOf ring.now pass.new × (number_of pass.new ≡ 0) }
    ensures number { All (λ f. f.number < number + 1) (offered pass.new) }
    ensures back { IfErr result (λ back. back.number ≡ number) }
{
    buffer.number = number;
    buffer.len = 1;
    buffer.bytes_mut()[0] = 7;
    ring.offer(rt, pass, buffer)
}

/// Drains the ring to its end: then each frame that the passes offered was grabbed or drained, and no other was.
pub(crate) fn drain_all<R: Wait>(rt: &R, ring: &mut FrameRing, passes: &mut RingPasses)
    requires { AreAllOf ring.old passes.old }
    ensures passes { WasDrained ring.new passes.new }
    ensures settled { IsSettled passes.new }
    ensures accounts { frames_in passes.new ≡ map frames_of (passes_in passes.old) }
{
    for _ in rt.forever() {
        if ring.drain(rt, passes).is_none() {
            return;
        }
    }
}
