//! What callers do with a ring while others use it too.
ghost use Rattle.std.specs.Prelude.{◌≡◌, ◌+◌, ◌<◌, ◌≤◌, ◌↔◌, [], ◌∷◌, length, All, IsNone, IsErr, IfSome, MatchOption, MatchResult};
ghost use Rattle.frame_ring.specs.Passes.{number_of, offered, grabbed, taken, given, left_by};
ghost use Rattle.frame_ring.specs.Rings.{floor_of, passes_of, capacity_of, buffers_of, IsPassOf, RingHeld, FreeHeld};
ghost use Rattle.frame_ring.specs.Changes.{IsUnchanged, HasOffered, HasGrabbed, TookFree, GaveBack, WasOldest, WasFree};

use crate::buffer::Buffer;
use crate::pass::RingPass;
use crate::ring::FrameRing;
use crate::rule::{Give, Grab, Offer, Take};
use std::sync::Wait;
use std::sync::atomic::Ordering;

impl FrameRing {
    /// Takes a free buffer, with whatever it held last. `None` where none was free. With several passes that says no
    /// more than that the others may have taken the rest: only on a ring of one pass is it exact.
    pub fn take_free<R: Wait>(&self, rt: &R, pass: &mut RingPass) -> Option<Buffer>
        requires { IsPassOf self.now pass.old }
        ensures pass { IsPassOf self.now pass.new }
        ensures account { MatchOption result (IsUnchanged pass.old pass.new) (λ _. TookFree pass.old pass.new) }
        ensures free { IfSome result (WasFree pass.old) }
        ensures none { IsNone result → FreeHeld pass.old 0 }
        ensures exact { passes_of self.now ≡ 1 → (IsNone result ↔ (taken pass.old ≡ buffers_of self.now + given pass.old)) }
    {
        self.free.pop_as::<Take, R>(rt, &mut pass.free)
    }

    /// Puts a frame behind the others in the ring, or hands it back where the ring was full. The pass has then offered
    /// at least as many frames that it didn't grab itself as the ring has room for, however many passes there are.
    pub fn offer<R: Wait>(&self, rt: &R, pass: &mut RingPass, buffer: Buffer) -> Result<(), Buffer>
        requires pass { IsPassOf self.now pass.old }
        requires first { number_of pass.old ≡ 0 }
        requires above { floor_of self.now < buffer.number }
        requires rises { All (λ f. f.number < buffer.number) (offered pass.old) }
        requires len { buffer.len ≤ 262144 }
        ensures pass { IsPassOf self.now pass.new }
        ensures account { MatchResult result (λ _. HasOffered buffer pass.old pass.new) (λ back. (back ≡ buffer) × IsUnchanged pass.old pass.new) }
        ensures full { IsErr result → RingHeld pass.old (capacity_of self.now) }
        ensures bound { IsErr result → capacity_of self.now ≤ length (left_by pass.old) }
        ensures exact { passes_of self.now ≡ 1 → (IsErr result ↔ (length (left_by pass.old) ≡ capacity_of self.now)) }
    {
        self.ring.push_as::<Offer, R>(rt, &mut pass.ring, buffer)
    }

    /// Takes the oldest frame out of the ring. `None` where the ring was empty. With several passes that says no more
    /// than that the others may have grabbed the rest, or offered none: only on a ring of one pass is it exact.
    pub fn grab<R: Wait>(&self, rt: &R, pass: &mut RingPass) -> Option<Buffer>
        requires { IsPassOf self.now pass.old }
        ensures pass { IsPassOf self.now pass.new }
        ensures account { MatchOption result (IsUnchanged pass.old pass.new) (λ frame. HasGrabbed frame pass.old pass.new) }
        ensures above { IfSome result (λ frame. (floor_of self.now < frame.number) × All (λ f. f.number < frame.number) (grabbed pass.old)) }
        ensures len { IfSome result (λ frame. frame.len ≤ 262144) }
        ensures oldest { IfSome result (WasOldest pass.old) }
        ensures none { IsNone result → RingHeld pass.old 0 }
        ensures exact { passes_of self.now ≡ 1 → MatchOption result (left_by pass.old ≡ []) (λ frame. left_by pass.old ≡ frame ∷ left_by pass.new) }
    {
        self.ring.pop_as::<Grab, R>(rt, &mut pass.ring)
    }

    /// Makes a buffer free again, or hands it back where the free queue was full. With several passes that says no more
    /// than that the others may have given back as much: only on a ring of one pass is it exact.
    pub fn give_back<R: Wait>(
        &self,
        rt: &R,
        pass: &mut RingPass,
        buffer: Buffer,
    ) -> Result<(), Buffer>
        requires { IsPassOf self.now pass.old }
        ensures pass { IsPassOf self.now pass.new }
        ensures account { MatchResult result (λ _. GaveBack pass.old pass.new) (λ back. (back ≡ buffer) × IsUnchanged pass.old pass.new) }
        ensures full { IsErr result → FreeHeld pass.old (buffers_of self.now) }
        ensures exact { passes_of self.now ≡ 1 → (IsErr result ↔ (given pass.old ≡ taken pass.old)) }
    {
        self.free.push_as::<Give, R>(rt, &mut pass.free, buffer)
    }

    /// Tells the others that no frame is to come. It is a hint, and no promise rests on it.
    pub fn shut(&self) {
        self.shut.store(true, Ordering::SeqCst);
    }

    /// Whether somebody shut the ring.
    pub fn is_shut(&self) -> bool {
        self.shut.load(Ordering::SeqCst)
    }
}
