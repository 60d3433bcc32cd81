//! What is left in the ring, for who holds all its passes.
ghost use Rattle.std.specs.Prelude.{◌≡◌, ◌⊎◌, ◌<◌, ◌≤◌, ◌++◌, ◌↔◌, [], map, length, All, IsNone, IfSome, vec_capacity, option_to_list};
ghost use Rattle.crossbeam_queue.specs.Passes.{view};
ghost use Rattle.crossbeam_queue.specs.Passes as queue;
ghost use Rattle.frame_ring.specs.Views.{knows, counts};
ghost use Rattle.frame_ring.specs.Passes.{frames_of, counts_of, passes_in, limit_of, gathered, kept_in, frames_in, counts_in, drained_in, left_in};
ghost use Rattle.frame_ring.specs.Rings.{floor_of, passes_of, capacity_of, buffers_of, IsPassOf, AreAllOf, IsGatheredOf, WasDrained, IsWhole, IsOnce, IsSettled, AreRows, IsBalanced};

use crate::buffer::Buffer;
use crate::pass::{Gathered, RingPass, RingPasses};
use crate::ring::FrameRing;
use crate::rule::{Drain, JoinPasses, Spare};
use std::sync::Wait;

impl FrameRing {
    /// Takes the oldest frame that is left in the ring, for who holds all its passes. The first
    /// call joins them: from then on the list gives out none, and keeps the account of each.
    pub fn drain<R: Wait>(&mut self, rt: &R, passes: &mut RingPasses) -> Option<Buffer>
        requires { AreAllOf self.old passes.old ⊎ WasDrained self.old passes.old }
        ensures ring { self.new ≡ self.old }
        ensures passes { WasDrained self.new passes.new }
        ensures accounts { (frames_in passes.new ≡ frames_in passes.old) × (counts_in passes.new ≡ counts_in passes.old) }
        ensures drained { drained_in passes.new ≡ drained_in passes.old ++ option_to_list result }
        ensures left { left_in passes.old ≡ option_to_list result ++ left_in passes.new }
        ensures none { IsNone result ↔ (left_in passes.old ≡ []) }
        ensures above { IfSome result (λ frame. floor_of self.old < frame.number) }
        ensures len { IfSome result (λ frame. frame.len ≤ 262144) }
        ensures whole { IsWhole passes.new }
        ensures once { IsOnce passes.new }
        ensures settled { IsNone result → IsSettled passes.new }
        ensures rows { AreRows self.new passes.new }
        ensures balance { IsBalanced self.new passes.new }
        ensures list { passes_in passes.new ≡ kept_in passes.old }
        ensures limit { limit_of passes.new ≡ limit_of passes.old }
    {
        let mut all = self.gather(passes);
        let frame = self.ring.pop_as::<Drain, R>(rt, &mut all.ring);
        self.free.learn_as::<Spare>(&mut all.free);
        passes.gathered = Some(all);
        frame
    }

    // All passes in one.
    fn gather(&self, passes: &mut RingPasses) -> Gathered
        requires { AreAllOf self.now passes.old ⊎ WasDrained self.now passes.old }
        ensures all { IsGatheredOf self.now passes.old result }
        ensures list { passes_in passes.new ≡ kept_in passes.old }
        ensures limit { limit_of passes.new ≡ limit_of passes.old }
    {
        if let Some(all) = passes.gathered.take() {
            return all;
        }
        self.join_all(&mut passes.items)
    }

    // Joins one pass after another.
    fn join_all(&self, items: &mut Vec<RingPass>) -> Gathered
        requires { (0 < length items.old.items) × All (IsPassOf self.now) items.old.items }
        ensures ring { queue.IsPassOf self.now.ring result.ring × (view result.ring ≡ knows (floor_of self.now) (passes_of self.now) (capacity_of self.now) (map frames_of items.old.items) []) }
        ensures free { queue.IsPassOf self.now.free result.free × (view result.free ≡ counts (passes_of self.now) (buffers_of self.now) (map counts_of items.old.items)) }
        ensures empty { items.new.items ≡ [] }
        ensures limit { vec_capacity items.new ≡ vec_capacity items.old }
    {
        let last = items.pop().unwrap();
        let mut all = Gathered {
            ring: last.ring,
            free: last.free,
        };
        while let Some(other) = items.pop() {
            self.ring.absorb::<JoinPasses>(&mut all.ring, other.ring);
            self.free.absorb::<JoinPasses>(&mut all.free, other.free);
        }
        all
    }
}
