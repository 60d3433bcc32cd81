//! How a ring is made with its buffers and its passes.
ghost use Rattle.std.specs.Prelude.{◌≡◌, ◌<◌, ◌≤◌, [], ◌∷◌, map, All, IfOk, OnOk, vec_capacity};
ghost use Rattle.std.specs.List.{range_with_len};
ghost use Rattle.crossbeam_queue.specs.Passes.{view, ruled_capacity};
ghost use Rattle.crossbeam_queue.specs.Passes as queue;
ghost use Rattle.frame_ring.specs.Views.{knows, counts, idle_frames, idle_counts};
ghost use Rattle.frame_ring.specs.RingRule.{empty_ring, begun};
ghost use Rattle.frame_ring.specs.FreeRule.{filling, filled};
ghost use Rattle.frame_ring.specs.Passes.{number_of, passes_in, limit_of};
ghost use Rattle.frame_ring.specs.Rings.{floor_of, passes_of, capacity_of, buffers_of, IsPassOf, IsFresh, AreAllOf};

use crate::buffer::Buffer;
use crate::pass::{RingPass, RingPasses};
use crate::ring::FrameRing;
use crate::rule::{Fill, FillLast, InRing, Mark, Spare, SplitPasses, Unmark};
use crate::view::{FreeView, RingView};
use crossbeam_queue::{Pass, RuledArrayQueue};
use std::alloc::{AllocError, Global};
use std::sync::Wait;
use std::sync::atomic::AtomicBool;

impl FrameRing {
    /// A ring with room for `capacity` frames, its buffers, all free, and its passes, numbered from
    /// 0 in the list's order. The numbers of its frames are to be above `floor`. `Err` comes only
    /// from want of memory.
    pub fn new<R: Wait>(
        rt: &R,
        alloc: Global,
        capacity: u32,
        buffers: u32,
        passes: u32,
        floor: u32,
    ) -> Result<(FrameRing, RingPasses), AllocError>
        requires { (1 ≤ capacity) × (1 ≤ buffers) × (1 ≤ passes) }
        ensures ring { IfOk result (λ made. (capacity_of made.0 ≡ capacity) × (buffers_of made.0 ≡ buffers) × (passes_of made.0 ≡ passes) × (floor_of made.0 ≡ floor)) }
        ensures all { IfOk result (λ made. AreAllOf made.0 made.1) }
        ensures fresh { IfOk result (λ made. All IsFresh (passes_in made.1)) }
        ensures numbers { IfOk result (λ made. map number_of (passes_in made.1) ≡ range_with_len 0 passes) }
        ensures limit { IfOk result (λ made. limit_of made.1 ≡ passes) }
    {
        let items = Vec::with_capacity(alloc, passes as usize)?;
        let (ring, mut in_ring) = RuledArrayQueue::ruled(alloc, capacity as usize)?;
        let (free, mut in_free) = RuledArrayQueue::ruled(alloc, buffers as usize)?;
        fill(rt, alloc, &free, &mut in_free, buffers - 1)?;
        let mut marker = Buffer::zeroed(alloc)?;
        marker.number = floor;
        marker.wire_len = capacity;
        marker.seconds = passes;
        let marker = mark(rt, &ring, &mut in_ring, marker);
        free.push_as::<FillLast, R>(rt, &mut in_free, marker)
            .unwrap();
        let ring = FrameRing {
            ring,
            free,
            floor,
            passes,
            shut: AtomicBool::new(false),
        };
        let items = ring.hand_out(in_ring, in_free, items);
        let passes = RingPasses {
            items,
            gathered: None,
        };
        Ok((ring, passes))
    }

    // Cuts one pass after another off the one that carries all.
    fn hand_out(
        &self,
        mut ring: Pass<Buffer, RingView>,
        mut free: Pass<Buffer, FreeView>,
        mut items: Vec<RingPass>,
    ) -> Vec<RingPass>
        requires ring { queue.IsPassOf self.now.ring ring × (view ring ≡ knows (floor_of self.now) (passes_of self.now) (capacity_of self.now) (idle_frames 0 (passes_of self.now)) []) }
        requires free { queue.IsPassOf self.now.free free × (view free ≡ counts (passes_of self.now) (buffers_of self.now) (idle_counts 0 (passes_of self.now))) }
        requires room { (1 ≤ passes_of self.now) × (items.items ≡ []) × (vec_capacity items ≡ passes_of self.now) }
        ensures passes { All (IsPassOf self.now) result.items }
        ensures fresh { All IsFresh result.items }
        ensures numbers { map number_of result.items ≡ range_with_len 0 (passes_of self.now) }
        ensures limit { vec_capacity result ≡ passes_of self.now }
    {
        let last = self.passes - 1;
        for number in 0..last {
            let other_ring = self.ring.another::<SplitPasses>(&mut ring);
            let other_free = self.free.another::<SplitPasses>(&mut free);
            items.push_reserved(RingPass { ring, free, number });
            ring = other_ring;
            free = other_free;
        }
        items.push_reserved(RingPass {
            ring,
            free,
            number: last,
        });
        items
    }
}

// Puts so many new buffers into the free queue.
fn fill<R: Wait>(
    rt: &R,
    alloc: Global,
    free: &RuledArrayQueue<Buffer, FreeView, Spare>,
    pass: &mut Pass<Buffer, FreeView>,
    count: u32,
) -> Result<(), AllocError>
    requires pass { queue.IsPassOf free.now pass.old × (view pass.old ≡ filling 0) }
    requires room { count < ruled_capacity free.now }
    ensures pass { queue.IsPassOf free.now pass.new }
    ensures filled { OnOk result (view pass.new ≡ filling count) }
{
    for _made in 0..count {
        let buffer = Buffer::zeroed(alloc)?;
        free.push_as::<Fill, R>(rt, pass, buffer).unwrap();
    }
    Ok(())
}

// Sends the marker through the ring's queue.
fn mark<R: Wait>(
    rt: &R,
    ring: &RuledArrayQueue<Buffer, RingView, InRing>,
    pass: &mut Pass<Buffer, RingView>,
    marker: Buffer,
) -> Buffer
    requires pass { queue.IsPassOf ring.now pass.old × (view pass.old ≡ empty_ring) }
    requires room { 0 < ruled_capacity ring.now }
    requires passes { 1 ≤ marker.seconds }
    ensures pass { queue.IsPassOf ring.now pass.new }
    ensures begun { view pass.new ≡ begun marker }
    ensures same { result.seconds ≡ marker.seconds }
{
    ring.push_as::<Mark, R>(rt, pass, marker).unwrap();
    ring.pop_as::<Unmark, R>(rt, pass).unwrap()
}
