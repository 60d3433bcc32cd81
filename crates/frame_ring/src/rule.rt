//! The rules of the two queues, and what each step on them tells.
use crate::buffer::Buffer;
use crate::view::{FreeView, RingView};
use crossbeam_queue::protocol::{Join, Lesson, Outcome, Protocol, Split};

/// The rule of the ring's queue.
pub(crate) struct InRing;

impl Protocol<Buffer, RingView> for InRing {
    ghost use Rattle.frame_ring.specs.RingRule.{RingRule, empty_ring};

    ghost holds = { RingRule };

    ghost first = { empty_ring };
}

/// What the ring held at a moment.
impl Lesson<Buffer, RingView> for InRing {
    ghost use Rattle.frame_ring.specs.RingRule.{RingMoment};

    ghost fact = { RingMoment };
}

/// The marker goes into the ring.
pub(crate) struct Mark;

impl Outcome<Buffer, RingView> for Mark {
    ghost use Rattle.frame_ring.specs.Steps.{Marks};

    ghost then = { Marks };
}

impl Lesson<Buffer, RingView> for Mark {
    ghost use Rattle.frame_ring.specs.RingRule.{RingMoment};

    ghost fact = { RingMoment };
}

/// The marker comes out.
pub(crate) struct Unmark;

impl Outcome<Buffer, RingView> for Unmark {
    ghost use Rattle.frame_ring.specs.Steps.{Unmarks};

    ghost then = { Unmarks };
}

impl Lesson<Buffer, RingView> for Unmark {
    ghost use Rattle.frame_ring.specs.RingRule.{RingMoment};

    ghost fact = { RingMoment };
}

/// A frame goes into the ring.
pub(crate) struct Offer;

impl Outcome<Buffer, RingView> for Offer {
    ghost use Rattle.frame_ring.specs.Steps.{Offers};

    ghost then = { Offers };
}

impl Lesson<Buffer, RingView> for Offer {
    ghost use Rattle.frame_ring.specs.RingRule.{RingMoment};

    ghost fact = { RingMoment };
}

/// A pass takes the oldest frame out.
pub(crate) struct Grab;

impl Outcome<Buffer, RingView> for Grab {
    ghost use Rattle.frame_ring.specs.Steps.{Grabs};

    ghost then = { Grabs };
}

impl Lesson<Buffer, RingView> for Grab {
    ghost use Rattle.frame_ring.specs.RingRule.{RingMoment};

    ghost fact = { RingMoment };
}

/// Who carries all passes takes it out.
pub(crate) struct Drain;

impl Outcome<Buffer, RingView> for Drain {
    ghost use Rattle.frame_ring.specs.Steps.{Drains};

    ghost then = { Drains };
}

impl Lesson<Buffer, RingView> for Drain {
    ghost use Rattle.frame_ring.specs.RingRule.{RingMoment};

    ghost fact = { RingMoment };
}

/// The rule of the free queue.
pub(crate) struct Spare;

impl Protocol<Buffer, FreeView> for Spare {
    ghost use Rattle.frame_ring.specs.FreeRule.{FreeRule, filling};

    ghost holds = { FreeRule };

    ghost first = { filling 0 };
}

/// How many buffers were free at a moment.
impl Lesson<Buffer, FreeView> for Spare {
    ghost use Rattle.frame_ring.specs.FreeRule.{FreeMoment};

    ghost fact = { FreeMoment };
}

/// A new buffer goes into the free queue.
pub(crate) struct Fill;

impl Outcome<Buffer, FreeView> for Fill {
    ghost use Rattle.frame_ring.specs.Steps.{Fills};

    ghost then = { Fills };
}

impl Lesson<Buffer, FreeView> for Fill {
    ghost use Rattle.frame_ring.specs.FreeRule.{FreeMoment};

    ghost fact = { FreeMoment };
}

/// The last one does, which is the marker.
pub(crate) struct FillLast;

impl Outcome<Buffer, FreeView> for FillLast {
    ghost use Rattle.frame_ring.specs.Steps.{FillsLast};

    ghost then = { FillsLast };
}

impl Lesson<Buffer, FreeView> for FillLast {
    ghost use Rattle.frame_ring.specs.FreeRule.{FreeMoment};

    ghost fact = { FreeMoment };
}

/// A free buffer is taken.
pub(crate) struct Take;

impl Outcome<Buffer, FreeView> for Take {
    ghost use Rattle.frame_ring.specs.Steps.{Takes};

    ghost then = { Takes };
}

impl Lesson<Buffer, FreeView> for Take {
    ghost use Rattle.frame_ring.specs.FreeRule.{FreeMoment};

    ghost fact = { FreeMoment };
}

/// A buffer becomes free again.
pub(crate) struct Give;

impl Outcome<Buffer, FreeView> for Give {
    ghost use Rattle.frame_ring.specs.Steps.{Gives};

    ghost then = { Gives };
}

impl Lesson<Buffer, FreeView> for Give {
    ghost use Rattle.frame_ring.specs.FreeRule.{FreeMoment};

    ghost fact = { FreeMoment };
}

/// One pass stays, and the others go to a new one.
pub(crate) struct SplitPasses;

impl Split<RingView> for SplitPasses {
    ghost use Rattle.frame_ring.specs.Steps.{one_pass, other_passes};

    ghost left = { one_pass };

    ghost right = { other_passes };
}

impl Split<FreeView> for SplitPasses {
    ghost use Rattle.frame_ring.specs.Steps.{one_count, other_counts};

    ghost left = { one_count };

    ghost right = { other_counts };
}

/// One pass takes in another.
pub(crate) struct JoinPasses;

impl Join<RingView> for JoinPasses {
    ghost use Rattle.frame_ring.specs.Steps.{joined, spent};

    ghost both = { joined };

    ghost spent = { spent };
}

impl Join<FreeView> for JoinPasses {
    ghost use Rattle.frame_ring.specs.Steps.{joined_counts, spent_count};

    ghost both = { joined_counts };

    ghost spent = { spent_count };
}
