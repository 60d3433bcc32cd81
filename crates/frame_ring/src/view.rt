//! What a pass knows of the two queues. No value of these types is ever made.
use crate::buffer::Buffer;
use std::collections::LinkedList;

/// What one pass offered to the ring and grabbed from it.
pub struct PassFrames {
    pub number: u64,
    pub offered: LinkedList<Buffer>,
    pub grabbed: LinkedList<Buffer>,
}

/// How many buffers one pass took free and gave back.
pub struct PassCounts {
    pub number: u64,
    pub taken: u64,
    pub given: u64,
}

/// While a ring is made a marker goes through its queue. It tells the rule what the ring is made
/// with, which no rule knows by itself.
pub enum Stage {
    Empty,
    Marked,
    Running,
}

/// What one pass knows of the ring's queue. While the passes are made or joined, one carries the
/// frames of several.
pub struct RingView {
    pub stage: Stage,
    pub floor: u64,
    pub passes: u64,
    pub capacity: u64,
    pub own: LinkedList<PassFrames>,
    pub drained: LinkedList<Buffer>,
}

/// What one pass knows of the free queue, in the same way.
pub struct FreeView {
    /// All buffers were made.
    pub complete: bool,
    pub passes: u64,
    pub made: u64,
    pub own: LinkedList<PassCounts>,
}
