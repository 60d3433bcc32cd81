//! The ring: two bounded queues under their rules.
mod calls;
mod draining;
mod making;

use crate::buffer::Buffer;
use crate::rule::{InRing, Spare};
use crate::view::{FreeView, RingView};
use crossbeam_queue::RuledArrayQueue;
use std::sync::atomic::AtomicBool;

/// A bounded ring of frames, and beside it the queue of its free buffers.
#[derive(Drop)]
pub struct FrameRing {
    pub(crate) ring: RuledArrayQueue<Buffer, RingView, InRing>,
    pub(crate) free: RuledArrayQueue<Buffer, FreeView, Spare>,
    pub(crate) floor: u32,
    pub(crate) passes: u32,
    pub(crate) shut: AtomicBool,
}
