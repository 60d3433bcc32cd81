//! What a crew does.
use flow_calls::Call;
use packet_headers::Key;
use std::alloc::Global;
use std::time::Duration;

/// The most frames of a burst.
pub const MAX_BURST: usize = 32;

/// What the shell and the workers of a crew do at a port.
#[derive(Clone, Copy)]
pub struct Plan<'a> {
    pub alloc: Global,
    /// How many workers there are, 1 to 16.
    pub workers: u8,
    /// The frames have the numbers 1 to this one. Number n goes to worker n mod `workers`.
    pub frames: u32,
    /// The headers of the frames, which come in turn.
    pub keys: &'a [Key],
    /// The most frames of a burst, 1 to `MAX_BURST`.
    pub burst: usize,
    /// What the shell asks, in order, for as long as a worker is at work.
    pub calls: &'a [Call],
    /// How long it waits between two calls. Without it other threads have their turn.
    pub pause: Option<Duration>,
}
