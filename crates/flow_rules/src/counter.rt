//! What counters there are, and what they count.

/// A counter of frames and bytes: a rule's own, or that of an action that rules share, each by its id.
#[derive(Clone, Copy, PartialEq, Eq, Debug)]
pub enum Counter {
    Rule(u32),
    Shared(u32),
}

/// How many frames were counted, and how many bytes they had.
#[derive(Clone, Copy, PartialEq, Eq, Debug, Default)]
pub struct Count {
    pub hits: u64,
    pub bytes: u128,
}
