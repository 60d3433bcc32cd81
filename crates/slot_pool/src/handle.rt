//! Handles of values.

/// The name of a value in a pool: its place, and how many values were put before it.
///
/// No two puts give one handle, so the handle of a value that was taken finds nothing, whatever lies in its place.
#[derive(Clone, Copy, PartialEq, Eq, Debug)]
pub struct Handle {
    /// How many puts succeeded before this one.
    pub number: u64,
    /// The index of the place, below the capacity.
    pub place: u32,
}
