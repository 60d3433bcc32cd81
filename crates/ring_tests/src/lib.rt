//! Rings driven step by step by one pass and by two, and by four threads at once.
//!
//! The four threads share a hundred thousand frames and eight buffers, and the sum of the numbers that they grabbed is that of
//! all frames. Which pass may offer is known by its place in the list that the ring was made with. These tests stand in a crate
//! of their own because a crate is proved twice where it has tests. They call public functions alone.
#![tactic(auto)]

#[cfg(test)]
mod four_threads;
#[cfg(test)]
mod passes;
#[cfg(test)]
mod small_rings;
