//! A bounded ring of frames, from one reader to several workers, with an account of each frame.
//!
//! A reader fills buffers and workers empty them. The buffers are all made at the start, so that no
//! frame takes memory, and a reader that is too fast has to wait or to help:
//!
//! ```text
//!           take_free              offer                grab
//! free queue --------> in hands --------> the ring --------> in hands
//!     ^                                                         |
//!     +----------------------- give_back -----------------------+
//! ```
//!
//! **The naive answer** is one queue under a lock and a list of spare buffers under another. Of a
//! plain queue that threads share, with a lock or without, a contract can say nothing: another
//! thread may have changed it before the call returns. So nobody could prove afterwards that each
//! frame was handled once. Here both queues are bounded queues without a lock, of
//! `crossbeam_queue`, and each has a rule: a fact about what it holds and about what its callers
//! know, which every single step keeps. A caller knows what it did itself, and carries that in a
//! `RingPass`, which has no bytes of shared memory.
//!
//! **Model.** A ring is the list of frames that were offered, in the order of their numbers; a front
//! of it came out, and the rest is in the ring. A pass is its account: the frames that it offered
//! and grabbed, and how many buffers it took free and gave back. A buffer is a `Frame`: its number,
//! lengths, stamp and bytes.
//!
//! **While others use the ring**, a call tells what it did to the account of its pass. A frame is
//! grabbed with the very bytes with which it was offered, and numbers rise for each pass. On a ring
//! with one pass the answers `None` and `Err` are exact.
//!
//! **What `None` and `Err` don't promise.** On a ring with several passes they say that the queue was
//! empty or full in some state that fits the rule and what this pass did. What the others did is not
//! known to it, so there mostly is such a state: a body that always answers `None`, or always hands a
//! buffer back, meets these clauses. `Err` of `offer` alone says more, as pass 0 offers all frames:
//! it has offered at least as many that it didn't grab itself as the ring has room for. Whatever the
//! answers, no frame and no buffer is lost, and at the end `drain` is exact.
//!
//! **At the end** who holds all passes again knows the whole. `drain` joins them, gives what is left
//! from the oldest on, and answers `None` exactly where nothing is. Then each frame that was offered
//! was grabbed or drained just once, and no other was. The frames of a pass rise, and the drained
//! ones come behind all others. Buffers are lost by no call: those that are free, in the ring, taken
//! free, grabbed and drained are together as many as those made, offered and given back.
//!
//! **How the rules know the ring.** A rule can't name a run-time value, as the floor or the number
//! of passes. So `new` sends a marker through the ring's queue, a buffer whose number is the floor,
//! and whose other fields are the capacity and the number of passes; what comes out begins the
//! account. In the free queue the last buffer that is put in is that marker.
//!
//! **Between two steps** the frames that came out and those in the ring, together, are the list that
//! pass 0 offered, a row of rising numbers above the floor. What came out is what the passes grabbed
//! and drained, weighed by any weight, and no frame of a pass lies behind the last one that came
//! out (`specs/RingRule.antt`). For the free queue the rule is a sum (`specs/FreeRule.antt`).
//! `specs/Steps.antt` says what a step tells, `specs/Passes.antt` and `specs/Rings.antt` what
//! contracts see of passes and rings, and `specs/Changes.antt` what a call does to an account.
//!
//! Pass 0 alone offers, in rising numbers. Buffers of another ring may come in: they count as given
//! back or offered. Nothing is said of time, and all calls on the queues may wait. `shut` is a hint
//! for the workers, on which no promise rests.
#![tactic(auto)]

mod buffer;
mod pass;
mod ring;
mod rule;
mod view;

pub use buffer::{BUFFER_BYTES, Buffer};
pub use pass::{RingPass, RingPasses};
pub use ring::FrameRing;
