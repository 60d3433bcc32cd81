//! A flow queue's operations in flight, and their results.
//!
//! rte_flow lets an application enqueue operations on a flow queue and learn of their results later.
//! An operation is first held. A push performs the held ones, the oldest first, and each leaves its
//! result. A pull then removes results in the order of their operations. All this time an operation
//! has a place in the queue, and a queue whose places are all taken refuses the next one.
//!
//! ```text
//! let mut queue = OpQueue::new(alloc, 2)?;
//! queue.hold("destroy 0");                    // Ok(())
//! queue.hold("destroy 0");                    // Ok(())
//! while let Some(op) = queue.pop_held() {
//!     queue.finish(performed(op));            // true, then false
//! }
//! queue.hold("destroy 1");                    // Err("destroy 1"): no result was pulled
//! queue.pull(2);                              // true, false
//! queue.hold("destroy 1");                    // Ok(())
//! ```
//!
//! **Model.** A contract sees a queue as its size, the list of held operations, the number of
//! results that are owed, and the list of results that wait; `in_flight` is these three together.
//!
//! **The naive answer** is one list of places in the order of the holds, each held, owed or done.
//! The queue is full where the list is as long as its size, `pop_held` looks for the first held
//! place, `finish` for the first owed one, and `pull` takes the done ones off the front. Operations
//! are popped and finished in the order of their holds, so the done places come first in that list,
//! then the owed ones, then the held ones. Here each part stands by itself: the done and the held ones
//! in a ring each, and of the owed ones, which hold nothing, only the number. So no call has to
//! look for its place. The tests run the naive list beside the queue.
//!
//! **Between calls** held, owed and waiting operations together are at most the size, and each ring
//! has room for the size. So a result finds room whenever one is owed, and no call but `new` takes
//! memory.
//!
//! A pull answers `Outcomes`, a list of truth values with a bit each, small enough to be kept in a
//! history. A contract sees it as that list, and two are equal where their lists are.
//!
//! What performs an operation, and what its result is, is for the caller to say. The definitions
//! stand in `specs/OpQueue.antt` and `specs/Outcomes.antt`.
#![tactic(auto)]

mod op_queue;
mod outcomes;

pub use op_queue::OpQueue;
pub use outcomes::Outcomes;

/// The largest size of a queue, and the most results that one pull answers. Contracts say the number.
pub const MAX_SIZE: u16 = 1024;
