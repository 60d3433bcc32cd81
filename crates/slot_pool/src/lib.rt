//! A pool of places, each with room for one value, and chains that run through them.
//!
//! A caller that keeps many small things, as rules, wants three operations that take no memory and no time that grows
//! with their number: put one in, take one out by its name, and walk those that belong together. The pool takes its
//! memory when it is made or grown. `put` gives a handle, the value's name from then on. `Chain`s group handles: each
//! is a list in the order of `link`, and one pool carries any number of them, none of which shares a handle.
//!
//! Contracts see a pool as the list of the handles and values that live, in the order of their puts, with the
//! capacity, the number of puts and the links of the chains; and a chain, with its pool's links, as a list of handles.
//!
//! The naive answer is just that: a list of pairs to search, and a list of handles for each chain. This one answers
//! the same, for these reasons.
//!
//! - A handle is a place and the number of puts before its own. A place that was freed may be filled again, but with
//!   another number, so the handle of a value that was taken finds nothing, whatever lies in its place.
//! - The free places are a list through the places themselves: each names the next. The list has every free place,
//!   so `put` fails exactly where as many values live as there are places.
//! - A chained value keeps the handles of its two neighbours, and a `Chain` its two ends. `link` and `unlink` write at
//!   those neighbours alone, so a chain that shares no handle with the changed one stays as it was. `put`, `take` and
//!   `get_mut` write no link at all: their clauses give the same links, and with them every chain.
//!
//! Between calls no two values have one number, every number is below the number of puts, and the list of free
//! places is whole. Which handles a chain has is for its caller to keep: `IsChain` says that the links of the pool
//! carry it, and each call that changes links says what becomes of this chain and of the others.
//!
//! `specs/Pool.antt` has what contracts see of a pool, `specs/Links.antt` what they see of chains, and
//! `specs/Lends.antt` how a write through `get_mut` comes back. `specs/Place.antt` says how the places are laid out,
//! which no caller needs.
//!
//! ```text
//! let handle = pool.put(rule)?;       // a place and the number of puts so far
//! pool.link(&mut bucket, handle);     // last in its bucket
//! let mut at = pool.first(&bucket);   // Some(handle)
//! pool.unlink(&mut bucket, handle);
//! pool.take(handle);                  // Some(rule), and `get(handle)` is None from now on
//! ```
#![tactic(auto)]

mod chain;
mod handle;
mod place;
mod pool;

pub use chain::Chain;
pub use handle::Handle;
pub use pool::Pool;
