//! Crews at a port: the seats of its callers handed to threads of their own, and gathered again.
//!
//! What several callers do to one port can only be seen where they do it at once, and whoever wants to test or to time that needs the
//! same things: an adapter with some rules, a port over it, a thread for each seat, and the closed history.
//!
//! ```text
//! let adapter = open_adapter(alloc, limits, &first)?;           // the calls before the port
//! let run = run_crew(&rt, adapter, &plan)?;                     // the shell and `plan.workers` workers
//! run.adapter.entries()                                         // all that was asked and all that passed
//! ```
//!
//! A worker bursts the frames of its share (`Share`), which are a function of their numbers (`frame`), so whoever reads the history
//! knows what each frame was. The shell asks its calls in order for as long as a worker is at work, so that rules change all through
//! the run, and the run tells how many it asked. A pause between two calls is a turn for other threads, or some time.
//!
//! Want of memory is an answer, since nothing that runs on a thread may end the process. Nothing is said here of who comes first: that
//! a history is the right one is what the tests above look at. Only tests and benchmarks use this crate. It has none itself, so
//! it is proved once.
#![tactic(auto)]

mod asking;
mod crew;
mod opening;
mod passing;
mod plan;
mod seating;
mod share;

pub use crew::{Run, run_crew};
pub use opening::open_adapter;
pub use plan::{MAX_BURST, Plan};
pub use share::{Share, frame};
