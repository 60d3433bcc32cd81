//! A phase on running threads: the shell, the agents of flow queues and the packet workers over one shared port.
//!
//! Its model in one sentence: however the callers take turns, what a phase adds to the history is a legal middle, in which each
//! caller asks just its calls in order and each frame passes once, by its worker.
//!
//! The problem. While a phase runs, calls change rules and frames pass, each caller on a thread of its own. The reader of the
//! transcript wants one history all the same, and the transmit file wants each frame as the rules edited it at its place.
//!
//! The naive answer runs the callers one after the other: that is one of the middles, and the serial session takes it. Here a port
//! is made of the adapter (`flow_port`), each caller has a seat and a thread, and the port is closed when all are done. So the
//! adapter's entries have the order of the turns.
//!
//! - `work` (`src/worker.rt`): a worker takes its frames in bursts of at most 32, classifies them on its replica, lets them pass in one
//!   turn, and keeps a copy of each that goes out, as the replica edits it.
//! - `in_order` (`src/order.rt`): the copies of all workers in the order of the history.
//! - `run_middle` (`src/middle.rt`): the port, its seats, the threads, the join and the close. Which frame is whose stands in
//!   `src/shares.rt` alone: frame k goes to worker k mod workers.
//!
//! Where no thread can be made the callers run one after the other, and that ends too. Want of memory of any caller makes the whole
//! middle answer it. Nothing is said of who comes first, nor of time.
#![tactic(auto)]

mod actors;
mod asking;
mod copies;
mod handing;
mod middle;
mod order;
mod roster;
mod seating;
mod shares;
mod worker;

pub use copies::FrameCopy;
pub use middle::{Middle, Phase, run_middle};
