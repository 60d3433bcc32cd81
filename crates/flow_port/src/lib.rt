//! One adapter that several callers use in turns, each with a seat of its own.
//!
//! The shell and the agents of flow queues change rules while workers let frames pass, each on a thread of its own. All of
//! them ask one adapter, and whoever reads what happened wants one history, in which each reply and each verdict is the one
//! that was due at its place.
//!
//! ```text
//! let (port, mut seats) = FlowPort::new(alloc, adapter, &[Caller(0), Caller(9)])?;
//! let mut worker = seats.pop().unwrap();                       // caller 9
//! let mut shell = seats.pop().unwrap();                        // caller 0
//! port.call(&rt, &mut shell, &create)                          // on a thread: Created(0)
//! verdicts.push(replica.classify(&parcels[0].key));            // on another, before its turn
//! port.burst(&rt, &mut worker, &mut replica, &parcels, &mut verdicts)    // it passes by the new rule
//! seats.push(shell); seats.push(worker);
//! port.close(seats).entries()                                  // 2
//! ```
//!
//! The naive answer gives each caller an adapter of its own, and joins the lists of entries at the end. Then a caller never sees
//! another's rules, and no order of the entries explains all replies. Here the adapter is the value of a book (`turn_book`): a
//! caller waits for its turn, makes its call while it has the adapter to itself, and puts it back. So the entries have the order
//! of the turns, and the history is legal because the adapter's is.
//!
//! **Model.** A seat tells the history that its caller has seen, and the entries of its own in it. What is proved (`FlowPort`):
//!
//! - `call`: what the seat has seen is legal, begins with what it had seen, and ends with this call and the reply that was
//!   answered; the seat's own entries are what they were, and this one. Behind want of memory there is no entry of the call.
//! - `burst`: the same with an entry for each frame, in order, with the verdicts that it hands out. A worker classifies its frames on
//!   a replica of its own, which stands in a front of what its seat has seen, and they are packed before the turn. In the turn versions
//!   are compared; only where rules changed since does the replica catch up, and the frames are classified and packed again. Then
//!   all of them are entered by one call. Behind want of memory no frame has an entry, and there are no verdicts.
//! - `close`: the adapter has the limits that it came with, and a legal history that begins with the one that it came with
//!   and with all that each seat has seen. Behind that opening each caller's entries are its seat's own ones, in order, and no
//!   other caller has an entry.
//!
//! Who owns an entry is read off its caller (`specs/Owners`): the book numbers seats, and a seat's number is the place of its
//! caller in the list that the port was made with. What the entries of a seat are (`mine`) is a word of this crate, and
//! nothing above looks inside.
//!
//! Each call and each burst costs a turn, whatever it answers. Nothing is said of when a turn comes.
#![tactic(auto)]

mod frames;
mod held;
mod port;
mod seat;

pub use port::FlowPort;
pub use seat::{PortSeat, PortSeats};
