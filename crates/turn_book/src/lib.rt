//! One value that several threads change in turns, with a history that each of them can rely on.
//!
//! It is a ticket lock: word 0 of a table is the next ticket, word 1 the ticket that is served, and
//! the table's one slot holds the value. A caller adds one to the first word and so draws its
//! ticket, reads the second word until it is that ticket, takes the value out, changes it, puts it
//! back, and adds one to the second word. What a lock doesn't tell is what the value was when it was
//! taken: under a plain mutex only a fact of the value's type is known. Here the value carries its
//! own history. By `Entries` contracts see it as a list of entries, each owned by one seat, and as a
//! fixed part that no turn changes. A caller keeps, in a `Seat`, the history that it has seen last.
//!
//! The model: there is one history, which begins with the opening, the entries that the book was
//! made with, and only grows. Each turn appends entries of its own seat.
//!
//! The naive design gives each caller a value of its own and merges the lists at the end. Then no
//! caller sees what another did, and no order of the calls explains all answers. With one value
//! under a lock the order is that of the tickets. What is proved is what a single thread would know
//! of the list:
//!
//! - `turn` hands out a value that begins with all that the seat has seen, and no entry behind that
//!   is the seat's own;
//! - `done` asks that the value still begins so, that each entry it gained is the seat's own, and
//!   that the fixed part is the book's; then the seat has seen the whole history;
//! - `close` takes all seats, and gives a value that begins with what each of them has seen. Behind
//!   the opening each seat's entries are just its own ones, in order, and there are no others.
//!
//! Between two steps the rule of the table holds (`specs/Rule.antt`), a fact about the two words,
//! the slot and what each seat knows. The history begins with what a seat has seen, and no later
//! entry is that seat's. Some seat has seen all of it. Each ticket from the served one on is just
//! one seat's. The slot is at home with a value that has just this history, or out with the one seat
//! in its turn, which has seen it all. `specs/Plays.antt` says what a step tells its caller, and
//! `specs/Books.antt` what the contracts say of a book and its seats.
//!
//! A seat has no bytes of shared memory and may go to another thread. Its number and the turns that
//! it has left are plain fields; with at most 25 seats of 2^32 turns no word reaches its end. Nothing
//! is said of time: not that a turn comes, nor in which order callers draw. `turn` alone may wait. It
//! spins a little, and then yields between two looks.
#![tactic(auto)]

mod book;
mod entries;
mod rule;
mod seat;
mod turn;
mod view;

pub use book::Book;
pub use entries::Entries;
pub use seat::{Seat, SeatList};
pub use turn::Turn;
