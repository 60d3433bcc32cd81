//! One caller's right to turns at a book, and the list in which seats are handed out.
ghost use Rattle.std.specs.Prelude.{◌≡◌, ◌<◌, ◌++◌, ◌↔◌, [], ◌∷◌, length, IsNone, IsErr, OnOk, IfErr, option_to_list};
ghost use Rattle.turn_book.specs.Seats.{seats_in, limit_of};

use crate::entries::Entries;
use crate::view::Knows;

/// One caller's seat at a book. It may go to another thread, and takes the turns there. Threads may
/// also share it by reference.
#[derive(Drop)]
pub struct Seat<M: Entries> {
    pub(crate) token: atomic_table::Seat<Option<M>, Knows<M::Entry, M::Fixed>>,
    pub(crate) number: u32,
    pub(crate) left: u64,
}

// The base crate's seat is `Send` alone. That sharing is fine too is proved in
// proofs/SharedSeats.antt, and each function that shares a seat or a list of seats cites it.
unsafe impl<M: Entries + Send> Sync for Seat<M> {}

impl<M: Entries> Seat<M> {
    /// The turns that this seat may still take.
    pub fn turns_left(&self) -> u64
        ensures { result ≡ self.now.left }
    {
        self.left
    }

    /// Which of the book's seats it is, from 0.
    pub fn number(&self) -> u32
        ensures { result ≡ self.now.number }
    {
        self.number
    }
}

/// Seats of one book. It holds at most as many as it was made with.
#[derive(Drop)]
pub struct SeatList<M: Entries> {
    pub(crate) items: Vec<Seat<M>>,
}

impl<M: Entries> SeatList<M> {
    /// Takes the last seat.
    pub fn pop(&mut self) -> Option<Seat<M>>
        ensures empty { IsNone result ↔ (seats_in self.old ≡ []) }
        ensures last { seats_in self.old ≡ seats_in self.new ++ option_to_list result }
        ensures limit { limit_of self.new ≡ limit_of self.old }
    {
        self.items.pop()
    }

    /// Puts a seat behind the others, or hands it back where the list is full.
    pub fn push(&mut self, seat: Seat<M>) -> Result<(), Seat<M>>
        ensures full { IsErr result ↔ (length (seats_in self.old) ≡ limit_of self.old) }
        ensures ok { OnOk result (seats_in self.new ≡ seats_in self.old ++ seat ∷ []) }
        ensures err { IfErr result (λ refused. (refused ≡ seat) × (seats_in self.new ≡ seats_in self.old)) }
        ensures limit { limit_of self.new ≡ limit_of self.old }
    {
        if self.items.len() == self.items.capacity() {
            return Err(seat);
        }
        self.items.push_reserved(seat);
        Ok(())
    }
}
