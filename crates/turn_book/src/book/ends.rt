//! How a book is made with its seats, and how it is closed.
ghost use Rattle.std.specs.Prelude.{◌≡◌, ℕ, ◌+◌, ◌<◌, ◌≤◌, [], ◌∷◌, false, None, Some, map, length, All, Contains, IfOk, IfErr, vec_capacity};
ghost use Rattle.std.specs.List.{range_with_len};
ghost use Rattle.turn_book.specs.Views.{BeginsWith, knows};
ghost use Rattle.turn_book.specs.Rule.{beginning};
ghost use Rattle.turn_book.specs.Seats.{seats_in, limit_of};
ghost use Rattle.turn_book.specs.Books.{opened, seats_of, seen, place_of, IsFresh, AreAllOf, HasOwn, OwnedBySeats};

use crate::book::Book;
use crate::entries::Entries;
use crate::rule::{JoinSeats, SplitSeats};
use crate::seat::{Seat, SeatList};
use crate::view::Knows;
use atomic_table::{Refused, Table};
use std::alloc::Global;
use std::snapshot::Snapshot;

// The turns of a new seat.
const TURNS: u64 = 1 << 32;

impl<M: Entries> Book<M> {
    /// A book of that value, and its seats, numbered from 0 in the list's order. `Err` gives the
    /// value back, and comes only from want of memory.
    pub fn new(alloc: Global, value: M, seats: u32) -> Result<(Book<M>, SeatList<M>), M>
        requires { (1 ≤ seats) × (seats ≤ 25) }
        ensures book { IfOk result (λ made. (opened made.0 ≡ value) × (seats_of made.0 ≡ seats)) }
        ensures all { IfOk result (λ made. AreAllOf M.entries M.fixed made.0 made.1) }
        ensures fresh { IfOk result (λ made. All (IsFresh M.entries M.fixed made.0) (seats_in made.1)) }
        ensures numbers { IfOk result (λ made. map (λ s. s.number) (seats_in made.1) ≡ range_with_len 0 seats) }
        ensures limit { IfOk result (λ made. limit_of made.1 ≡ seats) }
        ensures err { IfErr result (λ back. back ≡ value) }
    {
        let Ok(items) = Vec::with_capacity(alloc, seats as usize) else {
            return Err(value);
        };
        let Ok(mut slots) = Vec::with_capacity(alloc, 1) else {
            return Err(value);
        };
        let key = (Snapshot::of(&value), u64::from(seats));
        slots.push_reserved(Some(value));
        match Table::new(alloc, &[0, 0], slots, &key) {
            Ok((table, token)) => {
                let book = Book { table };
                let items = book.seat_all(token, items, seats);
                Ok((book, SeatList { items }))
            }
            Err(Refused { slots }) => Err(only(slots)),
        }
    }

    // Cuts one seat after another off the token that carries the places of all.
    fn seat_all(
        &self,
        mut rest: atomic_table::Seat<Option<M>, Knows<M::Entry, M::Fixed>>,
        mut items: Vec<Seat<M>>,
        seats: u32,
    ) -> Vec<Seat<M>>
        requires table { (rest.table_id ≡ self.now.table.shared.table_id) × (rest.table_id.words ≡ 2) × (rest.table_id.slots ≡ 1) }
        requires rest { rest.me ≡ (beginning (M.entries (opened self.now)) (M.fixed (opened self.now)) seats, []) }
        requires room { (1 ≤ seats) × (items.items ≡ []) × (vec_capacity items ≡ seats) }
        ensures fresh { All (IsFresh M.entries M.fixed self.now) result.items }
        ensures numbers { map (λ s. s.number) result.items ≡ range_with_len 0 seats }
        ensures limit { vec_capacity result ≡ seats }
    {
        for number in 0..seats - 1 {
            let next = self.table.shared.split_seat::<SplitSeats>(&mut rest);
            items.push_reserved(Seat {
                token: rest,
                number,
                left: TURNS,
            });
            rest = next;
        }
        items.push_reserved(Seat {
            token: rest,
            number: seats - 1,
            left: TURNS,
        });
        items
    }

    /// Gives the value back, where all seats of the book are handed in.
    pub fn close(self, seats: SeatList<M>) -> M
        requires { AreAllOf M.entries M.fixed self seats }
        ensures fixed { M.fixed result ≡ M.fixed (opened self) }
        ensures begins { BeginsWith (M.entries result) (M.entries (opened self)) }
        ensures seen { All (λ s. BeginsWith (M.entries result) (seen s)) (seats_in seats) }
        ensures own { All (HasOwn M.entries M.fixed M.owner self (M.entries result)) (seats_in seats) }
        ensures owned { OwnedBySeats M.entries M.fixed M.owner self seats (M.entries result) }
        ensures all { (number : ℕ) → number < seats_of self → Contains (map (λ s. s.number) (seats_in seats)) number }
    {
        let token = self.gather_all(seats);
        let Book { table } = self;
        let mut closed = table.close_with(token);
        let value = closed.take(0);
        closed.free();
        value.unwrap()
    }

    // One token that carries the places of all seats, in the list's order.
    fn gather_all(
        &self,
        mut seats: SeatList<M>,
    ) -> atomic_table::Seat<Option<M>, Knows<M::Entry, M::Fixed>>
        requires { AreAllOf M.entries M.fixed self.now seats }
        ensures table { result.table_id ≡ self.now.table.shared.table_id }
        ensures places { result.me ≡ (knows (map place_of (seats_in seats)) None false (M.entries (opened self.now)) (Some (M.fixed (opened self.now))), []) }
    {
        let mut all = seats.pop().unwrap().token;
        while let Some(other) = seats.pop() {
            self.table
                .shared
                .join_seat::<JoinSeats>(&mut all, other.token);
        }
        all
    }
}

// The value of a list of one.
fn only<M>(mut slots: Vec<Option<M>>) -> M
    requires { (value : M) × (slots.items ≡ Some value ∷ []) }
    ensures { slots.items ≡ Some result ∷ [] }
{
    let value = slots.pop().unwrap().unwrap();
    slots.destroy_empty();
    value
}
