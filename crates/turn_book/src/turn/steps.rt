//! How a turn begins, lends the value, and ends.
ghost use Rattle.std.specs.Prelude.{◌≡◌, ◌≢◌, ◌+◌, ◌<◌, ◌++◌, List, []};
ghost use Rattle.std.specs.Borrow.{Lends, sem};
ghost use mir.Syntax.{named};
ghost use Rattle.turn_book.specs.contracts.turn.Turn.{the_row};
ghost use Rattle.turn_book.specs.Books.{opened, seen, IsSeatOf, IsInTurn, mine, Continues, Gains};
ghost use Rattle.turn_book.specs.Turns.{with_value};

use crate::book::Book;
use crate::entries::Entries;
use crate::rule::{Draw, Leave, Look};
use crate::seat::Seat;
use crate::turn::Turn;
use std::hint::spin_loop;
use std::sync::Wait;
use std::thread::yield_now;

// The words of the table.
const NEXT: usize = 0;

const SERVING: usize = 1;

// The slot of the value.
const VALUE: usize = 0;

// Looks at the served ticket before the thread begins to yield.
const SPINS: u32 = 64;

impl<M: Entries> Book<M> {
    /// Takes a ticket, waits until it is served, and takes the value out.
    pub fn turn<'a, R: Wait>(&'a self, rt: &R, seat: &'a mut Seat<M>) -> Turn<'a, M>
        requires seat { IsSeatOf M.entries M.fixed self.now seat.old }
        requires left { 0 < seat.old.left }
        ensures seat { result.seat.ghost_name ≡ seat.entry.ghost_name }
        ensures book { result.book.now ≡ self.now }
        ensures turn { IsInTurn M.entries M.fixed self.now result.seat.now }
        ensures same { (result.seat.now.number ≡ seat.old.number) × (result.seat.now.left + 1 ≡ seat.old.left) }
        ensures seen { seen result.seat.now ≡ M.entries result.value }
        ensures fixed { M.fixed result.value ≡ M.fixed (opened self.now) }
        ensures continues { Continues M.entries M.fixed M.owner self.now seat.old result.value }
        ensures mine { mine M.entries M.fixed M.owner self.now result.seat.now ≡ mine M.entries M.fixed M.owner self.now seat.old }
    {
        let shared = &self.table.shared;
        let ticket = shared.fetch_add::<Draw>(&mut seat.token, NEXT, 1);
        seat.left -= 1;
        let mut looks = 0;
        for _ in rt.forever() {
            if shared.load::<Look<M>>(&mut seat.token, SERVING) == ticket {
                let value = shared.exchange(&mut seat.token, VALUE, None).unwrap();
                return Turn {
                    book: self,
                    seat,
                    value,
                };
            }
            looks = pause(looks);
        }
        unreachable!()
    }
}

// Spins a little, then yields.
fn pause(looks: u32) -> u32 {
    if looks < SPINS {
        spin_loop();
        looks + 1
    } else {
        yield_now();
        looks
    }
}

impl<'a, M: Entries> Turn<'a, M> {
    /// The value, to read and to change.
    pub fn value(&mut self) -> &mut M
        ensures* lends { sem 𝓛 (Lends (the_row (record { mir = named 1; lft = [] }) M.row M.Entry.row M.Fixed.row M.Entries) M.row self.entry result (with_value self.old)) }
        ensures value { result.now ≡ self.old.value }
    {
        &mut self.value
    }

    /// Puts the value back, and the next ticket is served.
    pub fn done(self)
        requires turn { IsInTurn M.entries M.fixed self.book.now self.seat.now }
        requires gains { Gains M.entries M.fixed M.owner self.seat.now self.value }
        requires fixed { M.fixed self.value ≡ M.fixed (opened self.book.now) }
        ensures seat { IsSeatOf M.entries M.fixed self.entry.book.now self.exit.1.0.now }
        ensures same { (self.exit.1.0.now.number ≡ self.entry.seat.now.number) × (self.exit.1.0.now.left ≡ self.entry.seat.now.left) }
        ensures seen { seen self.exit.1.0.now ≡ M.entries self.entry.value }
        ensures mine { (gained : List M.Entry) → M.entries self.entry.value ≡ seen self.entry.seat.now ++ gained → mine M.entries M.fixed M.owner self.entry.book.now self.exit.1.0.now ≡ mine M.entries M.fixed M.owner self.entry.book.now self.entry.seat.now ++ gained }
    {
        let Turn { book, seat, value } = self;
        let shared = &book.table.shared;
        let nothing = shared.exchange(&mut seat.token, VALUE, Some(value));
        let None = nothing else { unreachable!() };
        shared.fetch_add::<Leave<M>>(&mut seat.token, SERVING, 1);
    }
}
