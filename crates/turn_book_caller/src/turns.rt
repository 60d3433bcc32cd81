//! A turn that notes one value.
ghost use Rattle.std.specs.Prelude.{◌≡◌, ◌+◌, ◌^◌, ◌<◌, ◌≤◌, ◌++◌, [], ◌∷◌, OnOk, OnErr};
ghost use Rattle.turn_book.specs.Seats.{seats_in, limit_of};
ghost use denote.Param.Send.{IsSync};
ghost use Rattle.turn_book.specs.Books.{IsSeatOf, seats_of, mine, seen};
ghost use Rattle.turn_book_caller.specs.Logs.{entries_of, fixed_of, owner_of, entry, IsNoted};

use crate::log::{Log, LogEntry};
use std::alloc::{AllocError, Global};
use std::sync::Wait;
use std::thread::{Threads, join_mut};
use turn_book::{Book, Seat, SeatList};

/// Takes a turn and notes the value. `Err` is want of memory; the turn is spent all the same.
pub fn note<R: Wait>(
    rt: &R,
    book: &Book<Log>,
    seat: &mut Seat<Log>,
    value: u64,
) -> Result<(), AllocError>
    requires seat { IsSeatOf entries_of fixed_of book.now seat.old }
    requires left { 0 < seat.old.left }
    ensures seat { IsSeatOf entries_of fixed_of book.now seat.new }
    ensures same { (seat.new.number ≡ seat.old.number) × (seat.new.left + 1 ≡ seat.old.left) }
    ensures noted { OnOk result (IsNoted (seen seat.old) (seen seat.new) seat.old.number (entry seat.old.number value ∷ [])) }
    ensures not_noted { OnErr result (IsNoted (seen seat.old) (seen seat.new) seat.old.number []) }
    ensures mine { OnOk result (mine entries_of fixed_of owner_of book.now seat.new ≡ mine entries_of fixed_of owner_of book.now seat.old ++ entry seat.old.number value ∷ []) }
{
    let by = seat.number();
    let mut turn = book.turn(rt, seat);
    let noted = turn.value().entries.push(LogEntry { by, value });
    turn.done();
    if noted.is_ok() {
        Ok(())
    } else {
        Err(AllocError)
    }
}

/// Notes the values below `count`, one in each turn.
pub fn note_below<R: Wait>(
    rt: &R,
    book: &Book<Log>,
    seat: &mut Seat<Log>,
    count: u64,
) -> Result<(), AllocError>
    requires seat { IsSeatOf entries_of fixed_of book.now seat.old }
    requires left { count ≤ seat.old.left }
    ensures { IsSeatOf entries_of fixed_of book.now seat.new }
{
    for value in 0..count {
        note(rt, book, seat, value)?;
    }
    Ok(())
}

/// Two callers in threads of their own, who each note the values below `count`. Says whether
/// memory sufficed.
pub fn note_in_two<R: Threads + Wait + Sync>(
    rt: &R,
    book: &Book<Log>,
    first: &mut Seat<Log>,
    second: &mut Seat<Log>,
    count: u64,
) -> bool
    requires first { IsSeatOf entries_of fixed_of book.now first.old × (count ≤ first.old.left) }
    requires second { IsSeatOf entries_of fixed_of book.now second.old × (count ≤ second.old.left) }
    ensures first { IsSeatOf entries_of fixed_of book.now first.new }
    ensures second { IsSeatOf entries_of fixed_of book.now second.new }
{
    let (a, b) = join_mut(
        rt,
        &mut || note_below(rt, book, first, count),
        &mut || -> Result<(), AllocError>
            requires { IsSync R.row × IsSeatOf entries_of fixed_of book.now second.now × (count ≤ second.now.left) }
            ensures { IsSeatOf entries_of fixed_of book.entry.now second.exit.now }
        { note_below(rt, book, second, count) },
    );
    a.is_ok() && b.is_ok()
}

/// Closes a book of two seats, where the list that was made with it is empty.
pub fn close_two(
    book: Book<Log>,
    mut list: SeatList<Log>,
    first: Seat<Log>,
    second: Seat<Log>,
) -> Log
    requires seats { IsSeatOf entries_of fixed_of book first × IsSeatOf entries_of fixed_of book second }
    requires list { (seats_in list ≡ []) × (limit_of list ≡ 2) × (seats_of book ≡ 2) }
{
    let one = list.push(first);
    let Ok(()) = one else { unreachable!() };
    let two = list.push(second);
    let Ok(()) = two else { unreachable!() };
    book.close(list)
}

/// A log in which two callers noted the values below `count` in threads of their own, where memory
/// sufficed.
pub fn log_of_two<R: Threads + Wait + Sync>(rt: &R, alloc: Global, count: u64) -> Option<Log>
    requires { count ≤ 2 ^ 32 }
{
    let log = Log {
        entries: Vec::new(alloc),
    };
    let Ok((book, mut list)) = Book::new(alloc, log, 2) else {
        return None;
    };
    let mut second = list.pop().unwrap();
    let mut first = list.pop().unwrap();
    let noted = note_in_two(rt, &book, &mut first, &mut second, count);
    let log = close_two(book, list, first, second);
    if noted { Some(log) } else { None }
}
