//! Two threads on one log.
use crate::{Log, LogEntry, log_of_two};
use std::test::Fail;
use turn_book::{Book, Seat, SeatList};

const TURNS: u64 = 1000;

// Whether the values that a seat noted are 0, 1, 2 and so on up to `TURNS`.
fn are_in_order(entries: &[LogEntry], seat: u32) -> bool {
    let mut next = 0;
    for entry in entries {
        if entry.by == seat {
            if entry.value != next || next == TURNS {
                return false;
            }
            next += 1;
        }
    }
    next == TURNS
}

fn crosses<T: Send>(_value: &T) {}

fn is_shared<T: Sync>(_value: &T) {}

// Each goes to another thread, and threads may share each.
fn all_cross(book: &Book<Log>, seat: &Seat<Log>, seats: &SeatList<Log>) {
    crosses(book);
    is_shared(book);
    crosses(seat);
    is_shared(seat);
    crosses(seats);
    is_shared(seats);
}

#[test]
fn a_list_takes_as_many_seats_as_it_was_made_with(rt: HostRuntime) -> Result<(), Fail> {
    let log = Log {
        entries: Vec::new(rt.alloc()),
    };
    let (book, mut seats) = Book::new(rt.alloc(), log, 1).ok().ok_or("memory")?;
    let seat = seats.pop().ok_or("one seat")?;
    assert!(rt; seats.pop().is_none());
    assert!(rt; seat.number() == 0 && seat.turns_left() == 4_294_967_296);
    all_cross(&book, &seat, &seats);
    assert!(rt; seats.push(seat).is_ok());
    drop(book);
    Ok(())
}

#[test]
fn a_closed_book_gives_its_value_back(rt: HostRuntime) -> Result<(), Fail> {
    let entries = [LogEntry { by: 7, value: 1 }].to_vec(rt.alloc())?;
    let Ok((book, seats)) = Book::new(rt.alloc(), Log { entries }, 1) else {
        panic!(rt; "there was no memory")
    };
    assert!(rt; book.close(seats).entries.len() == 1);
    Ok(())
}

#[test]
fn two_threads_take_a_thousand_turns_each(rt: HostRuntime) -> Result<(), Fail> {
    let log = log_of_two(&rt, rt.alloc(), TURNS).ok_or("memory")?;
    let entries = log.entries.as_slice();
    assert_eq!(rt; entries.len(), 2000);
    assert!(rt; are_in_order(entries, 0) && are_in_order(entries, 1));
    Ok(())
}
