//! A log of values, each with the number of the seat that noted it.
use turn_book::Entries;

#[derive(Clone, Copy, Debug, PartialEq, Eq)]
pub struct LogEntry {
    pub by: u32,
    pub value: u64,
}

#[derive(Drop)]
pub struct Log {
    pub entries: Vec<LogEntry>,
}

impl Entries for Log {
    type Entry = LogEntry;

    type Fixed = ();

    ghost use Rattle.turn_book_caller.specs.Logs.{entries_of, fixed_of, owner_of};

    ghost entries = { entries_of };

    ghost fixed = { fixed_of };

    ghost owner = { owner_of };
}
