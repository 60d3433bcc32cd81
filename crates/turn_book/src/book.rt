//! The book: a value under a ticket lock.
mod ends;

use crate::entries::Entries;
use crate::rule::Order;
use crate::view::Knows;
use atomic_table::Table;
use std::alloc::Global;
use std::snapshot::Snapshot;

/// A value that callers change in turns.
pub struct Book<M: Entries> {
    pub(crate) table: Table<
        Option<M>,
        Knows<M::Entry, M::Fixed>,
        (Snapshot<M>, u64),
        Order<M>,
        Global,
    >,
}

impl<M: Entries + Drop> Drop for Book<M> {
    fn drop(self) {
        let Book { table: _ } = self;
    }
}
