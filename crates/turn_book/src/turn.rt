//! One seat's turn.
mod steps;

use crate::book::Book;
use crate::entries::Entries;
use crate::seat::Seat;

/// The value, while it is out with one seat. It must be spent by `done`.
pub struct Turn<'a, M: Entries> {
    pub(crate) book: &'a Book<M>,
    pub(crate) seat: &'a mut Seat<M>,
    pub(crate) value: M,
}
