//! The port: an adapter in a book.
mod bursts;
mod calls;
mod ends;
mod turns;

use crate::held::Held;
use std::alloc::Global;
use turn_book::Book;

/// An adapter that several callers use in turns.
#[derive(Drop)]
pub struct FlowPort {
    pub(crate) alloc: Global,
    pub(crate) book: Book<Held>,
}
