//! What a seat at the table knows. No value of these types is ever made.
use std::collections::LinkedList;

/// A seat's number, the turns that it has left, and the history that it has seen.
pub struct Place<E> {
    pub number: u64,
    pub left: u64,
    pub seen: LinkedList<E>,
}

/// What one seat of the table knows. While the book is made or closed, a seat carries the places
/// of several.
pub struct Knows<E, F> {
    pub own: LinkedList<Place<E>>,
    pub ticket: Option<u64>,
    /// It is this seat's turn, and the value is out with it.
    pub served: bool,
    /// The entries that the book was made with.
    pub opening: LinkedList<E>,
    /// The book's fixed part; `None` once the seat is spent.
    pub fixed: Option<F>,
}
