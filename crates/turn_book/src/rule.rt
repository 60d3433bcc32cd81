//! The rule of the table, and what each step on it tells.
//! Word 0 is the next ticket, word 1 the ticket that is served, and the one slot holds the value.
use crate::entries::Entries;
use crate::view::Knows;
use atomic_table::{Join, Play, Split, TableRule};
use std::marker::PhantomData;
use std::snapshot::Snapshot;

pub(crate) struct Order<M> {
    value: PhantomData<M>,
}

impl<M: Entries> TableRule<Option<M>, Knows<M::Entry, M::Fixed>, (Snapshot<M>, u64)> for Order<M> {
    ghost use Rattle.turn_book.specs.Rule.{Kept, beginning};

    ghost holds = { λ key. Kept M.entries M.fixed M.owner key.0.value key.1 };

    ghost first = { λ key. beginning (M.entries key.0.value) (M.fixed key.0.value) key.1 };
}

/// A ticket is drawn.
pub(crate) struct Draw;

impl<M, E, F> Play<Option<M>, Knows<E, F>> for Draw {
    ghost use Rattle.turn_book.specs.Plays.{drew};

    ghost then = { drew };
}

/// The served ticket is read.
pub(crate) struct Look<M> {
    value: PhantomData<M>,
}

impl<M: Entries> Play<Option<M>, Knows<M::Entry, M::Fixed>> for Look<M> {
    ghost use Rattle.turn_book.specs.Plays.{looked};

    ghost then = { looked M.entries M.fixed M.owner };
}

/// The value goes home, and the next ticket is served.
pub(crate) struct Leave<M> {
    value: PhantomData<M>,
}

impl<M: Entries> Play<Option<M>, Knows<M::Entry, M::Fixed>> for Leave<M> {
    ghost use Rattle.turn_book.specs.Plays.{left};

    ghost then = { left M.entries };
}

/// The first place stays, the others go to a new seat.
pub(crate) struct SplitSeats;

impl<E, F> Split<Knows<E, F>> for SplitSeats {
    ghost use Rattle.turn_book.specs.Plays.{one_place, other_places};

    ghost left = { one_place };

    ghost right = { other_places };
}

/// One seat takes the places of another.
pub(crate) struct JoinSeats;

impl<E, F> Join<Knows<E, F>> for JoinSeats {
    ghost use Rattle.turn_book.specs.Plays.{joined, spent};

    ghost both = { joined };

    ghost spent = { spent };
}
