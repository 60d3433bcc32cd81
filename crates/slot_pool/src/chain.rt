//! The ends of a chain, and the links of its members.
ghost use Rattle.std.specs.Prelude.{◌≡◌, []};

use crate::handle::Handle;

/// The ends of a list of handles that runs through the places of one pool.
///
/// `Pool::link` and `Pool::unlink` change it, `Pool::first` and `Pool::next` walk it.
#[derive(Drop)]
pub struct Chain {
    pub(crate) first: Option<Handle>,
    pub(crate) last: Option<Handle>,
}

/// The neighbours of a chained handle.
#[derive(Clone, Copy)]
pub(crate) struct Link {
    pub(crate) previous: Option<Handle>,
    pub(crate) next: Option<Handle>,
}

/// The sides on which a chained handle may have a neighbour.
#[derive(Clone, Copy)]
pub(crate) enum Side {
    Previous,
    Next,
}

impl Link {
    ghost use Rattle.slot_pool.specs.Place.{beside};

    /// The same, but with this neighbour on one side.
    pub(crate) fn beside(self, side: Side, neighbour: Option<Handle>) -> Link
        ensures { result ≡ beside side neighbour self }
    {
        match side {
            Side::Previous => Link {
                previous: neighbour,
                next: self.next,
            },
            Side::Next => Link {
                previous: self.previous,
                next: neighbour,
            },
        }
    }
}

impl Chain {
    ghost use Rattle.slot_pool.specs.Links.{Links, IsChain, members};
    ghost use Rattle.slot_pool.specs.Place.{with_last, without_link};

    /// An empty chain, which any pool may take.
    pub fn new() -> Chain
        ensures chain { (links : Links) → IsChain links result }
        ensures empty { (links : Links) → members links result ≡ [] }
    {
        Chain {
            first: None,
            last: None,
        }
    }

    /// Puts the handle at the end.
    pub(crate) fn add(&mut self, handle: Handle)
        ensures { self.new ≡ with_last self.old handle }
    {
        self.first = self.first.or(Some(handle));
        self.last = Some(handle);
    }

    /// Moves the ends past the handle that has these neighbours.
    pub(crate) fn remove(&mut self, link: Link)
        ensures { self.new ≡ without_link self.old link }
    {
        self.first = match link.previous {
            None => link.next,
            Some(_) => self.first,
        };
        self.last = match link.next {
            None => link.previous,
            Some(_) => self.last,
        };
    }
}
