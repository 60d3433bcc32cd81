//! The list of changes.
ghost use Rattle.std.specs.Prelude.{◌≡◌, ◌+◌, ◌≤◌, [], ◌∷◌, ◌++◌, drop, length, All, OnOk};
ghost use Rattle.port_state.specs.Changes.{HasFewActions};

use flow_rules::Change;
use std::alloc::{AllocError, Global};
use std::marker::Model;

/// The changes of what packets see, in order. Memory for one more is taken ahead.
#[derive(Drop)]
pub struct ChangeList {
    items: Vec<Change>,
}

impl Model for ChangeList {
    ghost use Rattle.port_state.specs.ChangeList.{ChangesView};

    ghost Value = { ChangesView };

    ghost use Rattle.port_state.specs.ChangeListInside.{changes_kept};

    ghost view = { changes_kept };

    ghost use Rattle.port_state.specs.ChangeListInside.{HaveFew};

    ghost invariant = { HaveFew };
}

impl ChangeList {
    /// No change. It takes no memory.
    pub fn new(alloc: Global) -> ChangeList
        ensures { result.list ≡ [] }
    {
        ChangeList {
            items: Vec::new(alloc),
        }
    }

    /// How many changes there were.
    pub fn len(&self) -> usize
        ensures number { result ≡ length self.now.list }
        ensures few { All HasFewActions self.now.list }
    {
        self.items.len()
    }

    /// Takes memory for so many more changes.
    pub fn reserve(&mut self, more: u32) -> Result<(), AllocError>
        ensures same { self.new.list ≡ self.old.list }
        ensures room { OnOk result (more ≤ self.new.room) }
    {
        self.items.reserve(more as usize)
    }

    /// Puts a change behind the others.
    pub(crate) fn add(&mut self, change: Change)
        requires few { HasFewActions change }
        requires room { 1 ≤ self.old.room }
        ensures added { self.new.list ≡ self.old.list ++ change ∷ [] }
        ensures room { self.new.room + 1 ≡ self.old.room }
    {
        self.items.push_reserved(change);
    }

    /// The changes from a place on.
    pub fn from(&self, place: usize) -> &[Change]
        requires { place ≤ length self.now.list }
        ensures { result.now ≡ drop place self.now.list }
    {
        &self.items[place..]
    }
}
