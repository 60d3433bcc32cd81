//! A slot or the written file of a shelf, lent as a source or as a sink.
ghost use Rattle.std.specs.Prelude.{◌≡◌, ◌<◌, length, true};
ghost use Rattle.io_edges.specs.ShelfState.{ShelfState, slot_of};
ghost use Rattle.io_edges.specs.Lent.{KeepsSlot, KeepsWritten};
ghost use Rattle.std.proofs.Common.{refl, ◌∙◌};
ghost use Rattle.io_edges.specs.LentLaws.{KeepsSlot-none, KeepsSlot-more, KeepsWritten-none, KeepsWritten-more};

use crate::edge::{Failed, Sink, Source};
use crate::shelf::{Shelf, Slot};

/// One slot of a shelf, lent as a source. Its bytes and its count of faults are the slot's.
#[derive(Drop)]
pub struct SlotSource<'a, S: Shelf> {
    shelf: &'a mut S,
    slot: Slot,
    ghost opened: { (slot_of slot (S.state shelf.now)).opened ≡ true },
}

impl<'a, S: Shelf> SlotSource<'a, S> {
    /// Lends a slot that was opened.
    pub fn new(shelf: &'a mut S, slot: Slot) -> SlotSource<'a, S>
        requires { (slot_of slot (S.state shelf.old)).opened ≡ true }
        ensures shelf { result.shelf.ghost_name ≡ shelf.entry.ghost_name }
        ensures slot { result.slot ≡ slot }
        ensures state { S.state result.shelf.now ≡ S.state shelf.old }
    {
        SlotSource { shelf, slot }
    }
}

impl<S: Shelf> Source for SlotSource<'_, S> {
    ghost left = { λ s. (slot_of s.slot (S.state s.shelf.now)).left };

    ghost faults = { λ s. (slot_of s.slot (S.state s.shelf.now)).faults };

    ghost keeps = { λ s t. (t.shelf.ghost_name ≡ s.shelf.ghost_name) × (t.slot ≡ s.slot)
        × KeepsSlot s.slot (S.state s.shelf.now) (S.state t.shelf.now) };

    fn read(&mut self, buf: &mut [u8]) -> Result<usize, Failed> {
        self.shelf.read(self.slot, buf)
    }

    ghost keeps_none = { λ s. (refl, refl, KeepsSlot-none s.slot (S.state s.shelf.now)) };

    ghost keeps_more = { λ s t u p q. (
      q.0 ∙ p.0,
      q.1 ∙ p.1,
      KeepsSlot-more s.slot t.slot (S.state s.shelf.now) (S.state t.shelf.now) (S.state u.shelf.now) p.1 p.2 q.2,
    ) };
}

/// The written file of a shelf, lent as a sink. Its bytes and its count of faults are the written file's.
#[derive(Drop)]
pub struct ShelfSink<'a, S: Shelf> {
    shelf: &'a mut S,
    ghost opened: { (S.state shelf.now).written.opened ≡ true },
}

impl<'a, S: Shelf> ShelfSink<'a, S> {
    /// Lends the written file, which was opened.
    pub fn new(shelf: &'a mut S) -> ShelfSink<'a, S>
        requires { (S.state shelf.old).written.opened ≡ true }
        ensures shelf { result.shelf.ghost_name ≡ shelf.entry.ghost_name }
        ensures state { S.state result.shelf.now ≡ S.state shelf.old }
    {
        ShelfSink { shelf }
    }
}

impl<S: Shelf> Sink for ShelfSink<'_, S> {
    ghost taken = { λ s. (S.state s.shelf.now).written.taken };

    ghost faults = { λ s. (S.state s.shelf.now).written.faults };

    ghost keeps = { λ s t. (t.shelf.ghost_name ≡ s.shelf.ghost_name) × KeepsWritten (S.state s.shelf.now) (S.state t.shelf.now) };

    fn write(&mut self, piece: &[u8]) -> Result<usize, Failed> {
        self.shelf.write(piece)
    }

    ghost keeps_none = { λ s. (refl, KeepsWritten-none (S.state s.shelf.now)) };

    ghost keeps_more = { λ s t u p q. (
      q.0 ∙ p.0,
      KeepsWritten-more (S.state s.shelf.now) (S.state t.shelf.now) (S.state u.shelf.now) p.1 q.1,
    ) };
}
