//! Handles by the ids of rules.
ghost use Rattle.std.specs.Prelude.{◌≡◌, ◌≢◌, ◌≤◌, ◌+◌, ◌<◌, ℕ, [], not, nat_eq, None, Some, filter, length, OnOk, OnErr, vec_len, vec_capacity};
ghost use Rattle.std.specs.Option.{option_or};
ghost use Rattle.rules_in_effect.specs.IdIndex.{find, found, named, next_named, placed};

use slot_pool::Handle;
use std::alloc::{AllocError, Global};
use std::marker::Model;

/// The handle of each id.
///
/// Ids are given from 0 up, so each has a place of its own in a vector. To make the vector longer takes memory, and an
/// insert takes none: an id past the end waits beside it until the next `reserve`.
#[derive(Drop)]
pub(crate) struct IdIndex {
    /// The handle of each id below the length, where it has one.
    places: Vec<Option<Handle>>,
    /// Ids without a place, in the order of their inserts.
    waiting: Vec<Waiting>,
}

/// An id that waits for its place.
#[derive(Clone, Copy)]
pub(crate) struct Waiting {
    pub(crate) id: u32,
    pub(crate) handle: Handle,
}

impl Model for IdIndex {
    ghost use Rattle.rules_in_effect.specs.IdIndex.{IdIndexView};

    ghost Value = { IdIndexView };

    ghost use Rattle.rules_in_effect.specs.IdIndexInside.{view_of};

    ghost view = { view_of };
}

impl IdIndex {
    /// No ids.
    pub(crate) fn new(alloc: Global) -> IdIndex
        ensures { (id : ℕ) → find result id ≡ None }
    {
        IdIndex {
            places: Vec::new(alloc),
            waiting: Vec::new(alloc),
        }
    }

    /// The handle of an id.
    pub(crate) fn get(&self, id: u32) -> Option<Handle>
        ensures { result ≡ find self.now id }
    {
        match placed(&self.places, id) {
            Some(handle) => Some(handle),
            None => named(&self.waiting, id),
        }
    }

    /// Takes memory so that so many ids more may be inserted, and gives those that wait their places.
    pub(crate) fn reserve(&mut self, more: u32) -> Result<(), AllocError>
        ensures same { (id : ℕ) → find self.new id ≡ find self.old id }
        ensures room { OnOk result (more ≤ self.new.room) }
    {
        settle(&mut self.places, &mut self.waiting)?;
        self.waiting.reserve(more as usize)
    }

    /// An id gets this handle.
    pub(crate) fn insert(&mut self, id: u32, handle: Handle)
        requires { 1 ≤ self.old.room }
        ensures here { find self.new id ≡ Some handle }
        ensures others { (other : ℕ) → other ≢ id → find self.new other ≡ find self.old other }
        ensures left { self.old.room ≤ self.new.room + 1 }
    {
        if (id as usize) < self.places.len() {
            self.places[id as usize] = Some(handle);
            return;
        }
        self.waiting.push_reserved(Waiting { id, handle });
    }

    /// An id has no handle any more.
    pub(crate) fn remove(&mut self, id: u32)
        ensures here { find self.new id ≡ None }
        ensures others { (other : ℕ) → other ≢ id → find self.new other ≡ find self.old other }
        ensures room { self.old.room ≤ self.new.room }
    {
        clear_place(&mut self.places, id);
        forget(&mut self.waiting, id);
    }
}

/// What the place of an id has, if there is one.
fn placed(places: &[Option<Handle>], id: u32) -> Option<Handle>
    ensures { result ≡ placed places.now id }
{
    match places.get(id as usize) {
        Some(handle) => *handle,
        None => None,
    }
}

/// The handle of an id that waits, the latest where it waits more than once.
fn named(waiting: &[Waiting], id: u32) -> Option<Handle>
    ensures { result ≡ named id waiting.now }
{
    let mut handle = None;
    for waits in waiting {
        handle = next_named(handle, waits, id);
    }
    handle
}

/// The handle of what waits, if it is this id, or else the one so far.
fn next_named(handle: Option<Handle>, waits: &Waiting, id: u32) -> Option<Handle>
    ensures { result ≡ next_named id handle waits.now }
{
    if waits.id == id {
        return Some(waits.handle);
    }
    handle
}

/// Gives all ids that wait their places, the latest first. Where memory is wanting, the others wait on.
fn settle(places: &mut Vec<Option<Handle>>, waiting: &mut Vec<Waiting>) -> Result<(), AllocError>
    ensures same { (id : ℕ) → found places.new.items waiting.new.items id ≡ found places.old.items waiting.old.items id }
    ensures all { OnOk result (waiting.new.items ≡ []) }
{
    for _waits in 0..waiting.len() {
        let Some(latest) = waiting.last() else {
            return Ok(());
        };
        settle_one(places, *latest)?;
        waiting.pop();
    }
    Ok(())
}

/// Gives an id its place, unless that has a handle.
fn settle_one(places: &mut Vec<Option<Handle>>, waits: Waiting) -> Result<(), AllocError>
    ensures ok { OnOk result ((id : ℕ) → placed places.new.items id ≡ option_or (placed places.old.items id) (next_named id None waits)) }
    ensures err { OnErr result (places.new.items ≡ places.old.items) }
{
    lengthen(places, waits.id as usize + 1)?;
    if places[waits.id as usize].is_none() {
        places[waits.id as usize] = Some(waits.handle);
    }
    Ok(())
}

/// Adds empty places, so that there are at least so many.
fn lengthen(places: &mut Vec<Option<Handle>>, len: usize) -> Result<(), AllocError>
    ensures same { (id : ℕ) → placed places.new.items id ≡ placed places.old.items id }
    ensures long { OnOk result (len ≤ length places.new.items) }
    ensures err { OnErr result (places.new.items ≡ places.old.items) }
{
    if len <= places.len() {
        return Ok(());
    }
    places.resize(len, None)
}

/// The place of an id has nothing any more.
fn clear_place(places: &mut Vec<Option<Handle>>, id: u32)
    ensures here { placed places.new.items id ≡ None }
    ensures others { (other : ℕ) → other ≢ id → placed places.new.items other ≡ placed places.old.items other }
{
    if (id as usize) < places.len() {
        places[id as usize] = None;
    }
}

/// An id waits no more.
fn forget(waiting: &mut Vec<Waiting>, id: u32)
    ensures others { waiting.new.items ≡ filter (λ waits. not (nat_eq waits.id id)) waiting.old.items }
    ensures bound { vec_len waiting.new ≤ vec_len waiting.old }
    ensures room { vec_capacity waiting.new ≡ vec_capacity waiting.old }
{
    waiting.retain(|waits| waits.id != id);
}
