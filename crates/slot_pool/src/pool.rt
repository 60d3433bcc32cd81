//! The pool: its values, and the chains that run through its places.
ghost use Rattle.std.specs.Prelude.{◌≡◌, ◌≢◌, ℕ, ◌<◌, ◌≤◌, ◌+◌, ◌-◌, ◌^◌, ◌↔◌, [], ◌∷◌, ◌++◌, All, Contains, IfNone, IfSome, IsSome, Some, IsErr, IfOk, OnOk, IfErr, OnErr, filter, length, option_copied, slice_get};
ghost use Rattle.std.specs.Option.{option_copied_mut};
ghost use Rattle.std.specs.Borrow.{sem};
ghost use Rattle.slot_pool.specs.Pool.{KeepsOtherValues, Lives, get, empty_pool, with_put, without};
ghost use Rattle.slot_pool.specs.Links.{IsChain, IsUnchained, KeepsOthers, is_other, members};

use crate::chain::{Chain, Link, Side};
use crate::handle::Handle;
use crate::place::{
    Place, Resident, add_places, behind, lives, living, neighbours, set_link, set_neighbour,
};
use std::alloc::{AllocError, Global};
use std::marker::Model;
use std::mem;

/// Values of one type, each under the handle that its put gave, in a number of places that is fixed until `grow`.
///
/// Contracts see the values that live in the order of their puts, the capacity, the number of puts, and the links that make the chains.
#[derive(Drop)]
pub struct Pool<T> {
    places: Vec<Place<T>>,
    // The first of the free places, each of which names the next.
    free: Option<u32>,
    puts: u64,
}

impl<T> Model for Pool<T> {
    ghost use Rattle.slot_pool.specs.Pool.{Pool as View};

    ghost Value = { View T };

    ghost use Rattle.slot_pool.specs.Place.{pool_of, IsSound};

    ghost view = { λ p. pool_of p.places.items p.puts };

    ghost invariant = { λ p. IsSound p.places.items p.free p.puts };
}

impl<T> Pool<T> {
    ghost use Rattle.slot_pool.specs.Lends.{LendsValue, LendsLiving};

    /// A pool without places, which takes no memory.
    pub fn empty(alloc: Global) -> Pool<T>
        ensures { result ≡ empty_pool 0 }
    {
        Pool {
            places: Vec::new(alloc),
            free: None,
            puts: 0,
        }
    }

    /// An empty pool of `n` places.
    pub fn new(alloc: Global, n: u32) -> Result<Pool<T>, AllocError>
        ensures { IfOk result (λ pool. pool ≡ empty_pool n) }
    {
        let mut places = Vec::with_capacity(alloc, n as usize)?;
        let free = add_places(&mut places, None, n);
        Ok(Pool {
            places,
            free,
            puts: 0,
        })
    }

    /// Adds `more` free places. The values and chains stay.
    pub fn grow(&mut self, more: u32) -> Result<(), AllocError>
        requires { self.old.capacity + more ≤ 2 ^ 31 }
        ensures ok { OnOk result (self.new ≡ record self.old { capacity = self.old.capacity + more }) }
        ensures err { OnErr result (self.new ≡ self.old) }
    {
        self.places.reserve(more as usize)?;
        self.free = add_places(&mut self.places, self.free, more);
        Ok(())
    }

    /// Puts a value into a free place, or gives it back where every place has one.
    pub fn put(&mut self, value: T) -> Result<Handle, T>
        requires { self.old.puts < 2 ^ 64 - 1 }
        ensures full { IsErr result ↔ (length self.old.values ≡ self.old.capacity) }

        // The handle tells the number of puts before, so that no later put gives it again.
        ensures put { IfOk result (λ handle. self.new ≡ with_put self.old handle value) }
        ensures number { IfOk result (λ handle. handle.number ≡ self.old.puts) }
        ensures place { IfOk result (λ handle. handle.place < self.old.capacity) }
        ensures unchained { IfOk result (λ handle. IsUnchained self.new.links handle) }
        ensures found { IfOk result (λ handle. get self.new handle ≡ Some value) }
        ensures others { IfOk result (KeepsOtherValues self.old self.new) }

        ensures value_returned { IfErr result (λ back. back ≡ value) }
        ensures err { OnErr result (self.new ≡ self.old) }
    {
        let Some(index) = self.free else {
            return Err(value);
        };
        let handle = Handle {
            number: self.puts,
            place: index,
        };
        let filled = Place::Filled(Resident {
            value,
            number: self.puts,
            link: None,
        });
        match mem::replace(&mut self.places[index as usize], filled) {
            Place::Free(next) => self.free = next,
            Place::Filled(_) => unreachable!(),
        }
        self.puts += 1;
        Ok(handle)
    }

    /// How many puts succeeded.
    pub fn puts(&self) -> u64
        ensures value { result ≡ self.now.puts }
        ensures numbers { All (λ entry. entry.0.number < result) self.now.values }
    {
        self.puts
    }

    /// Takes the value of the handle out, if it lives, and frees its place. Unlink a chained value first.
    pub fn take(&mut self, handle: Handle) -> Option<T>
        requires { Lives self.old handle → IsUnchained self.old.links handle }
        ensures value { result ≡ get self.old handle }
        ensures after { self.new ≡ without self.old handle }
        ensures gone { get self.new handle ≡ None }
        ensures others { KeepsOtherValues self.old self.new handle }
        ensures none { IfNone result (self.new ≡ self.old) }
    {
        if !lives(&self.places, handle) {
            return None;
        }
        let freed = Place::Free(self.free);
        match mem::replace(&mut self.places[handle.place as usize], freed) {
            Place::Filled(held) => {
                self.free = Some(handle.place);
                let Resident {
                    value,
                    number: _,
                    link: _,
                } = held;
                Some(value)
            }
            Place::Free(_) => unreachable!(),
        }
    }

    /// The value of the handle, if it lives.
    pub fn get(&self, handle: Handle) -> Option<&T>
        ensures { option_copied result ≡ get self.now handle }
    {
        match living(&self.places, handle) {
            Some(held) => Some(&held.value),
            None => None,
        }
    }

    /// The value of the handle for writing, if it lives.
    pub fn get_mut(&mut self, handle: Handle) -> Option<&mut T>
        ensures* writes_back { sem 𝓛 (LendsValue T.row self.entry handle result) }
        ensures value { option_copied_mut result ≡ get self.old handle }
    {
        if !lives(&self.places, handle) {
            return None;
        }
        Some(self.value_mut(handle))
    }

    fn value_mut(&mut self, handle: Handle) -> &mut T
        requires { IsSome (get self.old handle) }
        ensures* writes_back { sem 𝓛 (LendsLiving T.row self.entry handle result) }
        ensures value { get self.old handle ≡ Some result.now }
    {
        self.places[handle.place as usize].value_mut()
    }

    /// Puts a handle that is in no chain at the end of this one.
    pub fn link(&mut self, chain: &mut Chain, handle: Handle)
        requires chain { IsChain self.old.links chain.old }
        requires lives { Lives self.old handle }
        requires unchained { IsUnchained self.old.links handle }
        ensures stays { self.new ≡ record self.old { links = self.new.links } }
        ensures chain { IsChain self.new.links chain.new }
        ensures members { members self.new.links chain.new ≡ members self.old.links chain.old ++ handle ∷ [] }
        ensures others { KeepsOthers self.old.links self.new.links (members self.old.links chain.old) }
        ensures unchained { (other : Handle) → other ≢ handle → IsUnchained self.old.links other → IsUnchained self.new.links other }
    {
        let last = chain.last;
        set_neighbour(&mut self.places, last, Side::Next, Some(handle));
        set_link(
            &mut self.places,
            handle,
            Some(Link {
                previous: last,
                next: None,
            }),
        );
        chain.add(handle);
    }

    /// Takes a handle out of its chain. The others keep their order.
    pub fn unlink(&mut self, chain: &mut Chain, handle: Handle)
        requires chain { IsChain self.old.links chain.old }
        requires member { Contains (members self.old.links chain.old) handle }
        ensures stays { self.new ≡ record self.old { links = self.new.links } }
        ensures chain { IsChain self.new.links chain.new }
        ensures members { members self.new.links chain.new ≡ filter (is_other handle) (members self.old.links chain.old) }
        ensures others { KeepsOthers self.old.links self.new.links (members self.old.links chain.old) }
        ensures unlinked { IsUnchained self.new.links handle }
        ensures unchained { (other : Handle) → IsUnchained self.old.links other → IsUnchained self.new.links other }
    {
        let Some(link) = neighbours(&self.places, handle) else {
            unreachable!()
        };
        set_neighbour(&mut self.places, link.previous, Side::Next, link.next);
        set_neighbour(&mut self.places, link.next, Side::Previous, link.previous);
        set_link(&mut self.places, handle, None);
        chain.remove(link);
    }

    /// The first handle of the chain.
    pub fn first(&self, chain: &Chain) -> Option<Handle>
        requires { IsChain self.now.links chain.now }
        ensures value { result ≡ slice_get (members self.now.links chain.now) 0 }
        ensures member { IfSome result (Contains (members self.now.links chain.now)) }
        ensures lives { IfSome result (Lives self.now) }
    {
        // The places tell that each member lives.
        let _ = &self.places;
        chain.first
    }

    /// The handle behind this one in the chain.
    pub fn next(&self, chain: &Chain, handle: Handle) -> Option<Handle>
        requires chain { IsChain self.now.links chain.now }
        requires member { Contains (members self.now.links chain.now) handle }
        ensures value { (place : ℕ) → slice_get (members self.now.links chain.now) place ≡ Some handle → result ≡ slice_get (members self.now.links chain.now) (place + 1) }
        ensures member { IfSome result (Contains (members self.now.links chain.now)) }
        ensures lives { IfSome result (Lives self.now) }
    {
        behind(&self.places, handle)
    }
}
