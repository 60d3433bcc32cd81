//! The places of a pool.
ghost use Rattle.std.specs.Prelude.{◌≡◌, ◌+◌, ◌<◌, ◌≤◌, ◌^◌, Some, option_copied, is_some, IsSome, vec_len, vec_capacity};
ghost use Rattle.std.specs.Borrow.{Lends, sem};
ghost use Rattle.slot_pool.specs.Links.{next_of};
ghost use Rattle.slot_pool.specs.Place.{filled, refilled, value_of, held_at, link_in, with_link, with_neighbour, with_free, free_after};

use crate::chain::{Link, Side};
use crate::handle::Handle;

/// One place: free, with the index of the next free one if any, or filled.
#[derive(Drop)]
pub(crate) enum Place<T> {
    Free(Option<u32>),
    Filled(Resident<T>),
}

/// A value with the number of puts before its own, and its neighbours where it is in a chain.
#[derive(Drop)]
pub(crate) struct Resident<T> {
    pub(crate) value: T,
    pub(crate) number: u64,
    pub(crate) link: Option<Link>,
}

/// What lives under the handle.
pub(crate) fn living<T>(places: &[Place<T>], handle: Handle) -> Option<&Resident<T>>
    ensures { option_copied result ≡ held_at places.now handle }
{
    match places.get(handle.place as usize) {
        Some(Place::Filled(held)) if held.number == handle.number => Some(held),
        _ => None,
    }
}

/// Whether a value lives under the handle.
pub(crate) fn lives<T>(places: &[Place<T>], handle: Handle) -> bool
    ensures { result ≡ is_some (held_at places.now handle) }
{
    living(places, handle).is_some()
}

/// The neighbours of the handle, if it lives and is in a chain.
pub(crate) fn neighbours<T>(places: &[Place<T>], handle: Handle) -> Option<Link>
    ensures { result ≡ link_in (held_at places.now handle) }
{
    match living(places, handle) {
        Some(held) => held.link,
        None => None,
    }
}

/// The neighbour behind the handle, if there is one.
pub(crate) fn behind<T>(places: &[Place<T>], handle: Handle) -> Option<Handle>
    ensures { result ≡ next_of (link_in (held_at places.now handle)) }
{
    let Some(held) = living(places, handle) else {
        return None;
    };
    match &held.link {
        Some(link) => link.next,
        None => None,
    }
}

/// Gives the handle these neighbours, or none, if it lives.
pub(crate) fn set_link<T>(places: &mut Vec<Place<T>>, handle: Handle, link: Option<Link>)
    ensures { places.new.items ≡ with_link places.old.items handle link }
{
    if !lives(places, handle) {
        return;
    }
    if let Place::Filled(held) = &mut places[handle.place as usize] {
        held.link = link;
    }
}

impl<T> Place<T> {
    ghost use Rattle.slot_pool.specs.contracts.place.Place.{the_row};

    /// The value here.
    pub(crate) fn value_mut(&mut self) -> &mut T
        requires { IsSome (filled self.old) }
        ensures* lends { sem 𝓛 (Lends (the_row T.row) T.row self.entry result (refilled self.old)) }
        ensures value { value_of (filled self.old) ≡ Some result.now }
    {
        match self {
            Place::Filled(held) => &mut held.value,
            Place::Free(_) => unreachable!(),
        }
    }
}

/// Sets the neighbour on one side, if there is a handle that lives and is in a chain.
pub(crate) fn set_neighbour<T>(
    places: &mut Vec<Place<T>>,
    at: Option<Handle>,
    side: Side,
    neighbour: Option<Handle>,
)
    ensures { places.new.items ≡ with_neighbour places.old.items at side neighbour }
{
    let Some(handle) = at else {
        return;
    };
    let Some(link) = neighbours(places, handle) else {
        return;
    };
    set_link(places, handle, Some(link.beside(side, neighbour)));
}

/// Adds free places at the end, of which there is room for so many, and returns the first of all free ones.
pub(crate) fn add_places<T>(places: &mut Vec<Place<T>>, free: Option<u32>, more: u32) -> Option<u32>
    requires room { vec_len places.old + more ≤ vec_capacity places.old }
    requires small { vec_len places.old + more < 2 ^ 32 }
    ensures places { places.new.items ≡ with_free more places.old.items free }
    ensures first { result ≡ free_after more (vec_len places.old) free }
{
    let mut first = free;
    for _added in 0..more {
        let index = places.len() as u32;
        places.push_reserved(Place::Free(first));
        first = Some(index);
    }
    first
}
