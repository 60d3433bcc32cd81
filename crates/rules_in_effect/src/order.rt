//! The order in which rules took effect.
ghost use Rattle.std.specs.Prelude.{◌≡◌, ◌+◌, ◌^◌, ◌≤◌, ◌<◌, ◌-◌, ◌≢◌, ◌++◌, ◌∷◌, [], None, Some, length, map, slice_get, IfOk, OnOk, IsSome};
ghost use Rattle.std.specs.List.{list_any};
ghost use Rattle.std.specs.Option.{option_copied, option_map};
ghost use Rattle.flow_rules.specs.Best as spec;
ghost use Rattle.rules_in_effect.specs.Entries.{rule_in, is_user, CanCount};
ghost use Rattle.slot_pool.specs.Pool.{get};
ghost use Rattle.rules_in_effect.specs.Order.{entries, under, but, hit_under};
ghost use Rattle.rules_in_effect.specs.OrderInside.{lodged, IsPut};

use crate::in_effect::{InEffect, hit};
use crate::scan::{better_of, is_used_in};
use flow_rules::Rule;
use packet_headers::Key;
use slot_pool::{Chain, Handle, Pool};
use std::alloc::{AllocError, Global};
use std::marker::Model;
use std::slice;

/// The places of the first rules.
const FEWEST_PLACES: u32 = 8;

/// The most places of a pool.
const MAX_PLACES: u32 = 2_147_483_648;

/// The rules in the order in which they took effect.
///
/// Each lies in a place of a pool, whose chain has the order. Places for more are made ahead.
#[derive(Drop)]
pub(crate) struct Order {
    pool: Pool<InEffect>,
    chain: Chain,
    len: u32,
    /// How many places the pool has.
    capacity: u32,
}

impl Model for Order {
    ghost use Rattle.rules_in_effect.specs.Order.{OrderView};

    ghost Value = { OrderView };

    ghost use Rattle.rules_in_effect.specs.OrderInside.{view_of, IsKept};

    ghost view = { view_of };

    ghost invariant = { IsKept };
}

impl Order {
    /// No rules. This takes no memory.
    pub(crate) fn new(alloc: Global) -> Order
        ensures { result.kept ≡ [] }
    {
        Order {
            pool: Pool::empty(alloc),
            chain: Chain::new(),
            len: 0,
            capacity: 0,
        }
    }

    /// How many rules there are.
    pub(crate) fn len(&self) -> usize
        ensures { result ≡ length self.now.kept }
    {
        self.len as usize
    }

    /// Takes memory for so many rules more.
    pub(crate) fn reserve(&mut self, more: u32) -> Result<(), AllocError>
        ensures same { self.new.kept ≡ self.old.kept }
        ensures room { OnOk result (more ≤ self.new.room) }
    {
        if u64::MAX - self.pool.puts() < u64::from(more) {
            return Err(AllocError);
        }
        let places = wanted_places(self.len, self.capacity, more)?;
        self.pool.grow(places)?;
        self.capacity += places;
        Ok(())
    }

    /// A rule comes behind all others, and gets a handle.
    pub(crate) fn append(&mut self, entry: InEffect) -> Handle
        requires { 1 ≤ self.old.room }
        ensures kept { self.new.kept ≡ self.old.kept ++ (result, entry) ∷ [] }
        ensures fresh { under result self.old.kept ≡ None }
        ensures few { length self.new.kept ≤ 2 ^ 31 }
        ensures left { self.new.room + 1 ≡ self.old.room }
    {
        let handle = lodge(&mut self.pool, entry);
        self.pool.link(&mut self.chain, handle);
        self.len += 1;
        handle
    }

    /// Takes the rule under a handle out.
    pub(crate) fn take(&mut self, handle: Handle) -> InEffect
        requires { IsSome (under handle self.old.kept) }
        ensures entry { under handle self.old.kept ≡ Some result }
        ensures others { self.new.kept ≡ but handle self.old.kept }
        ensures room { self.old.room ≤ self.new.room }
    {
        self.pool.unlink(&mut self.chain, handle);
        self.len -= 1;
        self.pool.take(handle).unwrap()
    }

    /// Counts one frame more, of so many bytes, for the rule under a handle.
    pub(crate) fn hit(&mut self, handle: Handle, bytes: u32)
        requires { CanCount bytes (under handle self.old.kept) }
        ensures kept { self.new.kept ≡ hit_under handle bytes self.old.kept }
        ensures room { self.new.room ≡ self.old.room }
    {
        hit(self.pool.get_mut(handle).unwrap(), bytes);
    }

    /// The rule under a handle.
    pub(crate) fn get(&self, handle: Handle) -> Option<&InEffect>
        requires { IsSome (under handle self.now.kept) }
        ensures { option_copied result ≡ under handle self.now.kept }
    {
        lodged_in(&self.pool, handle).first()
    }

    /// The rule that took effect first.
    pub(crate) fn first(&self) -> Option<&InEffect>
        ensures { option_copied result ≡ slice_get (entries self.now.kept) 0 }
    {
        let Some(handle) = self.pool.first(&self.chain) else {
            return None;
        };
        lodged_in(&self.pool, handle).first()
    }

    /// The rule of a group that takes a frame of these layers.
    pub(crate) fn best(&self, group: u32, key: &Key) -> Option<&Rule>
        ensures { option_map (λ rule. rule.now) result ≡ spec.best (map rule_in (entries self.now.kept)) group key.now }
    {
        let mut best = None;
        let mut at = self.pool.first(&self.chain);
        for _place in 0..self.len {
            let Some(handle) = at else {
                return best;
            };
            best = better_of(lodged_in(&self.pool, handle), best, group, key);
            at = self.pool.next(&self.chain, handle);
        }
        best
    }

    /// Whether a rule uses the shared action of this id.
    pub(crate) fn is_used(&self, id: u32) -> bool
        ensures { result ≡ list_any (is_user id) (entries self.now.kept) }
    {
        let mut at = self.pool.first(&self.chain);
        for _place in 0..self.len {
            let Some(handle) = at else {
                return false;
            };
            if is_used_in(lodged_in(&self.pool, handle), id) {
                return true;
            }
            at = self.pool.next(&self.chain, handle);
        }
        false
    }

    /// All rules, in order.
    pub(crate) fn rows(&self, alloc: Global) -> Result<Vec<&InEffect>, AllocError>
        ensures { IfOk result (λ rows. map (λ row. row.now) rows.items ≡ entries self.now.kept) }
    {
        let mut rows = Vec::new(alloc);
        let mut at = self.pool.first(&self.chain);
        for _place in 0..self.len {
            let Some(handle) = at else {
                return Ok(rows);
            };
            add_rows(&mut rows, lodged_in(&self.pool, handle))?;
            at = self.pool.next(&self.chain, handle);
        }
        Ok(rows)
    }
}

/// Puts a rule into a free place.
fn lodge(pool: &mut Pool<InEffect>, entry: InEffect) -> Handle
    requires puts { pool.old.puts < 2 ^ 64 - 1 }
    requires room { length pool.old.values ≢ pool.old.capacity }
    ensures { IsPut pool.old pool.new result entry }
{
    match pool.put(entry) {
        Ok(handle) => handle,
        Err(_) => unreachable!(),
    }
}

/// What lies under a handle.
fn lodged_in(pool: &Pool<InEffect>, handle: Handle) -> &[InEffect]
    ensures { result.now ≡ lodged (get pool.now handle) }
{
    match pool.get(handle) {
        Some(entry) => slice::from_ref(entry),
        None => &[],
    }
}

/// How many places are wanted for so many rules more: none, or at least as many as there are.
fn wanted_places(len: u32, capacity: u32, more: u32) -> Result<u32, AllocError>
    requires within { len ≤ capacity }
    requires small { capacity ≤ 2 ^ 31 }
    ensures enough { IfOk result (λ places. len + more ≤ capacity + places) }
    ensures most { IfOk result (λ places. capacity + places ≤ 2 ^ 31) }
{
    let free = capacity - len;
    if more <= free {
        return Ok(0);
    }
    let missing = more - free;
    let most = MAX_PLACES - capacity;
    if missing > most {
        return Err(AllocError);
    }
    Ok(missing.max(capacity).max(FEWEST_PLACES).min(most))
}

/// Adds rows for these rules.
fn add_rows<'a>(rows: &mut Vec<&'a InEffect>, entries: &'a [InEffect]) -> Result<(), AllocError>
    ensures { OnOk result (map (λ row. row.now) rows.new.items ≡ map (λ row. row.now) rows.old.items ++ entries.entry.now) }
{
    for entry in entries {
        rows.push(entry)?;
    }
    Ok(())
}
