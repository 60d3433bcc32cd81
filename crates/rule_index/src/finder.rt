//! What an index keeps beside its rules, to find them.
ghost use Rattle.std.specs.Prelude.{◌≡◌, ◌≤◌, ◌<◌, ◌++◌, ◌∷◌, [], ℕ, List, Option, length, Some, None, IfOk, OnOk, OnErr, filter, is_some, if◌then◌else◌, slice_set, slice_get};
ghost use Rattle.std.specs.Option.{option_map};
ghost use Rattle.std.specs.HashMap as hash;
ghost use Rattle.flow_rules.specs.RuleView.{RuleView};
ghost use Rattle.rule_index.specs.Index.{Adds, Stays, IsIndexed, HasNo, AreDistinct, IsFound, IsPlaceOf, rule_in};
ghost use Rattle.rule_index.specs.Places.{same_home, last_of, longer, moved};

use crate::chain::{HomeChain, Lead, RulePlace, Stock, append, first_taken, longer, moved};
use crate::slot::RuleSlot;
use crate::table::{Home, home_of};
use crate::tables::Tables;
use flow_rules::Rule;
use std::alloc::{AllocError, Global};
use std::collections::HashMap;

/// The tables, the places of the rules, the chain of each home, and the place of each id.
#[derive(Drop)]
pub(crate) struct Finder {
    pub(crate) tables: Tables,
    pub(crate) places: Vec<RulePlace>,
    pub(crate) chains: HashMap<Home, HomeChain>,
    pub(crate) ids: HashMap<u32, u32>,
}

impl Finder {
    /// Of no rules.
    pub(crate) fn new(alloc: Global) -> Finder
        ensures { IsIndexed [] result }
    {
        Finder {
            tables: Tables::new(alloc),
            places: Vec::new(alloc),
            chains: HashMap::new(alloc),
            ids: HashMap::new(alloc),
        }
    }

    /// Forgets all rules.
    pub(crate) fn clear(&mut self)
        ensures { IsIndexed [] self.new }
    {
        self.tables.clear();
        self.places.clear();
        self.chains.clear();
        self.ids.clear();
    }
}

/// Makes the place of a rule the last one of its home, and tells the one that was the last.
fn note(
    chains: &mut HashMap<Home, HomeChain>,
    home: Home,
    new: Lead,
) -> Result<Option<u32>, AllocError>
    ensures before { IfOk result (λ last. last ≡ last_of (hash.get same_home chains.old home)) }
    ensures ok { OnOk result ((h : Home) → hash.get same_home chains.new h ≡ (if same_home home h then Some (longer (hash.get same_home chains.old home) new) else hash.get same_home chains.old h)) }
    ensures err { OnErr result ((h : Home) → hash.get same_home chains.new h ≡ hash.get same_home chains.old h) }
{
    let before = chains.get(&home).copied();
    chains.insert(home, longer(before, new))?;
    Ok(last_of(before))
}

fn last_of(chain: Option<HomeChain>) -> Option<u32>
    ensures { result ≡ last_of chain }
{
    match chain {
        None => None,
        Some(chain) => Some(chain.last),
    }
}

/// Where the rule of a place is gone, makes the first one behind it the first of its home, if it was that.
fn advance(chains: &mut HashMap<Home, HomeChain>, home: Home, place: u32, next: Option<Lead>)
    ensures { (h : Home) → hash.get same_home chains.new h ≡ (if same_home home h then option_map (moved place next) (hash.get same_home chains.old home) else hash.get same_home chains.old h) }
{
    let Some(chain) = chains.get(&home).copied() else {
        return;
    };
    match chains.insert(home, moved(place, next, chain)) {
        Ok(_) => {}
        Err(_) => unreachable!(),
    }
}

/// One rule more: its table, its place, and the place in its home's chain.
pub(crate) fn add(alloc: Global, finder: &mut Finder, rule: &Rule) -> Result<(), AllocError>
    requires { length finder.old.places.items < 1048576 }
    ensures ok { OnOk result (Adds finder.old finder.new rule.now) }
    ensures err { OnErr result (Stays finder.old finder.new rule.now) }
{
    finder.places.reserve(1)?;
    let home = home_of(alloc, &mut finder.tables, rule)?;
    let place = finder.places.as_slice().len() as u32;
    finder.ids.insert(rule.id(), place)?;
    let lead = Lead {
        place,
        id: rule.id(),
    };
    let last = note(&mut finder.chains, home, lead)?;
    append(&mut finder.places, last, RulePlace { home, next: None });
    Ok(())
}

/// The rule at a place, if there is one.
#[inline(always)]
pub(crate) fn rule_at(slots: &[RuleSlot], place: u32) -> Option<&Rule>
    ensures { option_map (λ rule. rule.now) result ≡ rule_in (slice_get slots.now place) }
{
    match slots.get(place as usize) {
        None => None,
        Some(slot) => slot.rule(),
    }
}

/// The place of the rule that has this id, if there is one.
pub(crate) fn find(slots: &[RuleSlot], finder: &Finder, id: u32) -> Option<u32>
    requires { IsIndexed slots.now finder.now }
    ensures { IsFound slots.now id result }
{
    let Some(place) = finder.ids.get(&id).copied() else {
        return None;
    };
    let Some(rule) = rule_at(slots, place) else {
        return None;
    };
    if rule.id() != id {
        return None;
    }
    Some(place)
}

/// Takes the rule of this id out of its place.
pub(crate) fn forget(slots: &mut [RuleSlot], finder: &mut Finder, id: u32, place: u32)
    requires indexed { IsIndexed slots.old finder.old }
    requires place { IsPlaceOf slots.old id place }
    ensures slots { slots.new ≡ slice_set slots.old place None }
    ensures indexed { IsIndexed slots.new finder.new }
{
    slots[place as usize].clear();
    finder.ids.remove(&id);
    let home = finder.places[place as usize].home;
    let kept = Stock {
        slots: &*slots,
        places: finder.places.as_slice(),
    };
    let next = first_taken(kept, home, place, None, &mut 0);
    advance(&mut finder.chains, home, place, next);
}

/// What finds the rules that are there, made anew: their places are counted without those of removed ones.
fn renewed(alloc: Global, slots: &[RuleSlot]) -> Result<Finder, AllocError>
    requires few { length slots.now ≤ 1048576 }
    requires distinct { AreDistinct slots.now }
    ensures { IfOk result (IsIndexed (filter is_some slots.now)) }
{
    let mut finder = Finder::new(alloc);
    for slot in slots {
        let Some(rule) = slot.rule() else {
            continue;
        };
        add(alloc, &mut finder, rule)?;
    }
    Ok(finder)
}

/// Drops the slots without a rule, and makes anew what finds the others.
pub(crate) fn renew(
    alloc: Global,
    slots: &mut Vec<RuleSlot>,
    finder: &mut Finder,
) -> Result<(), AllocError>
    requires { IsIndexed slots.old.items finder.old }
    ensures indexed { IsIndexed slots.new.items finder.new }
    ensures ok { OnOk result (slots.new.items ≡ filter is_some slots.old.items) }
    ensures err { OnErr result (slots.new.items ≡ slots.old.items) }
{
    let fresh = renewed(alloc, slots.as_slice())?;
    slots.retain(|slot| slot.has_rule());
    *finder = fresh;
    Ok(())
}

/// One rule more, in its slot behind the others.
pub(crate) fn put(
    alloc: Global,
    slots: &mut Vec<RuleSlot>,
    finder: &mut Finder,
    rule: &Rule,
    slot: RuleSlot,
) -> Result<(), AllocError>
    requires indexed { IsIndexed slots.old.items finder.old }
    requires few { length slots.old.items < 1048576 }
    requires new { HasNo slots.old.items rule.now.id }
    requires slot { slot ≡ Some rule.now }
    ensures indexed { IsIndexed slots.new.items finder.new }
    ensures ok { OnOk result (slots.new.items ≡ slots.old.items ++ Some rule.now ∷ []) }
    ensures err { OnErr result (slots.new.items ≡ slots.old.items) }
{
    slots.reserve(1)?;
    add(alloc, finder, rule)?;
    slots.push_reserved(slot);
    Ok(())
}
