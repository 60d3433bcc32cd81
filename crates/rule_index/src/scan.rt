//! The tables of a group, one after another.
ghost use Rattle.std.specs.Prelude.{◌≡◌, ◌<◌, length};
ghost use Rattle.std.specs.HashMap as hash;
ghost use Rattle.rule_index.specs.Index.{IsIndexed};
ghost use Rattle.rule_index.specs.Places.{same_home, lead_in};
ghost use Rattle.rule_index.specs.Rank.{IsTakenIn, IsBest, earlier};

use crate::chain::{HomeChain, Lead, Stock, first_taken};
use crate::finder::Finder;
use crate::slot::RuleSlot;
use crate::table::Home;
use crate::turn::{cut, order_of};
use packet_headers::Key;
use std::collections::HashMap;

/// The first rule of a home.
#[inline(always)]
fn lead_of(chains: &HashMap<Home, HomeChain>, home: Home) -> Option<Lead>
    ensures { result ≡ lead_in (hash.get same_home chains.now home) }
{
    match chains.get(&home) {
        None => None,
        Some(chain) => chain.lead,
    }
}

/// The first rule of a table that accepts the frame.
fn taken_in(
    finder: &Finder,
    slots: &[RuleSlot],
    number: usize,
    key: &Key,
    seen: &mut u64,
) -> Option<Lead>
    requires indexed { IsIndexed slots.now finder.now }
    requires table { number < length finder.now.tables.list }
    ensures { IsTakenIn slots.now finder.now.places.items number key.now result }
{
    let table = &finder.tables.list()[number];
    let Some(digest) = table.digest(key) else {
        return None;
    };
    let home = Home {
        digest,
        table: number,
    };
    let Some(lead) = lead_of(&finder.chains, home) else {
        return None;
    };
    if table.exact {
        *seen = seen.saturating_add(1);
        return Some(lead);
    }
    let kept = Stock {
        slots,
        places: finder.places.as_slice(),
    };
    first_taken(kept, home, lead.place, Some(key), seen)
}

/// The earlier of two rules, if there are two.
#[inline(always)]
fn earlier(best: Option<Lead>, lead: Lead) -> Lead
    ensures { result ≡ earlier best lead }
{
    match best {
        None => lead,
        Some(first) if lead.place < first.place => lead,
        Some(first) => first,
    }
}

/// The best rule of a group for a frame: the first table that gives one tells the priority, and only tables of that one follow.
pub(crate) fn best_of(
    finder: &Finder,
    slots: &[RuleSlot],
    group: u32,
    key: &Key,
    seen: &mut u64,
) -> Option<Lead>
    requires { IsIndexed slots.now finder.now }
    ensures { IsBest slots.now group key.now result }
{
    let turns = finder.tables.turns();
    let mut last = order_of(group, u32::MAX);
    let mut best = None;
    for place in cut(turns, order_of(group, 0))..turns.len() {
        let turn = turns[place];
        if turn.order > last {
            return best;
        }
        let Some(lead) = taken_in(finder, slots, turn.number, key, seen) else {
            continue;
        };
        last = turn.order;
        best = Some(earlier(best, lead));
    }
    best
}
