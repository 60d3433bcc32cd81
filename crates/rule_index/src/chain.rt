//! Places, and the chains of the places that have one home.
ghost use Rattle.std.specs.Prelude.{◌≡◌, ◌<◌, ◌++◌, ◌∷◌, [], length, Some, vec_len, vec_capacity};
ghost use Rattle.std.specs.Option.{option_copied};
ghost use Rattle.rule_index.specs.Places.{passing, home_at, AreLinked, IsFirst, relinked, linked_by, led_by, longer, led_behind, moved};

use crate::slot::RuleSlot;
use crate::table::Home;
use packet_headers::Key;

/// What is kept of a rule to find it: its home, and the next place that has this home.
#[derive(Clone, Copy)]
pub(crate) struct RulePlace {
    pub(crate) home: Home,
    pub(crate) next: Option<u32>,
}

/// A rule that is there: its place and its id.
#[derive(Clone, Copy)]
pub(crate) struct Lead {
    pub(crate) place: u32,
    pub(crate) id: u32,
}

/// The first rule of a home, if it has one, and the last of its places, those without a rule among them.
#[derive(Clone, Copy)]
pub(crate) struct HomeChain {
    pub(crate) lead: Option<Lead>,
    pub(crate) last: u32,
}

/// The slots and their places.
#[derive(Clone, Copy)]
pub(crate) struct Stock<'a> {
    pub(crate) slots: &'a [RuleSlot],
    pub(crate) places: &'a [RulePlace],
}

/// The id of the rule in a slot that passes.
#[inline(always)]
fn passing(slot: &RuleSlot, asked: Option<&Key>, seen: &mut u64) -> Option<u32>
    ensures { result ≡ passing (option_copied asked.entry) slot.now }
{
    let Some(rule) = slot.rule() else {
        return None;
    };
    *seen = seen.saturating_add(1);
    let Some(key) = asked else {
        return Some(rule.id());
    };
    if rule.test().matches(key) {
        return Some(rule.id());
    }
    None
}

/// The first place of a home, from one on, whose slot passes, and the id of its rule.
pub(crate) fn first_taken(
    kept: Stock<'_>,
    home: Home,
    from: u32,
    asked: Option<&Key>,
    seen: &mut u64,
) -> Option<Lead>
    requires long { length kept.places.now ≡ length kept.slots.now }
    requires linked { AreLinked kept.places.now }
    requires from { home_at kept.places.now from ≡ Some home }
    ensures { IsFirst (option_copied asked.entry) kept.entry.slots.now kept.entry.places.now home from result }
{
    let mut at = Some(from);
    while let Some(place) = at {
        if let Some(id) = passing(&kept.slots[place as usize], asked, seen) {
            return Some(Lead { place, id });
        }
        at = kept.places[place as usize].next;
    }
    None
}

/// Makes a place the next one of another.
#[tactic(auto, using(crate::proofs::Walks::set_is_relinked, crate::proofs::Walks::relinked_past))]
fn relink(places: &mut [RulePlace], last: u32, next: u32)
    ensures { places.new ≡ relinked places.old last next }
{
    if (last as usize) < places.len() {
        places[last as usize].next = Some(next);
    }
}

/// Makes a place the next one of the last of its home, if there is one.
fn link(places: &mut [RulePlace], last: Option<u32>, next: u32)
    ensures { places.new ≡ linked_by places.old last next }
{
    if let Some(last) = last {
        relink(places, last, next);
    }
}

/// One place more, behind the last of its home, if there is one.
pub(crate) fn append(places: &mut Vec<RulePlace>, last: Option<u32>, place: RulePlace)
    requires room { vec_len places.old < vec_capacity places.old }
    requires few { length places.old.items < 1048576 }
    ensures { places.new.items ≡ linked_by places.old.items last (length places.old.items) ++ place ∷ [] }
{
    let next = places.as_slice().len() as u32;
    link(places.as_mut_slice(), last, next);
    places.push_reserved(place);
}

/// The first rule of a home with one more.
fn led_by(lead: Option<Lead>, new: Lead) -> Lead
    ensures { result ≡ led_by lead new }
{
    match lead {
        None => new,
        Some(lead) => lead,
    }
}

/// The ends of a home's places with one more.
pub(crate) fn longer(chain: Option<HomeChain>, new: Lead) -> HomeChain
    ensures { result ≡ longer chain new }
{
    match chain {
        None => HomeChain {
            lead: Some(new),
            last: new.place,
        },
        Some(chain) => HomeChain {
            lead: Some(led_by(chain.lead, new)),
            last: new.place,
        },
    }
}

/// The first rule of a home once that of a place is gone, where this is the first behind.
fn led_behind(place: u32, next: Option<Lead>, lead: Option<Lead>) -> Option<Lead>
    ensures { result ≡ led_behind place next lead }
{
    match lead {
        None => None,
        Some(lead) if lead.place == place => next,
        Some(lead) => Some(lead),
    }
}

/// The ends of a home's places once the rule of a place is gone.
pub(crate) fn moved(place: u32, next: Option<Lead>, chain: HomeChain) -> HomeChain
    ensures { result ≡ moved place next chain }
{
    HomeChain {
        lead: led_behind(place, next, chain.lead),
        last: chain.last,
    }
}
