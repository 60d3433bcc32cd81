//! A test on a key: the items are met by its headers, one after another.
ghost use Rattle.std.specs.Prelude.{◌≡◌, Some};
ghost use Rattle.pattern_items.specs.Conditions.{is_met, fits};
ghost use Rattle.packet_headers.specs.Key.{is_of};
ghost use Rattle.pattern_items.specs.Matches.{accepts};
ghost use Rattle.pattern_items.specs.Walk.{passes, step, all_met};

use crate::header::Header;
use crate::test::{Condition, ItemTest, Test};
use crate::walk::{Walker, walk_key};
use packet_headers::{ItemKind, Key};

/// Whether a header is of this kind.
#[inline(always)]
pub fn is_of_kind<H: Header>(kind: ItemKind, header: &H) -> bool
    ensures { result ≡ is_of kind (H.layer header.now) }
{
    header.kind() == kind
}

#[inline(always)]
fn is_met(condition: &Condition, number: u128) -> bool
    ensures { result ≡ is_met condition.now number }
{
    let masked = number & condition.mask;
    if masked < condition.low {
        return false;
    }
    masked <= condition.high
}

#[inline(always)]
fn are_met<H: Header>(conditions: &[Condition], header: &H) -> bool
    ensures { result ≡ fits conditions.now (H.layer header.now).layer.v }
{
    for condition in conditions {
        if !is_met(condition, header.field(condition.field)) {
            return false;
        }
    }
    true
}

/// Whether a layer of another kind than the item at hand is passed over, where so many items are met.
#[inline(always)]
pub fn passes(met: usize, kind: ItemKind) -> bool
    ensures { result ≡ passes met kind }
{
    if met == 0 {
        return !matches!(kind, ItemKind::Vxlan);
    }
    matches!(kind, ItemKind::Vlan)
}

/// How many items are met behind this header, or None where there is no match any more.
#[inline(always)]
fn step<H: Header>(items: &[ItemTest], met: usize, header: &H) -> Option<usize>
    ensures { result ≡ step items.now met (H.layer header.now) }
{
    let Some(item) = items.get(met) else {
        return Some(met);
    };
    if is_of_kind(item.kind, header) {
        if !are_met(&item.conditions, header) {
            return None;
        }
        return Some(met + 1);
    }
    if passes(met, header.kind()) {
        return Some(met);
    }
    None
}

/// How many items are met.
impl Walker for Test {
    type Way = usize;

    ghost use Rattle.std.specs.Prelude.{nat_eq, length};

    ghost step = { step };

    ghost is_done = { λ items met. nat_eq met (length items) };

    ghost use Rattle.pattern_items.specs.WalkEnd.{all_are_met};

    ghost stays = { all_are_met };

    #[inline(always)]
    fn step<H: Header>(&self, met: usize, header: &H) -> Option<usize> {
        step(self.items.as_slice(), met, header)
    }

    #[inline(always)]
    fn is_done(&self, met: usize) -> bool {
        met == self.items.len()
    }
}

/// Whether a walk met all items.
fn are_all_met(items: &[ItemTest], walked: Option<usize>) -> bool
    ensures { result ≡ all_met items.now walked }
{
    let Some(met) = walked else {
        return false;
    };
    met == items.len()
}

impl Test {
    /// Whether a frame with these headers matches the pattern (rte_flow guide: matching pattern).
    #[tactic(auto, using(crate::proofs::Walks::begins_walk))]
    pub fn matches(&self, key: &Key) -> bool
        ensures { result ≡ accepts self.now key.now }
    {
        are_all_met(self.items.as_slice(), walk_key(self, 0, key))
    }
}
