//! The faults of a pattern: item by item from the left, and at one item its place first, then what
//! it lacks, then its ranges.
ghost use Rattle.std.specs.Prelude.{◌≡◌, ◌≤◌, ◌<◌, length};
ghost use Rattle.std.specs.List.{list_any, range_with_len};
ghost use Rattle.packet_headers.specs.Fields.{fields_of};
ghost use Rattle.pattern_items.specs.Conditions.{masks_of};
ghost use Rattle.pattern_items.specs.Faults.{is_below, ends_below, lacks_spec, faults_of_item, faults_from, first};
ghost use Rattle.pattern_items.specs.Order.{nothing_before};

use crate::conditions::{field_count, mask_of};
use crate::fault::ItemFault;
use crate::order::{Before, is_void};
use crate::pattern::{Fields, Item};

/// Whether an item has `last` or `mask` without `spec`.
fn lacks_spec(item: &Item) -> bool
    ensures { result ≡ lacks_spec item.now }
{
    if item.given.is_some() {
        return false;
    }
    if item.last.is_some() {
        return true;
    }
    item.mask.is_some()
}

/// Whether a field's range ends below its beginning.
fn is_below(item: &Item, given: &Fields, last: &Fields, field: usize) -> bool
    requires { field < 6 }
    ensures { result ≡ is_below given.now.v last.now.v (masks_of item.now) field }
{
    let mask = mask_of(item, field);
    let end = last.v[field] & mask;
    if end == 0 {
        return false;
    }
    end < given.v[field] & mask
}

/// Whether any field's range ends below its beginning.
#[tactic(auto, using(crate::proofs::Ranges::any_none))]
fn is_any_below(item: &Item, given: &Fields, last: &Fields) -> bool
    ensures { result ≡ list_any (is_below given.now.v last.now.v (masks_of item.now)) (range_with_len 0 (length (fields_of item.now.kind))) }
{
    for field in 0..field_count(item.kind) {
        if is_below(item, given, last, field) {
            return true;
        }
    }
    false
}

/// Whether a range of an item ends below its beginning.
fn ends_below(item: &Item) -> bool
    ensures { result ≡ ends_below item.now item.now.given item.now.last }
{
    let Some(given) = item.given else {
        return false;
    };
    let Some(last) = item.last else {
        return false;
    };
    is_any_below(item, &given, &last)
}

/// The first fault of an item at this place, behind what stands before it.
fn fault_of_item(place: u16, before: &Before, item: &Item) -> Option<ItemFault>
    ensures { result ≡ first (faults_of_item place before.now item.now) }
{
    if !before.may_stand(item.kind) {
        return Some(ItemFault::Order(place));
    }
    if lacks_spec(item) {
        return Some(ItemFault::SpecMissing(place));
    }
    if ends_below(item) {
        return Some(ItemFault::LastBelow(place));
    }
    None
}

/// The first fault of these items.
pub fn fault_of_items(items: &[Item]) -> Option<ItemFault>
    requires { length items.now ≤ 16 }
    ensures { result ≡ first (faults_from 0 nothing_before items.now) }
{
    let mut before = Before::nothing();
    for (place, item) in items.iter().enumerate() {
        if is_void(item.kind) {
            continue;
        }
        if let Some(fault) = fault_of_item(place as u16, &before, item) {
            return Some(fault);
        }
        before = before.next(item.kind);
    }
    None
}
