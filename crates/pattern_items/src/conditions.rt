//! What an item asks of a layer of its kind.
ghost use Rattle.std.specs.Prelude.{◌≡◌, ◌≤◌, ◌<◌, ℕ, List, length, slice_index};
ghost use Rattle.packet_headers.specs.Fields.{fields_of};
ghost use Rattle.pattern_items.specs.Conditions.{default_masks, masks_of, lasts_of, condition, conditions_of, fits};
ghost use Rattle.pattern_items.specs.Guide.{item_fits};
ghost use Rattle.pattern_items.specs.declared.pattern.Item.{Item};
ghost use Rattle.pattern_items.specs.Matches.{tests_of};

use crate::order::is_void;
use crate::pattern::{Fields, Item, MAX_ITEMS};
use crate::test::{Condition, ItemTest, MAX_FIELDS};
use arrayvec::ArrayVec;
use packet_headers::{ItemKind, fields_of};

/// How many fields a kind has.
#[tactic(auto, using(crate::proofs::FieldLists::fields_few))]
pub fn field_count(kind: ItemKind) -> usize
    ensures count { result ≡ length (fields_of kind) }
    ensures most { result ≤ 6 }
{
    fields_of(kind).len()
}

/// The mask of a field where an item gives none, by its place in the kind's fields; 0 behind the last of them.
#[tactic(auto, using(crate::proofs::FieldLists::default_mask_at, crate::proofs::FieldLists::default_mask_past))]
pub fn default_mask(kind: ItemKind, field: usize) -> u128
    ensures { result ≡ slice_index (default_masks kind) field }
{
    let fields = fields_of(kind);
    if field < fields.len() {
        fields[field].default_mask
    } else {
        0
    }
}

/// The mask of a field in an item.
pub fn mask_of(item: &Item, field: usize) -> u128
    requires { field < 6 }
    ensures { result ≡ slice_index (masks_of item.now) field }
{
    match item.mask {
        Some(mask) => mask.v[field],
        None => default_mask(item.kind, field),
    }
}

/// The end of a field's range in an item, and 0 where none is given.
fn last_of(item: &Item, field: usize) -> u128
    requires { field < 6 }
    ensures { result ≡ slice_index (lasts_of item.now) field }
{
    match item.last {
        Some(last) => last.v[field],
        None => 0,
    }
}

/// What an item with this `spec` asks of a field.
fn condition(item: &Item, given: &Fields, field: usize) -> Condition
    requires { field < 6 }
    ensures { result ≡ condition given.now.v (lasts_of item.now) (masks_of item.now) field }
{
    let mask = mask_of(item, field);
    let low = given.v[field] & mask;
    Condition {
        field: field as u8,
        mask,
        low,
        high: low.max(last_of(item, field) & mask),
    }
}

/// What an item asks.
#[tactic(auto, using(std::proofs::lemmas::List::FromFn::filter_of_map_range_with_len_more))]
fn conditions(item: &Item) -> ArrayVec<Condition, MAX_FIELDS>
    ensures { result.items ≡ conditions_of item.now }
{
    let mut conditions = ArrayVec::new();
    let Some(given) = item.given else {
        return conditions;
    };
    for field in 0..field_count(item.kind) {
        let condition = condition(item, &given, field);
        if condition.mask == 0 {
            continue;
        }
        conditions.push(condition);
    }
    conditions
}

/// What the items but `Void` ask.
pub fn tests_of(items: &[Item]) -> ArrayVec<ItemTest, MAX_ITEMS>
    requires { length items.now ≤ 16 }
    ensures { result.items ≡ tests_of items.now }
{
    let mut tests = ArrayVec::new();
    for item in items {
        if is_void(item.kind) {
            continue;
        }
        tests.push(ItemTest {
            kind: item.kind,
            conditions: conditions(item),
        });
    }
    tests
}

/// States that an item's conditions are what the rte_flow guide says of `spec`, `last` and `mask`. It
/// does nothing.
#[tactic(auto, using(crate::proofs::GuideFits::fits_by_guide))]
pub fn conditions_are_spec_last_and_mask()
    ensures { (item : Item) (v : List ℕ) → fits (conditions_of item) v ≡ item_fits item v }
{}
