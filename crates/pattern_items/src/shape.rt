//! Tests that make no range: the kinds, masks and values to look for.
ghost use Rattle.std.specs.Prelude.{◌≡◌, ◌≤◌, ◌<◌, ◌↔◌, IsTrue, List, None, Some, IfSome, if◌then◌else◌, length};
ghost use Rattle.std.specs.List.{list_any};
ghost use Rattle.packet_headers.specs.declared.items.LayerAt.{LayerAt};
ghost use Rattle.pattern_items.specs.Matches.{accepts};
ghost use Rattle.pattern_items.specs.Shape.{makes_range, item_has_range, has_range, on_field, masks_of_test, values_of_test, shape_of, numbers_in};

use crate::pattern::{Fields, MAX_ITEMS};
use crate::test::{Condition, ItemTest, MAX_FIELDS, Test};
use arrayvec::ArrayVec;
use packet_headers::ItemKind;

/// What a test without ranges asks: item by item a kind, and for each field a mask and the value that
/// a header has there by the mask. Both are 0 at a field of which nothing is asked.
#[derive(Drop, Debug)]
pub struct Shape {
    pub kinds: ArrayVec<ItemKind, MAX_ITEMS>,
    pub masks: ArrayVec<Fields, MAX_ITEMS>,
    pub values: ArrayVec<Fields, MAX_ITEMS>,
}

/// Whether a condition makes a range of more than one number.
fn has_range(conditions: &[Condition]) -> bool
    ensures { result ≡ list_any makes_range conditions.now }
{
    for condition in conditions {
        if condition.low != condition.high {
            return true;
        }
    }
    false
}

/// Whether any item makes a range.
fn any_has_range(items: &[ItemTest]) -> bool
    ensures { result ≡ list_any item_has_range items.now }
{
    for item in items {
        if has_range(&item.conditions) {
            return true;
        }
    }
    false
}

/// What is asked of a field.
fn on_field(conditions: &[Condition], field: u8) -> Condition
    ensures { result ≡ on_field conditions.now field }
{
    for condition in conditions {
        if condition.field == field {
            return *condition;
        }
    }
    Condition {
        field,
        mask: 0,
        low: 0,
        high: 0,
    }
}

/// The masks of an item, by fields.
fn masks(item: &ItemTest) -> Fields
    ensures { result ≡ masks_of_test item.now }
{
    let mut masks = Fields::default();
    for (field, mask) in masks.v.iter_mut().enumerate() {
        *mask = on_field(&item.conditions, field as u8).mask;
    }
    masks
}

/// The values of an item, by fields.
fn values(item: &ItemTest) -> Fields
    ensures { result ≡ values_of_test item.now }
{
    let mut values = Fields::default();
    for (field, value) in values.v.iter_mut().enumerate() {
        *value = on_field(&item.conditions, field as u8).low;
    }
    values
}

/// The shape of the items, whether or not they make ranges.
fn shape_of(items: &[ItemTest]) -> Shape
    requires { length items.now ≤ 16 }
    ensures { result ≡ shape_of items.now }
{
    let mut shape = Shape {
        kinds: ArrayVec::new(),
        masks: ArrayVec::new(),
        values: ArrayVec::new(),
    };
    for item in items {
        shape.kinds.push(item.kind);
        shape.masks.push(masks(item));
        shape.values.push(values(item));
    }
    shape
}

impl Test {
    /// The shape of the test, or None where some field makes a range of more than one number. The
    /// test then accepts just the headers that have the shape's values.
    pub fn masked(&self) -> Option<Shape>
        ensures shape { result ≡ (if has_range self.now then None else Some (shape_of self.now)) }
        ensures accepts { IfSome result (λ shape. (ls : List LayerAt) → IsTrue (accepts self.now ls) ↔ (numbers_in shape ls ≡ Some shape.values.items)) }
    {
        let items = self.items.as_slice();
        if any_has_range(items) {
            return None;
        }
        Some(shape_of(items))
    }
}
