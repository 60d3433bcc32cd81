//! The masks of a template's items.
ghost use Rattle.std.specs.Prelude.{◌≡◌, nat_lt};
ghost use Rattle.std.specs.List.{list_any};
ghost use Rattle.pattern_items.specs.Conditions.{default_masks};
ghost use Rattle.rule_binding.specs.Binding.{has_bits};
ghost use Rattle.rule_binding.specs.Templates.{template_mask};

use packet_headers::ItemKind;
use pattern_items::{Fields, Item, default_mask};

/// The masks of an item that gives none.
fn default_masks(kind: ItemKind) -> Fields
    ensures { result.v ≡ default_masks kind }
{
    Fields {
        v: [
            default_mask(kind, 0),
            default_mask(kind, 1),
            default_mask(kind, 2),
            default_mask(kind, 3),
            default_mask(kind, 4),
            default_mask(kind, 5),
        ],
    }
}

/// The mask that a template keeps of an item.
pub fn template_mask(item: &Item) -> Option<Fields>
    ensures { result ≡ template_mask item.now.kind item.now.given item.now.mask }
{
    if let Some(mask) = item.mask {
        return Some(mask);
    }
    if item.given.is_some() {
        return Some(default_masks(item.kind));
    }
    None
}

/// Whether one of the numbers isn't 0.
fn has_bit(numbers: &[u128]) -> bool
    ensures { result ≡ list_any (nat_lt 0) numbers.now }
{
    numbers.iter().any(|number| *number > 0)
}

/// Whether a mask has a bit set.
pub fn has_bits(mask: &Option<Fields>) -> bool
    ensures { result ≡ has_bits mask.now }
{
    match mask {
        Some(mask) => has_bit(&mask.v),
        None => false,
    }
}
