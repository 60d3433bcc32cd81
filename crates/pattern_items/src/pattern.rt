//! Patterns as they are asked for: a list of items, each with what it says of a header.
ghost use Rattle.std.specs.Prelude.{◌≡◌};

use arrayvec::ArrayVec;
use packet_headers::ItemKind;
use std::alloc::AllocError;

/// A number for every field of a kind, in host order: one for each field of the field table, in its
/// order, and 0 behind them.
#[derive(Clone, Copy, PartialEq, Eq, Debug, Default)]
pub struct Fields {
    pub v: [u128; 6],
}

/// An item of a pattern (rte_flow guide: spec, last and mask).
#[derive(Clone, Copy, PartialEq, Eq, Debug, Default)]
pub struct Item {
    pub kind: ItemKind,
    /// `spec`: the numbers to match. Without it the item tests no field.
    pub given: Option<Fields>,
    /// `last`: the greatest numbers to match. One that isn't greater than `spec`'s makes no range.
    pub last: Option<Fields>,
    /// `mask`: the bits to compare. Without it the kind's default masks are taken.
    pub mask: Option<Fields>,
}

/// The most items of a pattern. Two Ethernet frames with two tags each and VXLAN between them are
/// 11.
pub const MAX_ITEMS: usize = 16;

/// The items of a pattern, in order.
#[derive(Debug, Drop)]
pub struct Pattern {
    pub items: ArrayVec<Item, MAX_ITEMS>,
    /// How many items stood behind the first 16, up to 65,535.
    pub more: u16,
}

impl Clone for Pattern {
    ghost is_clone = { λ pattern copy. copy ≡ pattern };

    fn clone(&self) -> Result<Pattern, AllocError> {
        let items = self.items.clone()?;
        let more = self.more;
        Ok(Pattern { items, more })
    }
}
