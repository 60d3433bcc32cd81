//! Patterns made ready to be matched.
ghost use Rattle.std.specs.Prelude.{◌≡◌};

use crate::pattern::MAX_ITEMS;
use arrayvec::ArrayVec;
use packet_headers::ItemKind;
use std::alloc::AllocError;
use std::marker::Model;

/// What an item asks of one field: that its number, by the mask, lies from `low` to `high`.
#[derive(Clone, Copy, PartialEq, Eq, Debug, Default)]
pub struct Condition {
    /// The field's place in the field table.
    pub field: u8,
    pub mask: u128,
    pub low: u128,
    pub high: u128,
}

/// The most fields of a kind.
pub const MAX_FIELDS: usize = 6;

/// What an item asks of a layer: its kind, and a condition for each field whose mask isn't 0.
#[derive(Drop, Default, Debug)]
pub struct ItemTest {
    pub kind: ItemKind,
    pub conditions: ArrayVec<Condition, MAX_FIELDS>,
}

impl Clone for ItemTest {
    ghost is_clone = { λ test copy. copy ≡ test };

    fn clone(&self) -> Result<ItemTest, AllocError> {
        let conditions = self.conditions.clone()?;
        Ok(ItemTest {
            kind: self.kind,
            conditions,
        })
    }
}

/// A pattern made ready: what each item but `Void` asks, in order.
#[derive(Drop, Debug)]
pub struct Test {
    pub(crate) items: ArrayVec<ItemTest, MAX_ITEMS>,
}

impl Model for Test {
    ghost use Rattle.std.specs.Prelude.{List};
    ghost use Rattle.pattern_items.specs.declared.test.ItemTest.{ItemTest};

    ghost Value = { List ItemTest };

    ghost view = { λ test. test.items.items };

    ghost use Rattle.pattern_items.specs.Rising.{AllRise};

    ghost invariant = { λ test. AllRise test.items.items };
}

impl Clone for Test {
    ghost is_clone = { λ test copy. copy ≡ test };

    fn clone(&self) -> Result<Test, AllocError> {
        let items = self.items.clone()?;
        Ok(Test { items })
    }
}
