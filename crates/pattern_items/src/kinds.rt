//! The kinds of a test's items.
ghost use Rattle.std.specs.Prelude.{◌≡◌};
ghost use Rattle.pattern_items.specs.Matches.{kinds_of};

use crate::pattern::MAX_ITEMS;
use crate::test::Test;
use arrayvec::ArrayVec;
use packet_headers::ItemKind;

impl Test {
    /// The kinds of the pattern's items in order, without `Void`.
    pub fn kinds(&self) -> ArrayVec<ItemKind, MAX_ITEMS>
        ensures { result.items ≡ kinds_of self.now }
    {
        let mut kinds = ArrayVec::new();
        for item in self.items.as_slice() {
            kinds.push(item.kind);
        }
        kinds
    }
}
