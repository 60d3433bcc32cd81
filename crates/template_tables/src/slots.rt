//! The slots of a table.
ghost use Rattle.std.specs.Prelude.{◌≡◌, nat_eq, IfSome, IfNone, None};
ghost use Rattle.std.specs.Map.{lookup};
ghost use Rattle.template_tables.specs.Slots.{IsFirstAt};

use flow_rules::Rule;
use shared_value::Shared;

/// The place of the slot of an id, where there is one.
pub(crate) fn place_of(slots: &[(u32, Option<Shared<Rule>>)], id: u32) -> Option<usize>
    ensures found { IfSome result (IsFirstAt id slots.now) }
    ensures none { IfNone result (lookup (nat_eq id) slots.now ≡ None) }
{
    for (place, slot) in slots.iter().enumerate() {
        if slot.0 == id {
            return Some(place);
        }
    }
    None
}
