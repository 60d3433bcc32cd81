//! Where the kinds of a list first differ from those that are wanted.
ghost use Rattle.std.specs.Prelude.{ℕ, ◌≡◌, ◌+◌, ◌<◌, ◌^◌, length, map};
ghost use Rattle.packet_headers.specs.Key.{kind_number};
ghost use Rattle.flow_actions.specs.Kinds.{action_number};
ghost use Rattle.rule_binding.specs.Binding.{item_number, wanted_item, number_of_action, wanted_action};
ghost use Rattle.rule_binding.specs.Difference.{difference};

use crate::template::{TemplateAction, TemplateItem};
use flow_actions::{Action, ActionKind};
use packet_headers::ItemKind;
use pattern_items::Item;

/// What has a kind. `Void` has the number 0.
pub trait HasKind {
    /// The number of its kind.
    ghost number: { Self → ℕ };

    /// The number of its kind.
    fn number(&self) -> u8
        ensures { result ≡ number self.now };
}

impl HasKind for Item {
    ghost number = { item_number };

    fn number(&self) -> u8 {
        item_kind_number(self.kind)
    }
}

impl HasKind for TemplateItem {
    ghost number = { wanted_item };

    fn number(&self) -> u8 {
        item_kind_number(self.kind)
    }
}

impl HasKind for ActionKind {
    ghost number = { action_number };

    fn number(&self) -> u8 {
        action_kind_number(*self)
    }
}

impl HasKind for Action {
    ghost number = { number_of_action };

    fn number(&self) -> u8 {
        action_kind_number(self.kind())
    }
}

impl HasKind for TemplateAction {
    ghost number = { wanted_action };

    fn number(&self) -> u8 {
        action_kind_number(self.action.kind())
    }
}

fn item_kind_number(kind: ItemKind) -> u8
    ensures { result ≡ kind_number kind }
{
    kind as u8
}

fn action_kind_number(kind: ActionKind) -> u8
    ensures { result ≡ action_number kind }
{
    kind as u8
}

/// The place at which the kinds of a list, `Void` left out, first differ from those wanted. The list begins at a place.
pub fn difference<W: HasKind, L: HasKind>(wanted: &[W], place: u16, list: &[L]) -> Option<u16>
    requires { place + length list.now < 2 ^ 16 }
    ensures { result ≡ difference (map W.number wanted.now) place (map L.number list.now) }
{
    let Some((other, behind)) = list.split_first() else {
        wanted.split_first()?;
        return Some(place);
    };
    let other = other.number();
    if other == 0 {
        return difference(wanted, place + 1, behind);
    }
    let Some((kind, wanted)) = wanted.split_first() else {
        return Some(place);
    };
    if kind.number() != other {
        return Some(place);
    }
    difference(wanted, place + 1, behind)
}
