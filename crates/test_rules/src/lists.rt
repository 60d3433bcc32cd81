//! Attributes, items, patterns and lists of actions.
ghost use Rattle.std.specs.Prelude.{◌≡◌, ◌-◌, min, take, map, length, true, false};
ghost use Rattle.test_rules.specs.Items.{any_item};

use arrayvec::ArrayVec;
use flow_actions::{Action, Actions, MAX_ACTIONS};
use flow_rules::Attr;
use packet_headers::ItemKind;
use pattern_items::{Item, MAX_ITEMS, Pattern};

/// The attributes of a rule on incoming frames.
pub fn ingress(group: u32, priority: u32) -> Attr
    ensures { result ≡ record { group = group; priority = priority; ingress = true; egress = false; transfer = false } }
{
    Attr {
        group,
        priority,
        ingress: true,
        egress: false,
        transfer: false,
    }
}

/// An item without numbers.
pub const fn any(kind: ItemKind) -> Item
    ensures { result ≡ any_item kind }
{
    Item {
        kind,
        given: None,
        last: None,
        mask: None,
    }
}

/// The pattern of these items.
pub fn pattern_of(items: &[Item]) -> Pattern
    ensures items { result.items.items ≡ take 16 items.now }
    ensures more { result.more ≡ min (length items.now - 16) 65535 }
{
    let mut list = ArrayVec::new();
    for item in front(items, MAX_ITEMS) {
        list.push(*item);
    }
    Pattern {
        items: list,
        more: number_behind(items.len(), MAX_ITEMS),
    }
}

/// The pattern of items of these kinds without numbers.
pub fn pattern_of_kinds(kinds: &[ItemKind]) -> Pattern
    ensures items { result.items.items ≡ map any_item (take 16 kinds.now) }
    ensures more { result.more ≡ min (length kinds.now - 16) 65535 }
{
    let mut list = ArrayVec::new();
    for kind in front(kinds, MAX_ITEMS) {
        list.push(any(*kind));
    }
    Pattern {
        items: list,
        more: number_behind(kinds.len(), MAX_ITEMS),
    }
}

/// The list of these actions.
pub fn actions_of(list: &[Action]) -> Actions
    ensures list { result.list.items ≡ take 16 list.now }
    ensures more { result.more ≡ min (length list.now - 16) 65535 }
{
    let mut copy = ArrayVec::new();
    for action in front(list, MAX_ACTIONS) {
        copy.push(action.copied());
    }
    Actions {
        list: copy,
        more: number_behind(list.len(), MAX_ACTIONS),
    }
}

/// The first elements, at most so many.
fn front<T>(list: &[T], most: usize) -> &[T]
    ensures { result.now ≡ take most list.now }
{
    if list.len() <= most {
        return list;
    }
    &list[..most]
}

/// How many elements stand behind the first so many, up to what a list can tell.
fn number_behind(len: usize, most: usize) -> u16
    ensures { result ≡ min (len - most) 65535 }
{
    len.saturating_sub(most).min(u16::MAX as usize) as u16
}
