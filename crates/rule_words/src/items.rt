//! The items of a pattern.
ghost use Rattle.std.specs.Prelude.{◌≡◌, map, option_map};
ghost use Rattle.rule_words.specs.Items as spec;
ghost use Rattle.rule_words.specs.Vocabulary.{meaning_of};

use crate::field_words::named_by;
use crate::relations::{related, relation_of};
use crate::turns::{TurnReader, behind, read_up_to};
use crate::vocabulary::meaning;
use arrayvec::ArrayVec;
use packet_headers::ItemKind;
use pattern_items::{Item, Pattern};

static KINDS: [(&str, ItemKind); 8] = [
    ("void", ItemKind::Void),
    ("eth", ItemKind::Eth),
    ("vlan", ItemKind::Vlan),
    ("ipv4", ItemKind::Ipv4),
    ("ipv6", ItemKind::Ipv6),
    ("tcp", ItemKind::Tcp),
    ("udp", ItemKind::Udp),
    ("vxlan", ItemKind::Vxlan),
];

/// The kind of item that a word is.
fn kind_of(word: &[u8]) -> Option<ItemKind>
    ensures { result ≡ meaning_of spec.kinds word.now }
{
    meaning(&KINDS, word)
}

/// The item of a kind of which nothing is said.
fn item_of(kind: ItemKind) -> Item
    ensures { result ≡ spec.item_of kind }
{
    Item {
        kind,
        given: None,
        last: None,
        mask: None,
    }
}

/// The item with what a field says with a relation and a value.
fn with_field(item: Item, word: &[u8], relation: &[u8], value: &[u8]) -> Option<Item>
    ensures { result ≡ spec.with_field item word.now relation.now value.now }
{
    let named = named_by(item.kind, word)?;
    let how = relation_of(relation)?;
    related(item, named, how, value)
}

impl TurnReader for Item {
    ghost turn = { spec.field };

    /// A field, a relation and a value.
    fn take_turn(&mut self, words: &[&[u8]]) -> Option<usize> {
        let [word, relation, value, ..] = words else {
            return None;
        };
        let Some(after) = with_field(*self, word, relation, value) else {
            return None;
        };
        *self = after;
        Some(3)
    }
}

impl TurnReader for Pattern {
    ghost turn = { spec.item_behind };

    /// An item and its `/`.
    fn take_turn(&mut self, words: &[&[u8]]) -> Option<usize> {
        let Some((word, rest)) = words.split_first() else {
            return None;
        };
        let Some(kind) = kind_of(word) else {
            return None;
        };
        let mut item = item_of(kind);
        let Some(taken) = read_up_to(b"/", &mut item, rest) else {
            return None;
        };
        add_item(self, item);
        Some(1 + taken)
    }
}

/// Reads items up to `end`, and gives the words behind it.
pub fn read_items<'w, 'a>(words: &'w [&'a [u8]]) -> Option<(Pattern, &'w [&'a [u8]])>
    ensures { option_map (λ read. (read.0, map (λ word. word.now) read.1.now)) result
        ≡ spec.items_of (map (λ word. word.now) words.entry.now) }
{
    let mut pattern = Pattern {
        items: ArrayVec::new(),
        more: 0,
    };
    let Some(taken) = read_up_to(b"end", &mut pattern, words) else {
        return None;
    };
    Some((pattern, behind(taken, words)))
}

/// Puts an item behind the others, or counts it where there are 16 already.
fn add_item(pattern: &mut Pattern, item: Item)
    ensures { pattern.new ≡ spec.with_item pattern.old item }
{
    if pattern.items.is_full() {
        pattern.more = pattern.more.saturating_add(1);
        return;
    }
    pattern.items.push(item);
}
