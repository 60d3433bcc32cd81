//! What a relation says of a field.
ghost use Rattle.std.specs.Prelude.{◌≡◌, ◌-◌, ◌≤◌, ◌^◌};
ghost use Rattle.rule_words.specs.FieldWords.{IsInItem, IsPlace};
ghost use Rattle.rule_words.specs.Relations as spec;
ghost use Rattle.rule_words.specs.Vocabulary.{meaning_of};

use crate::field_words::{Named, Spot};
use crate::number::{number_of_bits, ones};
use crate::value::read_value;
use crate::vocabulary::meaning;
use pattern_items::{Fields, Item};

/// How a value bears on a field.
#[derive(Clone, Copy)]
pub(crate) enum Relation {
    Is,
    Spec,
    Last,
    Mask,
    Prefix,
}

static RELATIONS: [(&str, Relation); 5] = [
    ("is", Relation::Is),
    ("spec", Relation::Spec),
    ("last", Relation::Last),
    ("mask", Relation::Mask),
    ("prefix", Relation::Prefix),
];

/// The relation that a word is.
pub(crate) fn relation_of(word: &[u8]) -> Option<Relation>
    ensures { result ≡ meaning_of spec.relations word.now }
{
    meaning(&RELATIONS, word)
}

/// The item with what a relation to the value of this word says of what is named.
pub(crate) fn related(item: Item, named: Named, relation: Relation, word: &[u8]) -> Option<Item>
    requires { IsInItem named }
    ensures { result ≡ spec.related item named relation word.now }
{
    match relation {
        Relation::Is => {
            let value = read_value(named.form, word)?;
            let given = with_number(item.given, named.spot, value);
            let mask = with_number(item.mask, named.spot, ones(named.bits));
            Some(Item {
                given: Some(given),
                mask: Some(mask),
                ..item
            })
        }
        Relation::Spec => {
            let value = read_value(named.form, word)?;
            let given = with_number(item.given, named.spot, value);
            Some(Item {
                given: Some(given),
                ..item
            })
        }
        Relation::Last => {
            let value = read_value(named.form, word)?;
            let last = with_number(item.last, named.spot, value);
            Some(Item {
                last: Some(last),
                ..item
            })
        }
        Relation::Mask => {
            let value = read_value(named.form, word)?;
            let mask = with_number(item.mask, named.spot, value);
            Some(Item {
                mask: Some(mask),
                ..item
            })
        }
        Relation::Prefix => {
            let mask = read_prefix(named.bits, word)?;
            let mask = with_number(item.mask, named.spot, mask);
            Some(Item {
                mask: Some(mask),
                ..item
            })
        }
    }
}

/// The mask of a prefix of so many bits as the word says, in a field of `bits` bits.
fn read_prefix(bits: u8, word: &[u8]) -> Option<u128>
    requires { bits ≤ 128 }
    ensures { result ≡ spec.prefix_of bits word.now }
{
    let len = number_of_bits(8, word)? as u8;
    if len > bits {
        return None;
    }
    Some(ones(bits) - ones(bits - len))
}

/// The numbers with one of them replaced. Where there are none yet, the others are 0.
fn with_number(fields: Option<Fields>, spot: Spot, number: u128) -> Fields
    requires { IsPlace spot }
    ensures { result ≡ spec.with_number fields spot number }
{
    let mut v = match fields {
        Some(fields) => fields.v,
        None => [0; 6],
    };
    match spot {
        Spot::Field(place) => v[place] = number,
        Spot::Tci => {
            v[0] = number >> 13;
            v[1] = (number >> 12) % 2;
            v[2] = number % 4096;
        }
    }
    Fields { v }
}
