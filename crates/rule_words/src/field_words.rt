//! What the words behind an item's kind name.
ghost use Rattle.std.specs.Prelude.{◌≡◌, IfSome};
ghost use Rattle.rule_words.specs.FieldWords as spec;
ghost use Rattle.rule_words.specs.FieldWords.{IsInItem};

use crate::address::Address;
use crate::value::Form;
use packet_headers::{ItemKind, fields_of};

/// Which of an item's numbers a word names.
#[derive(Clone, Copy)]
pub(crate) enum Spot {
    /// The field at this place of the field table.
    Field(usize),
    /// The three fields of a tag's control information at once: pcp (3 bits), dei (1 bit) and vid (12 bits).
    Tci,
}

/// What a field word names: where its number stands in the item, its width, and how it is written.
#[derive(Clone, Copy)]
pub(crate) struct Named {
    pub(crate) spot: Spot,
    pub(crate) bits: u8,
    pub(crate) form: Form,
}

/// What a field word of a kind names.
pub(crate) fn named_by(kind: ItemKind, word: &[u8]) -> Option<Named>
    ensures value { result ≡ spec.named_by kind word.now }
    ensures in_item { IfSome result IsInItem }
{
    if is_tci(kind, word) {
        return Some(Named {
            spot: Spot::Tci,
            bits: 16,
            form: Form::Number(16),
        });
    }
    let fields = fields_of(kind);
    for (place, field) in fields.iter().enumerate() {
        if field.word.as_bytes() == word {
            return Some(Named {
                spot: Spot::Field(place),
                bits: field.bits,
                form: form_of(field.bits),
            });
        }
    }
    None
}

fn is_tci(kind: ItemKind, word: &[u8]) -> bool
    ensures { result ≡ spec.is_tci kind word.now }
{
    match kind {
        ItemKind::Vlan => word == b"tci".as_slice(),
        _ => false,
    }
}

/// How the value of a field of so many bits is written.
fn form_of(bits: u8) -> Form
    ensures { result ≡ spec.form_of bits }
{
    match bits {
        48 => Form::Address(Address::Mac),
        32 => Form::Address(Address::Ip4),
        128 => Form::Address(Address::Ip6),
        _ => Form::Number(bits),
    }
}
