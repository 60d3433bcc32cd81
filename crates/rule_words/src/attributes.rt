//! The attributes of a rule.
ghost use Rattle.std.specs.Prelude.{◌≡◌, ◌≤◌, IfSome, List, length, drop, map, option_map};
ghost use Rattle.rule_words.specs.Attributes as spec;
ghost use Rattle.rule_words.specs.Vocabulary.{meaning_of};

use crate::number::number_in_front;
use crate::turns::{TurnReader, behind, read_up_to};
use crate::vocabulary::meaning;
use flow_rules::Attr;

/// What a word of the attributes says.
#[derive(Clone, Copy)]
enum AttrWord {
    Group,
    Priority,
    Ingress,
    Egress,
    Transfer,
}

/// The words of directions.
static DIRECTIONS: [(&str, AttrWord); 3] = [
    ("ingress", AttrWord::Ingress),
    ("egress", AttrWord::Egress),
    ("transfer", AttrWord::Transfer),
];

/// What a word of directions says.
fn direction(word: &[u8]) -> Option<AttrWord>
    ensures { result ≡ meaning_of spec.directions word.now }
{
    meaning(&DIRECTIONS, word)
}

/// What a word of the attributes says.
fn word_meaning(word: &[u8]) -> Option<AttrWord>
    ensures { result ≡ meaning_of spec.words word.now }
{
    if "group".as_bytes() == word {
        return Some(AttrWord::Group);
    }
    if "priority".as_bytes() == word {
        return Some(AttrWord::Priority);
    }
    direction(word)
}

/// Takes in what a word says, with the number behind it where it has one, and tells how many words that is.
fn take_said(attr: &mut Attr, said: AttrWord, rest: &[&[u8]]) -> Option<usize>
    ensures value { option_map (λ taken. (attr.new, drop taken (map (λ word. word.now) rest.now))) result
        ≡ spec.said_by said attr.old (map (λ word. word.now) rest.now) }
    ensures few { IfSome result (λ taken. taken ≤ length rest.now) }
{
    match said {
        AttrWord::Group => {
            let group = number_in_front(32, rest)?;
            attr.group = group as u32;
            Some(1)
        }
        AttrWord::Priority => {
            let priority = number_in_front(32, rest)?;
            attr.priority = priority as u32;
            Some(1)
        }
        AttrWord::Ingress => {
            attr.ingress = true;
            Some(0)
        }
        AttrWord::Egress => {
            attr.egress = true;
            Some(0)
        }
        AttrWord::Transfer => {
            attr.transfer = true;
            Some(0)
        }
    }
}

impl TurnReader for Attr {
    ghost turn = { spec.attribute spec.words };

    /// A direction, or the word of a number with the number.
    fn take_turn(&mut self, words: &[&[u8]]) -> Option<usize> {
        let Some((word, rest)) = words.split_first() else {
            return None;
        };
        let Some(said) = word_meaning(word) else {
            return None;
        };
        let Some(taken) = take_said(self, said, rest) else {
            return None;
        };
        Some(1 + taken)
    }
}

/// Attributes of which directions alone are read.
#[derive(Drop)]
struct Directions {
    attr: Attr,
}

impl TurnReader for Directions {
    ghost use Rattle.rule_words.specs.Attributes as spec;

    ghost turn = { λ so_far words. option_map (λ read. (record so_far { attr = read.0 }, read.1)) (spec.attribute spec.directions so_far.attr words) };

    /// A direction.
    fn take_turn(&mut self, words: &[&[u8]]) -> Option<usize> {
        let Some((word, rest)) = words.split_first() else {
            return None;
        };
        let Some(said) = direction(word) else {
            return None;
        };
        let Some(taken) = take_said(&mut self.attr, said, rest) else {
            return None;
        };
        Some(1 + taken)
    }
}

/// Reads attributes up to the word that ends them, and gives the words behind it.
pub fn read_attributes<'w, 'a>(
    ending: &[u8],
    words: &'w [&'a [u8]],
) -> Option<(Attr, &'w [&'a [u8]])>
    ensures { option_map (λ read. (read.0, map (λ word. word.now) read.1.now)) result
        ≡ spec.attributes_of ending.now (map (λ word. word.now) words.entry.now) }
{
    let mut attr = no_attributes();
    let Some(taken) = read_up_to(ending, &mut attr, words) else {
        return None;
    };
    Some((attr, behind(taken, words)))
}

/// Attributes of which nothing is said.
fn no_attributes() -> Attr
    ensures { result ≡ spec.no_attributes }
{
    Attr {
        group: 0,
        priority: 0,
        ingress: false,
        egress: false,
        transfer: false,
    }
}

/// Reads directions up to the word that ends them, as attributes of which nothing else is said, and gives the words behind
/// it.
pub fn read_directions<'w, 'a>(
    ending: &[u8],
    words: &'w [&'a [u8]],
) -> Option<(Attr, &'w [&'a [u8]])>
    ensures { option_map (λ read. (read.0, map (λ word. word.now) read.1.now)) result
        ≡ spec.directions_of ending.now (map (λ word. word.now) words.entry.now) }
{
    let mut directions = Directions {
        attr: no_attributes(),
    };
    let Some(taken) = read_up_to(ending, &mut directions, words) else {
        return None;
    };
    Some((directions.attr, behind(taken, words)))
}
