//! Lists of ids.
ghost use Rattle.std.specs.Prelude.{◌≡◌, ◌≤◌, ◌^◌, IfSome, drop, length, map, option_map};
ghost use Rattle.rule_words.specs.Ids.{ids_in_front, ids_of, with_front, IsId, AreBelow};

use crate::number::number_of_bits;
use crate::turns::behind;
use arrayvec::ArrayVec;

/// The most ids of a list: more of them make a line bad.
pub const MAX_IDS: usize = 64;

/// Ids in order.
pub type IdList = ArrayVec<u32, MAX_IDS>;

/// What stands in front of some words.
#[derive(Clone, Copy)]
enum Front {
    /// The word and an id.
    Id(u32),
    /// Anything but the word.
    Other,
    /// The word, and no id behind it.
    Bad,
}

/// What stands in front of these words.
fn front_of(name: &[u8], bits: u8, words: &[&[u8]]) -> Front
    requires { bits ≤ 32 }
    ensures value { ids_in_front name.now bits (map (λ word. word.now) words.now)
        ≡ with_front result (map (λ word. word.now) words.now) (ids_in_front name.now bits (drop 2 (map (λ word. word.now) words.now))) }
    ensures two { IsId result → 2 ≤ length words.now }
{
    match words {
        [] => Front::Other,
        [word] => {
            if *word == name {
                return Front::Bad;
            }
            Front::Other
        }
        [word, value, ..] => {
            if *word != name {
                return Front::Other;
            }
            let Some(id) = number_of_bits(bits, value) else {
                return Front::Bad;
            };
            Front::Id(id as u32)
        }
    }
}

/// Reads ids of so many bits, each behind this word, and gives the words behind them. There are 1 to `most` of them.
pub fn read_ids<'w, 'a>(
    name: &[u8],
    bits: u8,
    most: usize,
    words: &'w [&'a [u8]],
) -> Option<(IdList, &'w [&'a [u8]])>
    requires narrow { bits ≤ 32 }
    requires few { most ≤ 64 }
    ensures value { option_map (λ read. (read.0.items, map (λ word. word.now) read.1.now)) result
        ≡ ids_of name.now bits most (map (λ word. word.now) words.entry.now) }
    ensures small { IfSome result (λ read. AreBelow (2 ^ bits) read.0.items) }
{
    let mut ids: IdList = ArrayVec::new();
    let mut at = 0;
    for _ in words {
        match front_of(name, bits, &words[at..]) {
            Front::Id(id) => {
                if ids.len() >= most {
                    return None;
                }
                ids.push(id);
                at += 2;
            }
            Front::Other => {
                if ids.len() == 0 {
                    return None;
                }
                return Some((ids, behind(at, words)));
            }
            Front::Bad => return None,
        }
    }
    None
}
