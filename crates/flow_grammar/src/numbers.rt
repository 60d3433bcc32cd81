//! Numbers and ids in front of words.
ghost use Rattle.std.specs.Prelude.{◌≡◌, map, option_map};
ghost use Rattle.flow_grammar.specs.Words.{given_id, number_behind};
ghost use Rattle.rule_words.specs.Number.{first_number};

use crate::words::behind;
use rule_words::first_number;

/// The first word as a number of 32 bits, and the words behind it.
pub(crate) fn number_32<'w, 'a>(words: &'w [&'a [u8]]) -> Option<(u32, &'w [&'a [u8]])>
    ensures { option_map (λ read. (read.0, map (λ word. word.now) read.1.now)) result
        ≡ first_number 32 (map (λ word. word.now) words.entry.now) }
{
    let (number, rest) = first_number(32, words)?;
    Some((number as u32, rest))
}

/// The first word as a number of 16 bits, and the words behind it.
pub(crate) fn number_16<'w, 'a>(words: &'w [&'a [u8]]) -> Option<(u16, &'w [&'a [u8]])>
    ensures { option_map (λ read. (read.0, map (λ word. word.now) read.1.now)) result
        ≡ first_number 16 (map (λ word. word.now) words.entry.now) }
{
    let (number, rest) = first_number(16, words)?;
    Some((number as u16, rest))
}

/// A number of 32 bits behind this word, and the words behind it.
pub(crate) fn number_behind<'w, 'a>(
    name: &[u8],
    words: &'w [&'a [u8]],
) -> Option<(u32, &'w [&'a [u8]])>
    ensures { option_map (λ read. (read.0, map (λ word. word.now) read.1.now)) result
        ≡ number_behind name.now 32 (map (λ word. word.now) words.entry.now) }
{
    let rest = behind(name, words)?;
    number_32(rest)
}

/// A number of 16 bits behind this word, and the words behind it.
pub(crate) fn id_behind<'w, 'a>(name: &[u8], words: &'w [&'a [u8]]) -> Option<(u16, &'w [&'a [u8]])>
    ensures { option_map (λ read. (read.0, map (λ word. word.now) read.1.now)) result
        ≡ number_behind name.now 16 (map (λ word. word.now) words.entry.now) }
{
    let rest = behind(name, words)?;
    number_16(rest)
}

/// An id, where words begin with its name, and the words behind it.
pub(crate) fn given_id<'w, 'a>(
    name: &[u8],
    words: &'w [&'a [u8]],
) -> Option<(Option<u16>, &'w [&'a [u8]])>
    ensures { option_map (λ read. (read.0, map (λ word. word.now) read.1.now)) result
        ≡ given_id name.now (map (λ word. word.now) words.entry.now) }
{
    let Some((word, rest)) = words.split_first() else {
        return Some((None, words));
    };
    if *word != name {
        return Some((None, words));
    }
    let (id, rest) = number_16(rest)?;
    Some((Some(id), rest))
}
