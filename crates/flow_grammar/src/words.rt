//! The words of a line.
ghost use Rattle.std.specs.Prelude.{◌≡◌, IfOk, map};
ghost use Rattle.std.specs.Option.{option_map};
ghost use Rattle.std.specs.List.{list_all};
ghost use Rattle.flow_grammar.specs.Words as spec;

use rule_words::meaning;
use std::alloc::{AllocError, Global};

/// The words between spaces and tabs, up to the first that begins with `#`.
pub(crate) fn words_of(alloc: Global, line: &[u8]) -> Result<Vec<&[u8]>, AllocError>
    ensures { IfOk result (λ words. map (λ word. word.now) words.items ≡ spec.words_of line.now) }
{
    line.split(|byte| is_blank(*byte))
        .filter(|word| !word.is_empty())
        .take_while(|word| !begins_comment(word))
        .collect(alloc)
}

fn is_blank(byte: u8) -> bool
    ensures { result ≡ spec.is_blank byte }
{
    byte == b' ' || byte == b'\t'
}

fn begins_comment(word: &[u8]) -> bool
    ensures { result ≡ spec.begins_comment word.now }
{
    match word.first() {
        Some(byte) => *byte == b'#',
        None => false,
    }
}

/// Whether all words are of printable ASCII.
pub(crate) fn are_printable(words: &[&[u8]]) -> bool
    ensures { result ≡ spec.are_printable (map (λ word. word.now) words.now) }
{
    words.iter().all(|word| is_printable(word))
}

fn is_printable(word: &[u8]) -> bool
    ensures { result ≡ list_all spec.is_printable word.now }
{
    word.iter().all(|byte| 33 <= *byte && *byte <= 126)
}

/// The words behind this one, where a list begins with it.
pub(crate) fn behind<'w, 'a>(leading: &[u8], words: &'w [&'a [u8]]) -> Option<&'w [&'a [u8]]>
    ensures { option_map (λ rest. map (λ word. word.now) rest.now) result
        ≡ spec.behind leading.now (map (λ word. word.now) words.entry.now) }
{
    let (word, rest) = words.split_first()?;
    if *word != leading {
        return None;
    }
    Some(rest)
}

/// What the first word means in a table, and the words behind it.
pub(crate) fn first_meaning<'w, 'a, T: Copy>(
    table: &[(&'static str, T)],
    words: &'w [&'a [u8]],
) -> Option<(T, &'w [&'a [u8]])>
    ensures { option_map (λ read. (read.0, map (λ word. word.now) read.1.now)) result
        ≡ spec.first_meaning (map (λ row. (row.0.now, row.1)) table.now) (map (λ word. word.now) words.entry.now) }
{
    let (word, rest) = words.split_first()?;
    let meaning = meaning(table, word)?;
    Some((meaning, rest))
}

/// What was read, where no word is left behind it.
pub(crate) fn last<T: Drop>(read: Option<(T, &[&[u8]])>) -> Option<T>
    ensures { result ≡ spec.last_of (option_map (λ read. (read.0, map (λ word. word.now) read.1.now)) read.entry) }
{
    let (value, rest) = read?;
    if_last(rest, value)
}

/// A value, where no word is left.
pub(crate) fn if_last<T: Drop>(words: &[&[u8]], value: T) -> Option<T>
    ensures { result ≡ spec.at_end (map (λ word. word.now) words.now) value }
{
    if !words.is_empty() {
        return None;
    }
    Some(value)
}
