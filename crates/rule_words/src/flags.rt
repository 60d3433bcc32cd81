//! Words that switch something on or off.
ghost use Rattle.std.specs.Prelude.{◌≡◌, map, option_map};
ghost use Rattle.rule_words.specs.Flags as spec;
ghost use Rattle.rule_words.specs.Vocabulary.{meaning_of};

use crate::vocabulary::meaning;

static FLAGS: [(&str, bool); 10] = [
    ("1", true),
    ("yes", true),
    ("on", true),
    ("true", true),
    ("Y", true),
    ("0", false),
    ("no", false),
    ("off", false),
    ("false", false),
    ("N", false),
];

/// What a word switches.
fn flag(word: &[u8]) -> Option<bool>
    ensures { result ≡ meaning_of spec.flags word.now }
{
    meaning(&FLAGS, word)
}

/// What the first word switches, and the words behind it.
pub fn flag_and_rest<'w, 'a>(words: &'w [&'a [u8]]) -> Option<(bool, &'w [&'a [u8]])>
    ensures { option_map (λ read. (read.0, map (λ word. word.now) read.1.now)) result
        ≡ spec.flag_and_rest (map (λ word. word.now) words.entry.now) }
{
    let (word, rest) = words.split_first()?;
    let on = flag(word)?;
    Some((on, rest))
}
