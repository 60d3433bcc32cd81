//! Words and their meanings.
ghost use Rattle.std.specs.Prelude.{◌≡◌, map};
ghost use Rattle.rule_words.specs.Vocabulary.{meaning_of};

/// The meaning of a word in a table of words and meanings: that of its first row with this word.
pub fn meaning<T: Copy>(table: &[(&'static str, T)], word: &[u8]) -> Option<T>
    ensures { result ≡ meaning_of (map (λ row. (row.0.now, row.1)) table.now) word.now }
{
    for (name, meaning) in table {
        if name.as_bytes() == word {
            return Some(*meaning);
        }
    }
    None
}
