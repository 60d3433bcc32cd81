//! Words in turns, up to one that ends them.
ghost use Rattle.std.specs.Prelude.{◌≡◌, ◌≤◌, ℕ, List, Option, IfSome, length, drop, map, option_map};
ghost use Rattle.rule_words.specs.Turns.{up_to};

/// A value of which words say something, turn by turn.
pub(crate) trait TurnReader {
    ghost turn: { Self → List (List ℕ) → Option (Self × List (List ℕ)) };

    /// Takes in what the first words say, and tells how many they are.
    fn take_turn(&mut self, words: &[&[u8]]) -> Option<usize>
        ensures value { option_map (λ taken. (self.new, drop taken (map (λ word. word.now) words.now))) result
            ≡ turn self.old (map (λ word. word.now) words.now) }
        ensures few { IfSome result (λ taken. taken ≤ length words.now) };
}

/// Takes in what words say of a value up to the ending word, and tells how many they are with this one.
pub(crate) fn read_up_to<T: TurnReader>(
    ending: &[u8],
    value: &mut T,
    words: &[&[u8]],
) -> Option<usize>
    ensures value { option_map (λ taken. (value.new, drop taken (map (λ word. word.now) words.now))) result
        ≡ up_to ending.now T.turn value.old (map (λ word. word.now) words.now) }
    ensures few { IfSome result (λ taken. taken ≤ length words.now) }
{
    let mut at = 0;
    for _ in words {
        let Some(word) = words.get(at) else {
            return None;
        };
        if *word == ending {
            return Some(at + 1);
        }
        let Some(taken) = value.take_turn(&words[at..]) else {
            return None;
        };
        at += taken;
    }
    None
}

/// The words behind so many.
pub(crate) fn behind<'w, 'a>(taken: usize, words: &'w [&'a [u8]]) -> &'w [&'a [u8]]
    requires { taken ≤ length words.now }
    ensures { map (λ word. word.now) result.now ≡ drop taken (map (λ word. word.now) words.entry.now) }
{
    &words[taken..]
}
