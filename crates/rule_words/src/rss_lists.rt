//! The lists of RSS: its queues, and the types of frame that it hashes.
ghost use Rattle.std.specs.Prelude.{◌≡◌, ◌≤◌, ℕ, IfSome, length, drop, map, option_map};
ghost use Rattle.arrayvec.specs.ArrayVec.{ArrayVec};
ghost use Rattle.rule_words.specs.RssLists as spec;
ghost use Rattle.rule_words.specs.Vocabulary.{meaning_of};

use crate::number::number_of_bits;
use crate::turns::{TurnReader, read_up_to};
use crate::vocabulary::meaning;
use arrayvec::ArrayVec;
use flow_actions::{MAX_RSS_QUEUES, Rss};

/// The lists that stand inside `rss`.
#[derive(Clone, Copy)]
pub(crate) enum RssList {
    Queues,
    Types,
}

static LISTS: [(&str, RssList); 2] = [("queues", RssList::Queues), ("types", RssList::Types)];

/// The types of frame, each with its bit.
static TYPES: [(&str, u8); 6] = [
    ("ipv4", 1),
    ("ipv4-tcp", 2),
    ("ipv4-udp", 4),
    ("ipv6", 8),
    ("ipv6-tcp", 16),
    ("ipv6-udp", 32),
];

/// The list that a word begins.
fn list_begun_by(word: &[u8]) -> Option<RssList>
    ensures { result ≡ meaning_of spec.list_words word.now }
{
    meaning(&LISTS, word)
}

/// The bit of the type that a word is.
fn type_bit(word: &[u8]) -> Option<u8>
    ensures { result ≡ meaning_of spec.type_bits word.now }
{
    meaning(&TYPES, word)
}

/// RSS without a list, of these types.
pub(crate) fn unlisted(types: u8) -> Rss
    ensures { result ≡ spec.unlisted types }
{
    Rss {
        queues: ArrayVec::new(),
        types,
    }
}

/// The queues of a list so far.
type Queues = ArrayVec<u16, MAX_RSS_QUEUES>;

/// The types of a list so far, each as its bit.
#[derive(Clone, Copy)]
struct Types {
    bits: u8,
}

impl TurnReader for Queues {
    ghost turn = { spec.listed spec.with_queue };

    /// A queue, where there is room for it.
    fn take_turn(&mut self, words: &[&[u8]]) -> Option<usize> {
        let Some(word) = words.first() else {
            return None;
        };
        if self.is_full() {
            return None;
        }
        let Some(queue) = number_of_bits(16, word) else {
            return None;
        };
        self.push(queue as u16);
        Some(1)
    }
}

impl TurnReader for Types {
    ghost turn = { spec.listed spec.with_type };

    /// A type.
    fn take_turn(&mut self, words: &[&[u8]]) -> Option<usize> {
        let Some(word) = words.first() else {
            return None;
        };
        let Some(bit) = type_bit(word) else {
            return None;
        };
        self.bits |= bit;
        Some(1)
    }
}

/// Takes in a list of queues up to its `end`. An empty one says nothing.
fn read_queues(rss: &mut Rss, words: &[&[u8]]) -> Option<usize>
    ensures value { option_map (λ taken. (rss.new, drop taken (map (λ word. word.now) words.now))) result
        ≡ spec.list_behind rss.old RssList.Queues (map (λ word. word.now) words.now) }
    ensures few { IfSome result (λ taken. taken ≤ length words.now) }
{
    let mut queues = ArrayVec::new();
    let taken = read_up_to(b"end", &mut queues, words)?;
    if !queues.is_empty() {
        rss.queues = queues;
    }
    Some(taken)
}

/// Takes in a list of types up to its `end`.
fn read_types(rss: &mut Rss, words: &[&[u8]]) -> Option<usize>
    ensures value { option_map (λ taken. (rss.new, drop taken (map (λ word. word.now) words.now))) result
        ≡ spec.list_behind rss.old RssList.Types (map (λ word. word.now) words.now) }
    ensures few { IfSome result (λ taken. taken ≤ length words.now) }
{
    let mut types = Types { bits: 0 };
    let taken = read_up_to(b"end", &mut types, words)?;
    rss.types = types.bits;
    Some(taken)
}

impl TurnReader for Rss {
    ghost turn = { spec.rss_setting };

    /// A word, and the list behind it up to its `end`.
    fn take_turn(&mut self, words: &[&[u8]]) -> Option<usize> {
        let Some((name, rest)) = words.split_first() else {
            return None;
        };
        let Some(list) = list_begun_by(name) else {
            return None;
        };
        let read = match list {
            RssList::Queues => read_queues(self, rest),
            RssList::Types => read_types(self, rest),
        };
        let Some(taken) = read else {
            return None;
        };
        Some(1 + taken)
    }
}
