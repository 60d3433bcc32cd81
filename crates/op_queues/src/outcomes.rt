//! `Outcomes`.
ghost use Rattle.std.specs.Prelude.{◌≡◌, ◌≢◌, ℕ, ◌<◌, ◌≤◌, [], ◌∷◌, ◌++◌, length, slice_get, Some, ⊤};
ghost use Rattle.std.specs.Bool.{beq};
ghost use Rattle.std.specs.Cmp.{bool_eq_equiv, partial_equiv_from_equiv};
ghost use Rattle.std.specs.Cmp.Lexicographic.{pointwise, lists_equiv};
ghost use Rattle.op_queues.specs.Outcomes.{outcome_at};

use crate::MAX_SIZE;
use std::alloc::AllocError;
use std::marker::Model;

/// How many outcomes a word holds.
const WORD_BITS: usize = 64;

/// How many words hold the outcomes of a full queue.
const WORDS: usize = 16;

/// The results of operations in their order: for each, whether it succeeded. A list of at most
/// `MAX_SIZE` truth values, of a fixed size of 136 bytes.
#[derive(Debug, Drop)]
pub struct Outcomes {
    /// Bit `i % 64` of word `i / 64` is the value at `i`. The bits from `len` on mean nothing.
    words: [u64; WORDS],
    len: u16,
}

impl Model for Outcomes {
    ghost use Rattle.std.specs.Prelude.{◌≤◌, List, Bool};
    ghost use Rattle.op_queues.specs.Outcomes.{outcomes};

    ghost Value = { List Bool };

    ghost view = { λ o. outcomes o.words o.len };

    ghost invariant = { λ o. o.len ≤ 1024 };
}

impl Outcomes {
    pub(crate) fn new() -> Self
        ensures { result ≡ [] }
    {
        Outcomes {
            words: [0; WORDS],
            len: 0,
        }
    }

    /// Returns the number of outcomes.
    pub fn len(&self) -> usize
        ensures len { result ≡ length self.now }
        ensures within { result ≤ 1024 }
    {
        self.len as usize
    }

    /// Returns the outcome at `i`, counted from the oldest.
    pub fn get(&self, i: usize) -> bool
        requires { i < length self.now }
        ensures { slice_get self.now i ≡ Some result }
    {
        read_bit(&self.words, i)
    }

    /// Appends an outcome.
    pub(crate) fn push(&mut self, ok: bool)
        requires { length self.old < 1024 }
        ensures { self.new ≡ self.old ++ ok ∷ [] }
    {
        write_bit(&mut self.words, self.len as usize, ok);
        self.len += 1;
    }
}

impl Clone for Outcomes {
    ghost is_clone = { λ o p. p ≡ o };

    ghost is_infallible = { λ _. ⊤ };

    fn clone(&self) -> Result<Outcomes, AllocError> {
        Ok(Outcomes {
            words: self.words,
            len: self.len,
        })
    }
}

impl PartialEq for Outcomes {
    ghost eq = { pointwise beq };

    ghost laws = { partial_equiv_from_equiv (lists_equiv bool_eq_equiv) };

    fn eq(&self, other: &Outcomes) -> bool {
        if self.len() != other.len() {
            return false;
        }
        for i in 0..self.len() {
            if self.get(i) != other.get(i) {
                return false;
            }
        }
        true
    }
}

impl Eq for Outcomes {
    ghost laws = { lists_equiv bool_eq_equiv };
}

/// Reads bit `i` of the words.
fn read_bit(words: &[u64; WORDS], i: usize) -> bool
    requires { i < 1024 }
    ensures { result ≡ outcome_at words.now i }
{
    words[i / WORD_BITS] >> (i % WORD_BITS) & 1 == 1
}

/// Sets or clears bit `i` of the words.
fn write_bit(words: &mut [u64; WORDS], i: usize, ok: bool)
    requires { i < 1024 }
    ensures written { outcome_at words.new i ≡ ok }
    ensures others { (k : ℕ) → k ≢ i → outcome_at words.new k ≡ outcome_at words.old k }
{
    let bit = 1 << (i % WORD_BITS);
    if ok {
        words[i / WORD_BITS] |= bit;
    } else {
        words[i / WORD_BITS] &= !bit;
    }
}
