//! The results that a flow queue gave.
ghost use Rattle.std.specs.Prelude.{◌≡◌, cond, count_by};
ghost use Rattle.io_edges.specs.Gather.{gather_of};
ghost use Rattle.io_edges.specs.Prints.{Prints};
ghost use Rattle.history_text.specs.Kinds.{pulled};
ghost use Rattle.history_text.specs.Pulled.{is_outcome, letter_of, letters_text};

use crate::kind::{Kind, Spelled};
use arrayvec::ArrayVec;
use io_edges::{Page, Sink, print};
use op_queues::Outcomes;

/// 1 where an operation ended so, and else 0.
fn one(outcome: bool, ok: bool) -> usize
    ensures { result ≡ cond (is_outcome ok outcome) 1 0 }
{
    if outcome == ok { 1 } else { 0 }
}

/// How many operations ended so.
fn count(outcomes: &Outcomes, ok: bool) -> usize
    ensures { result ≡ count_by (is_outcome ok) outcomes.now }
{
    let mut count = 0;
    for place in 0..outcomes.len() {
        count += one(outcomes.get(place), ok);
    }
    count
}

/// The text in front of the letters, with its counts.
pub(crate) fn pulled(queue: u16, outcomes: &Outcomes) -> Spelled
    ensures { record { kind = result.kind; numbers = result.numbers.items } ≡ pulled queue outcomes.now }
{
    let mut numbers = ArrayVec::new();
    numbers.push(queue as u128);
    numbers.push(outcomes.len() as u128);
    numbers.push(count(outcomes, false) as u128);
    numbers.push(count(outcomes, true) as u128);
    Spelled {
        kind: Kind::Pulled,
        numbers,
    }
}

fn letter(ok: bool) -> &'static [u8]
    ensures { result.now ≡ letter_of ok }
{
    if ok { b"S" } else { b"F" }
}

/// Prints a letter for each result, and what ends them.
pub(crate) fn print_letters<K: Sink>(sink: &mut K, page: &mut Page, outcomes: &Outcomes)
    ensures { Prints (gather_of K.taken K.faults sink.old page.old)
        (gather_of K.taken K.faults sink.new page.new) (letters_text outcomes.now) }
{
    for place in 0..outcomes.len() {
        print(sink, page, letter(outcomes.get(place)));
    }
    print(sink, page, b"]");
}
