//! Verdicts on frames.
ghost use Rattle.std.specs.Prelude.{◌≡◌};
ghost use Rattle.io_edges.specs.Gather.{gather_of};
ghost use Rattle.io_edges.specs.Prints.{Prints};
ghost use Rattle.history_text.specs.Verdicts.{last_digit, hexadecimal, fate_text, mark_text, hash_text, marks_text, path_text, verdict_text};

use crate::number::print_short;
use flow_actions::{Fate, Verdict};
use io_edges::{Page, Sink, print, print_number, print_numbers};

/// The last hexadecimal digit of a number, in lower case.
#[inline(always)]
fn last_digit(number: u32) -> u8
    ensures { result ≡ last_digit number }
{
    let digit = (number % 16) as u8;
    if digit < 10 {
        return b'0' + digit;
    }
    b'a' - 10 + digit
}

/// The eight hexadecimal digits of a number.
#[inline]
fn hexadecimal(number: u32) -> [u8; 8]
    ensures { result ≡ hexadecimal number }
{
    [
        last_digit(number / 0x1000_0000),
        last_digit(number / 0x100_0000),
        last_digit(number / 0x10_0000),
        last_digit(number / 0x1_0000),
        last_digit(number / 0x1000),
        last_digit(number / 0x100),
        last_digit(number / 0x10),
        last_digit(number),
    ]
}

#[inline]
fn print_fate<K: Sink>(sink: &mut K, page: &mut Page, fate: Fate)
    ensures { Prints (gather_of K.taken K.faults sink.old page.old)
        (gather_of K.taken K.faults sink.new page.new) (fate_text fate) }
{
    match fate {
        Fate::Queue(queue) => {
            print(sink, page, b"queue ");
            print_short(sink, page, queue as u32);
        }
        Fate::Drop => print(sink, page, b"drop"),
    }
}

#[inline]
fn print_mark<K: Sink>(sink: &mut K, page: &mut Page, mark: Option<u32>)
    ensures { Prints (gather_of K.taken K.faults sink.old page.old)
        (gather_of K.taken K.faults sink.new page.new) (mark_text mark) }
{
    match mark {
        None => print(sink, page, b"-"),
        Some(mark) => print_number(sink, page, mark),
    }
}

#[inline]
fn print_hash<K: Sink>(sink: &mut K, page: &mut Page, hash: Option<u32>)
    ensures { Prints (gather_of K.taken K.faults sink.old page.old)
        (gather_of K.taken K.faults sink.new page.new) (hash_text hash) }
{
    match hash {
        None => print(sink, page, b"-"),
        Some(hash) => print(sink, page, &hexadecimal(hash)),
    }
}

/// Prints what stands between the fate and the way: in one piece where there is neither mark nor hash.
#[inline]
fn print_marks<K: Sink>(sink: &mut K, page: &mut Page, mark: Option<u32>, hash: Option<u32>)
    ensures { Prints (gather_of K.taken K.faults sink.old page.old)
        (gather_of K.taken K.faults sink.new page.new) (marks_text mark hash) }
{
    let (None, None) = (mark, hash) else {
        print_known_marks(sink, page, mark, hash);
        return;
    };
    print(sink, page, b" mark - hash - path ");
}

fn print_known_marks<K: Sink>(sink: &mut K, page: &mut Page, mark: Option<u32>, hash: Option<u32>)
    ensures { Prints (gather_of K.taken K.faults sink.old page.old)
        (gather_of K.taken K.faults sink.new page.new) (marks_text mark hash) }
{
    print(sink, page, b" mark ");
    print_mark(sink, page, mark);
    print(sink, page, b" hash ");
    print_hash(sink, page, hash);
    print(sink, page, b" path ");
}

#[inline]
fn print_path<K: Sink>(sink: &mut K, page: &mut Page, path: &[u32])
    ensures { Prints (gather_of K.taken K.faults sink.old page.old)
        (gather_of K.taken K.faults sink.new page.new) (path_text path.now) }
{
    if path.is_empty() {
        print(sink, page, b"-");
        return;
    }
    if path.len() == 1 {
        print_short(sink, page, path[0]);
        return;
    }
    print_numbers(sink, page, path);
}

pub(crate) fn print_verdict<K: Sink>(sink: &mut K, page: &mut Page, verdict: &Verdict)
    ensures { Prints (gather_of K.taken K.faults sink.old page.old)
        (gather_of K.taken K.faults sink.new page.new) (verdict_text verdict.now) }
{
    print_fate(sink, page, verdict.fate);
    print_marks(sink, page, verdict.mark, verdict.hash);
    print_path(sink, page, &verdict.path);
}
