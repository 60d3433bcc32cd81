//! Printing a form: a text with each number in it written `0`, and the numbers.
ghost use Rattle.std.specs.Prelude.{◌≡◌, ◌<◌, ◌+◌, length, drop, get_or, take, map, IfSome, None};
ghost use Rattle.std.specs.List.{concat};
ghost use Rattle.io_edges.specs.Gather.{gather_of};
ghost use Rattle.io_edges.specs.Prints.{Prints};
ghost use Rattle.history_text.specs.Forms.{form, filled, holes};

use io_edges::{Page, Sink, print, print_number};

/// The place of the first hole.
fn first_hole(pattern: &[u8]) -> Option<usize>
    ensures hole { IfSome result (λ place. (place < length pattern.now) × (get_or pattern.now place 0 ≡ 48)
        × (holes (form (take place pattern.now)) ≡ 0)) }
    ensures none { result ≡ None → holes (form pattern.now) ≡ 0 }
{
    for place in 0..pattern.len() {
        if pattern[place] == b'0' {
            return Some(place);
        }
    }
    None
}

/// Prints a part of a form with the first of these numbers, and gives the numbers behind them.
fn print_part<'n, K: Sink>(
    sink: &mut K,
    page: &mut Page,
    part: &[u8],
    numbers: &'n [u128],
) -> &'n [u128]
    ensures prints { Prints (gather_of K.taken K.faults sink.old page.old)
        (gather_of K.taken K.faults sink.new page.new) (filled part.now numbers.entry.now) }
    ensures left { result.now ≡ drop (holes (form part.now)) numbers.entry.now }
{
    let Some((number, others)) = numbers.split_first() else {
        print(sink, page, part);
        return numbers;
    };
    let Some(place) = first_hole(part) else {
        print(sink, page, part);
        return numbers;
    };
    print(sink, page, &part[..place]);
    print_number(sink, page, *number);
    print_part(sink, page, &part[place + 1..], others)
}

/// Prints a form, given in parts, with its numbers.
pub(crate) fn print_form<K: Sink>(sink: &mut K, page: &mut Page, parts: &[&[u8]], numbers: &[u128])
    ensures { Prints (gather_of K.taken K.faults sink.old page.old)
        (gather_of K.taken K.faults sink.new page.new)
        (filled (concat (map (λ part. part.now) parts.now)) numbers.now) }
{
    let Some((part, others)) = parts.split_first() else {
        return;
    };
    let left = print_part(sink, page, part, numbers);
    print_form(sink, page, others, left);
}
