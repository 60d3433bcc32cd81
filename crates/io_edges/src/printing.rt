//! Printing over a page.
ghost use Rattle.std.specs.Prelude.{◌≡◌, ◌+◌, ◌≤◌, List, [], ◌++◌, length, take, map};
ghost use Rattle.io_edges.specs.Commas.{with_commas};
ghost use Rattle.io_edges.specs.Gather.{gather_with, gather_of};
ghost use Rattle.io_edges.specs.Prints.{Prints, Finishes};

use crate::edge::Sink;
use crate::page::{PAGE_SIZE, Page, Sending};
use crate::writing::{WriteFault, write_all};
use itoa::{Buffer, Integer};

/// Prints a piece of text.
#[inline(always)]
pub fn print<K: Sink>(sink: &mut K, page: &mut Page, piece: &[u8])
    ensures prints { Prints (gather_of K.taken K.faults sink.old page.old)
        (gather_of K.taken K.faults sink.new page.new) piece.now }
    ensures keeps { K.keeps sink.old sink.new }
{
    if piece.len() > PAGE_SIZE - page.fill {
        print_through(sink, page, piece);
        return;
    }
    keep(&mut page.buffer, page.fill, piece);
    page.fill += piece.len();
}

/// Prints a number in decimal.
#[inline]
pub fn print_number<K: Sink, I: Integer>(sink: &mut K, page: &mut Page, number: I)
    ensures prints { Prints (gather_of K.taken K.faults sink.old page.old)
        (gather_of K.taken K.faults sink.new page.new) (I.text number) }
    ensures keeps { K.keeps sink.old sink.new }
{
    let mut digits = Buffer::new();
    print(sink, page, digits.format(number).as_bytes());
}

/// Prints numbers in decimal with commas between them.
pub fn print_numbers<K: Sink, I: Integer>(sink: &mut K, page: &mut Page, numbers: &[I])
    ensures prints { Prints (gather_of K.taken K.faults sink.old page.old)
        (gather_of K.taken K.faults sink.new page.new) (with_commas (map I.text numbers.now)) }
    ensures keeps { K.keeps sink.old sink.new }
{
    let Some((first, rest)) = numbers.split_first() else {
        return;
    };
    print_number(sink, page, *first);
    for number in rest {
        print(sink, page, b",");
        print_number(sink, page, *number);
    }
}

/// Puts a piece behind the first `fill` bytes of a buffer.
#[inline(always)]
fn keep(buffer: &mut [u8], fill: usize, piece: &[u8])
    requires { fill + length piece.now ≤ length buffer.old }
    ensures { take (fill + length piece.now) buffer.new ≡ take fill buffer.old ++ piece.now }
{
    buffer[fill..fill + piece.len()].copy_from_slice(piece);
}

/// Prints a piece that doesn't fit on the page: empties the page first, and sends past it what is longer than a page.
#[inline(never)]
fn print_through<K: Sink>(sink: &mut K, page: &mut Page, piece: &[u8])
    ensures prints { Prints (gather_of K.taken K.faults sink.old page.old)
        (gather_of K.taken K.faults sink.new page.new) piece.now }
    ensures keeps { K.keeps sink.old sink.new }
{
    flush(sink, page);
    if piece.len() > PAGE_SIZE {
        let mut sending = page.sending;
        send(sink, &mut sending, piece);
        page.sending = sending;
        return;
    }
    keep(&mut page.buffer, 0, piece);
    page.fill = piece.len();
}

/// Empties a page.
fn flush<K: Sink>(sink: &mut K, page: &mut Page)
    ensures prints { Prints (gather_of K.taken K.faults sink.old page.old)
        (gather_of K.taken K.faults sink.new page.new) [] }
    ensures emptied { page.new.fill ≡ 0 }
    ensures keeps { K.keeps sink.old sink.new }
{
    let mut sending = page.sending;
    send(sink, &mut sending, &page.buffer[..page.fill]);
    page.sending = sending;
    page.fill = 0;
}

/// Sends what waits to the sink, or forgets it where an earlier write failed.
fn send<K: Sink>(sink: &mut K, sending: &mut Sending, pending: &[u8])
    ensures prints { Prints (gather_with K.taken K.faults sink.old sending.old pending.now)
        (gather_with K.taken K.faults sink.new sending.new []) [] }
    ensures keeps { K.keeps sink.old sink.new }
{
    if sending.failed {
        return;
    }
    let Err(fault) = write_all(sink, pending) else {
        sending.sent = sending.sent.saturating_add(pending.len());
        return;
    };
    sending.failed = true;
    sending.sent = sending.sent.saturating_add(fault.sent);
}

/// Ends what was printed on a page. Where a write failed, now or before, just the first `sent` bytes of it were taken.
pub fn finish<K: Sink>(sink: &mut K, page: Page) -> Result<(), WriteFault>
    ensures finishes { Finishes (gather_of K.taken K.faults sink.old page)
        (K.taken sink.new) (K.faults sink.new) result }
    ensures keeps { K.keeps sink.old sink.new }
{
    let mut page = page;
    flush(sink, &mut page);
    if page.sending.failed {
        return Err(WriteFault {
            sent: page.sending.sent,
        });
    }
    Ok(())
}
