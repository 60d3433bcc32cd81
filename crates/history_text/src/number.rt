//! Numbers that mostly have one digit.
ghost use Rattle.std.specs.Prelude.{decimal};
ghost use Rattle.io_edges.specs.Gather.{gather_of};
ghost use Rattle.io_edges.specs.Prints.{Prints};

use io_edges::{Page, Sink, print, print_number};

/// Prints a number in decimal: one digit in a few steps, and a longer one as any number.
#[inline]
pub(crate) fn print_short<K: Sink>(sink: &mut K, page: &mut Page, number: u32)
    ensures { Prints (gather_of K.taken K.faults sink.old page.old)
        (gather_of K.taken K.faults sink.new page.new) (decimal number) }
{
    if number < 10 {
        print(sink, page, &[b'0' + number as u8]);
        return;
    }
    print_number(sink, page, number);
}
