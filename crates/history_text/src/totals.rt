//! Totals of frames.
ghost use Rattle.std.specs.Prelude.{◌≤◌};
ghost use Rattle.io_edges.specs.Gather.{gather_of};
ghost use Rattle.io_edges.specs.Prints.{Prints};
ghost use Rattle.history_text.specs.Totals.{totals_text};

use crate::form::print_form;
use flow_calls::Totals;
use flow_rules::Limits;
use io_edges::{Page, Sink, print_numbers};

pub(crate) fn print_totals<K: Sink>(sink: &mut K, page: &mut Page, limits: Limits, totals: &Totals)
    requires { limits.rxq ≤ 16 }
    ensures { Prints (gather_of K.taken K.faults sink.old page.old)
        (gather_of K.taken K.faults sink.new page.new) (totals_text limits totals.now) }
{
    let numbers = [totals.received as u128, totals.dropped as u128];
    print_form(sink, page, &[b"received 0 dropped 0 queues "], &numbers);
    print_numbers(sink, page, &totals.queues[..limits.rxq as usize]);
}
