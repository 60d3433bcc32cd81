//! Who made an entry.
ghost use Rattle.io_edges.specs.Gather.{gather_of};
ghost use Rattle.io_edges.specs.Prints.{Prints};
ghost use Rattle.history_text.specs.Callers.{caller_text};

use crate::number::print_short;
use flow_calls::Caller;
use io_edges::{Page, Sink, print};

/// The number of the first agent, and of the first worker.
const FIRST_AGENT: u8 = 1;

const FIRST_WORKER: u8 = 9;

#[inline]
pub(crate) fn print_caller<K: Sink>(sink: &mut K, page: &mut Page, caller: Caller)
    ensures { Prints (gather_of K.taken K.faults sink.old page.old)
        (gather_of K.taken K.faults sink.new page.new) (caller_text caller) }
{
    if caller.0 >= FIRST_WORKER {
        print(sink, page, b"worker");
        print_short(sink, page, (caller.0 - FIRST_WORKER) as u32);
        return;
    }
    if caller.0 >= FIRST_AGENT {
        print(sink, page, b"agent");
        print_short(sink, page, (caller.0 - FIRST_AGENT) as u32);
        return;
    }
    print(sink, page, b"shell");
}
