//! The lines of entries, and the whole transcript.
ghost use Rattle.std.specs.Prelude.{◌≡◌, ◌≤◌, length, OnOk, IfErr, is_some};
ghost use Rattle.std.specs.List.{flat_map};
ghost use Rattle.std.specs.Io.KnownBytes.{Appends};
ghost use Rattle.io_edges.specs.Faults.{HasCause};
ghost use Rattle.io_edges.specs.Front.{TakesFront};
ghost use Rattle.io_edges.specs.Gather.{gather_of};
ghost use Rattle.io_edges.specs.Prints.{Prints};
ghost use Rattle.flow_calls.specs.declared.entry.Entry.{Entry};
ghost use Rattle.adapter.specs.KeptLine.{IsLineOf};
ghost use Rattle.adapter.specs.Seen.{entry_of};
ghost use Rattle.history_text.specs.Text.{entry_text, end_text, text_of};

use crate::caller::print_caller;
use crate::ending::{Ending, print_ending};
use crate::reply::print_reply;
use crate::totals::print_totals;
use crate::verdict::print_verdict;
use adapter::{Adapter, LineView};
use flow_calls::EntryView;
use flow_rules::Limits;
use io_edges::{Page, Sink, WriteFault, finish, print, print_number};

/// Writes the transcript of the adapter's history, and how the capture ended.
///
/// Takes no memory. Where a write fails nothing more is written, and the fault tells how many bytes were.
pub fn print_history<K: Sink>(
    adapter: &Adapter,
    ending: Ending,
    sink: &mut K,
) -> Result<(), WriteFault>
    ensures whole { OnOk result (Appends (K.taken sink.old) (K.taken sink.new)
        (text_of adapter.now.limits adapter.now.history ending)) }
    ensures front { IfErr result (λ fault. TakesFront (K.taken sink.old) (K.taken sink.new)
        (text_of adapter.now.limits adapter.now.history ending) fault.sent) }
    ensures cause { HasCause (K.faults sink.old) (K.faults sink.new) result }
    ensures told { is_some (K.taken sink.new) ≡ is_some (K.taken sink.old) }
{
    let mut page = Page::new();
    print_entries(sink, &mut page, adapter);
    print_end(sink, &mut page, adapter, ending);
    finish(sink, page)
}

fn print_entries<K: Sink>(sink: &mut K, page: &mut Page, adapter: &Adapter)
    ensures { Prints (gather_of K.taken K.faults sink.old page.old)
        (gather_of K.taken K.faults sink.new page.new)
        (flat_map (entry_text adapter.now.limits) adapter.now.history) }
{
    let limits = adapter.limits();
    for place in 0..adapter.entries() {
        print_line(sink, page, limits, adapter.line(place));
    }
}

/// Prints the line of an entry.
pub fn print_entry<K: Sink>(sink: &mut K, page: &mut Page, limits: Limits, entry: EntryView<'_>)
    requires { limits.rxq ≤ 16 }
    ensures { Prints (gather_of K.taken K.faults sink.old page.old)
        (gather_of K.taken K.faults sink.new page.new) (entry_text limits (entry_of entry.entry)) }
{
    print_line(sink, page, limits, line_of(entry));
}

/// What a line tells of an entry.
fn line_of(entry: EntryView<'_>) -> LineView<'_>
    ensures { IsLineOf result (entry_of entry.entry) }
{
    match entry {
        EntryView::Asked {
            caller,
            call,
            reply,
        } => LineView::Asked {
            caller,
            call,
            reply,
        },
        EntryView::Passed {
            caller,
            parcel,
            verdict,
        } => LineView::Passed {
            caller,
            number: parcel.number,
            verdict,
        },
    }
}

/// Prints a line: the text of each entry that it can be of.
#[inline]
fn print_line<K: Sink>(sink: &mut K, page: &mut Page, limits: Limits, line: LineView<'_>)
    requires { limits.rxq ≤ 16 }
    ensures { (entry : Entry) → IsLineOf line.entry entry → Prints (gather_of K.taken K.faults sink.old page.old)
        (gather_of K.taken K.faults sink.new page.new) (entry_text limits entry) }
{
    match line {
        LineView::Asked {
            caller,
            call,
            reply,
        } => {
            print_caller(sink, page, caller);
            print(sink, page, b" ");
            print_number(sink, page, call.at.line);
            print(sink, page, b".");
            print_number(sink, page, call.at.part);
            print(sink, page, b": ");
            print_reply(sink, page, limits, reply);
            print(sink, page, b"\n");
        }
        LineView::Passed {
            caller,
            number,
            verdict,
        } => {
            print_caller(sink, page, caller);
            print(sink, page, b" #");
            print_number(sink, page, number);
            print(sink, page, b": ");
            print_verdict(sink, page, &verdict);
            print(sink, page, b"\n");
        }
    }
}

/// Prints what stands behind the last entry.
fn print_end<K: Sink>(sink: &mut K, page: &mut Page, adapter: &Adapter, ending: Ending)
    ensures { Prints (gather_of K.taken K.faults sink.old page.old)
        (gather_of K.taken K.faults sink.new page.new)
        (end_text adapter.now.limits adapter.now.history ending) }
{
    print(sink, page, b"total ");
    print_totals(sink, page, adapter.limits(), &adapter.totals());
    print(sink, page, b"\n");
    print_ending(sink, page, ending);
}
