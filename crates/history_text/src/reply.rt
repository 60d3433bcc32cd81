//! Replies to calls.
ghost use Rattle.std.specs.Prelude.{◌≤◌};
ghost use Rattle.io_edges.specs.Gather.{gather_of};
ghost use Rattle.io_edges.specs.Prints.{Prints};
ghost use Rattle.history_text.specs.Replies.{behind_text, reply_text};

use crate::form::print_form;
use crate::kind::{kind_form, spell};
use crate::pulled::print_letters;
use crate::row::print_rows;
use crate::totals::print_totals;
use flow_calls::Reply;
use flow_rules::Limits;
use io_edges::{Page, Sink};

/// Prints the list behind the text of a reply.
fn print_behind<K: Sink>(sink: &mut K, page: &mut Page, limits: Limits, reply: &Reply)
    requires { limits.rxq ≤ 16 }
    ensures { Prints (gather_of K.taken K.faults sink.old page.old)
        (gather_of K.taken K.faults sink.new page.new) (behind_text limits reply.now) }
{
    match reply {
        Reply::Listed(rows) => print_rows(sink, page, rows),
        Reply::Stopped(totals) => print_totals(sink, page, limits, totals.get()),
        Reply::Pulled(_, outcomes) => print_letters(sink, page, outcomes.get()),
        _ => {}
    }
}

pub(crate) fn print_reply<K: Sink>(sink: &mut K, page: &mut Page, limits: Limits, reply: &Reply)
    requires { limits.rxq ≤ 16 }
    ensures { Prints (gather_of K.taken K.faults sink.old page.old)
        (gather_of K.taken K.faults sink.new page.new) (reply_text limits reply.now) }
{
    let spelled = spell(reply);
    print_form(
        sink,
        page,
        &kind_form(spelled.kind),
        spelled.numbers.as_slice(),
    );
    print_behind(sink, page, limits, reply);
}
