//! Two callers who ask side by side.
ghost use denote.Param.Send.{IsSync};
ghost use Rattle.flow_port.specs.Ports.{IsSeatAt};
ghost use Rattle.port_tests.specs.Asking.{CanAsk};

use crate::asked::{begins_with_both, call, is_query_of, pair_that_asked};
use crate::seats::close_pair;
use adapter::Adapter;
use flow_calls::{Caller, EntryView, Op};
use flow_port::{FlowPort, PortSeat};
use std::alloc::AllocError;
use std::sync::Wait;
use std::test::Fail;
use std::thread::{Threads, join_mut};

/// The calls of each thread, in lines that are numbered from 0.
const CALLS: u32 = 1000;

/// Asks for the counter of rule 0, in each of the thread's lines.
fn ask_all<R: Wait>(rt: &R, port: &FlowPort, seat: &mut PortSeat) -> Result<(), AllocError>
    requires { CanAsk port.now 1000 seat.old }
    ensures { IsSeatAt port.now seat.new }
{
    for line in 0..CALLS {
        port.call(rt, seat, &call(line, Op::Query(0)))?;
    }
    Ok(())
}

/// Both callers ask, in threads of their own. Says whether memory sufficed.
fn ask_in_two<R: Threads + Wait + Sync>(
    rt: &R,
    port: &FlowPort,
    first: &mut PortSeat,
    second: &mut PortSeat,
) -> bool
    requires first { CanAsk port.now 1000 first.old }
    requires second { CanAsk port.now 1000 second.old }
    ensures first { IsSeatAt port.now first.new }
    ensures second { IsSeatAt port.now second.new }
{
    let (a, b) = join_mut(
        rt,
        &mut || ask_all(rt, port, first),
        &mut || -> Result<(), AllocError>
            requires { IsSync R.row × CanAsk port.now 1000 second.now }
            ensures { IsSeatAt port.entry.now second.exit.now }
        { ask_all(rt, port, second) },
    );
    a.is_ok() && b.is_ok()
}

fn is_by(entry: &EntryView<'_>, who: Caller) -> bool {
    match entry {
        EntryView::Asked { caller, .. } => *caller == who,
        EntryView::Passed { caller, .. } => *caller == who,
    }
}

/// Whether the caller's entries behind the first two are its calls, in the order of their lines.
fn are_in_order(adapter: &Adapter, caller: Caller) -> bool {
    let mut next: u32 = 0;
    for place in 2..adapter.entries() {
        let entry = adapter.entry(place);
        if is_by(&entry, caller) {
            if !is_query_of(&entry, caller, next) {
                return false;
            }
            next = next.wrapping_add(1);
        }
    }
    next == CALLS
}

#[test]
fn two_threads_make_a_thousand_calls_each(rt: HostRuntime) -> Result<(), Fail> {
    let mut pair = pair_that_asked(&rt, rt.alloc());
    let sufficed = ask_in_two(&rt, &pair.port, &mut pair.first, &mut pair.second);
    assert!(rt; sufficed);
    let adapter = close_pair(pair);
    assert!(rt; adapter.entries() == 2002 && begins_with_both(&adapter));
    assert!(rt; are_in_order(&adapter, Caller(0)));
    assert!(rt; are_in_order(&adapter, Caller(1)));
    Ok(())
}
