//! Callers who ask one after the other.
ghost use Rattle.port_tests.specs.Asking.{CanAsk, IsPair, IsReady};

use crate::seats::{Pair, close_pair, open_pair, open_port};
use adapter::Adapter;
use flow_actions::Action;
use flow_calls::{At, Call, Caller, EntryView, Op, Reply};
use flow_port::{FlowPort, PortSeat};
use flow_rules::{Cause, Fault, Limits, RuleSpec};
use packet_headers::ItemKind;
use shared_value::Shared;
use std::alloc::Global;
use std::process::Abort;
use std::sync::Wait;
use std::test::Fail;
use test_rules::{actions_of, ingress, pattern_of_kinds};

/// Two Rx queues.
pub(crate) const LIMITS: Limits = Limits {
    rxq: 2,
    flow_max: 64,
};

/// A call of that line.
pub(crate) fn call(line: u32, op: Op) -> Call {
    Call {
        at: At { line, part: 1 },
        op,
    }
}

/// `flow create 0 ingress pattern eth / end actions queue index 1 / end`.
pub(crate) fn create(rt: &impl Abort, alloc: Global) -> Op {
    let spec = RuleSpec {
        attr: ingress(0, 0),
        pattern: pattern_of_kinds(&[ItemKind::Eth]),
        actions: actions_of(&[Action::Queue(1)]),
    };
    Op::Create(Shared::new(alloc, spec).expect(rt, "memory"))
}

/// An adapter without rules, whose history is empty.
pub(crate) fn new_adapter(rt: &impl Abort, alloc: Global) -> Adapter {
    Adapter::new(alloc, LIMITS).expect(rt, "memory")
}

/// An adapter whose history is a creation of that line.
fn adapter_with_a_rule(rt: &impl Abort, alloc: Global, line: u32) -> Adapter {
    let mut adapter = new_adapter(rt, alloc);
    let rule = call(line, create(rt, alloc));
    let Ok(_reply) = adapter.step(Caller::SHELL, &rule) else {
        panic!(rt; "there was no memory")
    };
    adapter
}

/// Makes a call in a turn.
pub(crate) fn ask<R: Wait + Abort>(
    rt: &R,
    port: &FlowPort,
    seat: &mut PortSeat,
    call: &Call,
) -> Reply
    requires { IsReady port.now seat.old }
    ensures { CanAsk port.now 1000 seat.new }
{
    port.call(rt, seat, call).expect(rt, "memory")
}

/// Caller 0 creates a rule, and caller 1 asks for its counter.
pub(crate) fn pair_that_asked<R: Wait + Abort>(rt: &R, alloc: Global) -> Pair
    ensures pair { IsPair result.port result.seats result.first result.second }
    ensures ready { CanAsk result.port 1000 result.first × CanAsk result.port 1000 result.second }
{
    let mut pair = open_pair(rt, alloc, new_adapter(rt, alloc));
    let rule = call(1, create(rt, alloc));
    let created = ask(rt, &pair.port, &mut pair.first, &rule);
    assert!(rt; is_created(&created, 0));
    let queried = ask(rt, &pair.port, &mut pair.second, &call(2, Op::Query(0)));
    assert!(rt; is_no_counter(&queried));
    pair
}

/// Whether these two calls are the first entries.
pub(crate) fn begins_with_both(adapter: &Adapter) -> bool {
    if adapter.entries() < 2 {
        return false;
    }
    is_creation_of(&adapter.entry(0), Caller(0), 1) && is_query_of(&adapter.entry(1), Caller(1), 2)
}

/// Whether the entry is this caller's call of that line, with the reply that `Query` has for a rule without COUNT.
pub(crate) fn is_query_of(entry: &EntryView<'_>, caller: Caller, line: u32) -> bool {
    let EntryView::Asked {
        caller: who,
        call,
        reply,
    } = entry
    else {
        return false;
    };
    *who == caller && call.at.line == line && is_no_counter(reply)
}

/// Whether the entry is this caller's call of that line, which made rule 0.
pub(crate) fn is_creation_of(entry: &EntryView<'_>, caller: Caller, line: u32) -> bool {
    let EntryView::Asked {
        caller: who,
        call,
        reply,
    } = entry
    else {
        return false;
    };
    *who == caller && call.at.line == line && is_created(reply, 0)
}

fn is_no_counter(reply: &Reply) -> bool {
    match reply {
        Reply::Fault(fault) => {
            *fault
                == Fault {
                    cause: Cause::NoCounter,
                    at: 0,
                }
        }
        _ => false,
    }
}

fn is_created(reply: &Reply, id: u32) -> bool {
    match reply {
        Reply::Created(created) => *created == id,
        _ => false,
    }
}

#[test]
fn the_second_caller_finds_the_rule_of_the_first(rt: HostRuntime) -> Result<(), Fail> {
    let pair = pair_that_asked(&rt, rt.alloc());
    assert!(rt; pair.first.caller() == Caller(0) && pair.second.caller() == Caller(1));
    let adapter = close_pair(pair);
    assert!(rt; adapter.entries() == 2 && begins_with_both(&adapter));
    Ok(())
}

#[test]
fn a_port_without_a_call_has_the_history_that_it_was_made_with(
    rt: HostRuntime,
) -> Result<(), Fail> {
    let adapter = adapter_with_a_rule(&rt, rt.alloc(), 7);
    let (port, seats) = open_port(&rt, rt.alloc(), adapter, &[Caller(3)]);
    let adapter = port.close(seats);
    assert_eq!(rt; adapter.entries(), 1);
    assert!(rt; is_creation_of(&adapter.entry(0), Caller(0), 7));
    Ok(())
}
