//! The lines of a transcript: replies, refusals and a verdict with their texts, and how a capture ended.
use adapter::Adapter;
use arrayvec::ArrayVec;
use capture_files::CaptureKind;
use flow_actions::{Fate, Verdict};
use flow_calls::{At, BadKind, Call, Caller, EntryView, Op, OpKind, Parcel, Reply};
use flow_rules::{Cause, Fault, Limits};
use history_text::{Ending, print_entry, print_history};
use io_edges::{MemSink, Page, finish};
use op_queues::OpQueue;
use packet_headers::parse;
use shared_value::Shared;
use std::alloc::{AllocError, Global};
use std::process::Abort;
use std::test::Fail;

const LIMITS: Limits = Limits {
    rxq: 1,
    flow_max: 4096,
};

/// The Ethernet header of a frame, with the type of IPv4.
const FRAME: [u8; 14] = [2, 0, 0, 0, 0, 1, 2, 0, 0, 0, 0, 2, 8, 0];

fn expect_line(
    rt: &(impl Abort + AllocGlobal),
    entry: EntryView<'_>,
    line: &[u8],
) -> Result<(), Fail> {
    let mut sink = MemSink::new(rt.alloc(), 1000, None)?;
    let mut page = Page::new();
    print_entry(&mut sink, &mut page, LIMITS, entry);
    assert_eq!(rt; finish(&mut sink, page), Ok(()));
    assert_eq!(rt; sink.taken(), line);
    Ok(())
}

/// The line of a reply to a call in line 12, made by a caller.
fn expect_reply(
    rt: &(impl Abort + AllocGlobal),
    caller: u8,
    reply: &Reply,
    line: &[u8],
) -> Result<(), Fail> {
    let call = Call {
        at: At { line: 12, part: 1 },
        op: Op::Stop,
    };
    let entry = EntryView::Asked {
        caller: Caller(caller),
        call: &call,
        reply,
    };
    expect_line(rt, entry, line)
}

/// A caller, a reply, and the line of its entry.
type Row<'a> = (u8, Reply, &'a [u8]);

fn expect_replies(rt: &(impl Abort + AllocGlobal), rows: &[Row<'_>]) -> Result<(), Fail> {
    for (caller, reply, line) in rows {
        expect_reply(rt, *caller, reply, line)?;
    }
    Ok(())
}

#[test]
fn rules_have_their_texts(rt: HostRuntime) -> Result<(), Fail> {
    let rows: [Row<'_>; 5] = [
        (0, Reply::Validated, b"shell 12.1: Flow rule validated\n"),
        (1, Reply::Created(7), b"agent0 12.1: Flow rule #7 created\n"),
        (
            8,
            Reply::Destroyed(4294967294),
            b"agent7 12.1: Flow rule #4294967294 destroyed\n",
        ),
        (0, Reply::Flushed, b"shell 12.1: Flow rules flushed\n"),
        (2, Reply::Created(0), b"agent1 12.1: Flow rule #0 created\n"),
    ];
    expect_replies(&rt, &rows)
}

#[test]
fn counts_and_shared_actions_have_their_texts(rt: HostRuntime) -> Result<(), Fail> {
    let rows: [Row<'_>; 6] = [
        (
            0,
            Reply::Counted(2, 114),
            b"shell 12.1: COUNT: hits 2 bytes 114\n",
        ),
        (
            3,
            Reply::Counted(0, 0),
            b"agent2 12.1: COUNT: hits 0 bytes 0\n",
        ),
        (
            0,
            Reply::Counted(
                18446744073709551615,
                340282366920938463463374607431768211455,
            ),
            b"shell 12.1: COUNT: hits 18446744073709551615 bytes 340282366920938463463374607431768211455\n",
        ),
        (
            0,
            Reply::IndirectCreated(5),
            b"shell 12.1: Indirect action #5 created\n",
        ),
        (
            0,
            Reply::IndirectUpdated(65535),
            b"shell 12.1: Indirect action #65535 updated\n",
        ),
        (
            0,
            Reply::IndirectDestroyed(0),
            b"shell 12.1: Indirect action #0 destroyed\n",
        ),
    ];
    expect_replies(&rt, &rows)
}

#[test]
fn isolation_and_phases_have_their_texts(rt: HostRuntime) -> Result<(), Fail> {
    let rows: [Row<'_>; 4] = [
        (
            0,
            Reply::Isolated(true),
            b"shell 12.1: Ingress traffic is restricted to the defined flow rules\n",
        ),
        (
            0,
            Reply::Isolated(false),
            b"shell 12.1: Ingress traffic is not restricted\n",
        ),
        (
            0,
            Reply::Started,
            b"shell 12.1: Packet forwarding started\n",
        ),
        (0, Reply::Bye, b"shell 12.1: Bye\n"),
    ];
    expect_replies(&rt, &rows)
}

#[test]
fn bad_lines_have_their_texts(rt: HostRuntime) -> Result<(), Fail> {
    let rows: [Row<'_>; 4] = [
        (
            0,
            Reply::Bad(BadKind::Arguments),
            b"shell 12.1: Bad arguments\n",
        ),
        (0, Reply::Bad(BadKind::Port), b"shell 12.1: Invalid port\n"),
        (
            0,
            Reply::Bad(BadKind::NotStarted),
            b"shell 12.1: Packet forwarding not started\n",
        ),
        (
            0,
            Reply::Bad(BadKind::AlreadyStarted),
            b"shell 12.1: Packet forwarding already started\n",
        ),
    ];
    expect_replies(&rt, &rows)
}

#[test]
fn templates_and_tables_have_their_texts(rt: HostRuntime) -> Result<(), Fail> {
    let rows: [Row<'_>; 6] = [
        (
            0,
            Reply::PatternTemplateCreated(7),
            b"shell 12.1: Pattern template #7 created\n",
        ),
        (
            0,
            Reply::PatternTemplateDestroyed(65535),
            b"shell 12.1: Pattern template #65535 destroyed\n",
        ),
        (
            0,
            Reply::ActionsTemplateCreated(0),
            b"shell 12.1: Actions template #0 created\n",
        ),
        (
            0,
            Reply::ActionsTemplateDestroyed(1),
            b"shell 12.1: Actions template #1 destroyed\n",
        ),
        (
            0,
            Reply::TableCreated(65535),
            b"shell 12.1: Template table #65535 created\n",
        ),
        (
            0,
            Reply::TableDestroyed(2),
            b"shell 12.1: Template table #2 destroyed\n",
        ),
    ];
    expect_replies(&rt, &rows)
}

#[test]
fn operations_of_flow_queues_have_their_texts(rt: HostRuntime) -> Result<(), Fail> {
    let rows: [Row<'_>; 7] = [
        (
            0,
            Reply::Configured(8, 1024),
            b"shell 12.1: Port 0 configured: 8 queues of 1024 entries\n",
        ),
        (
            1,
            Reply::Enqueued(OpKind::RuleCreate, 7),
            b"agent0 12.1: Flow rule #7 creation enqueued\n",
        ),
        (
            2,
            Reply::Enqueued(OpKind::RuleDestroy, 4294967294),
            b"agent1 12.1: Flow rule #4294967294 destruction enqueued\n",
        ),
        (
            8,
            Reply::Enqueued(OpKind::IndirectCreate, 65535),
            b"agent7 12.1: Indirect action #65535 creation enqueued\n",
        ),
        (
            0,
            Reply::Enqueued(OpKind::IndirectUpdate, 0),
            b"shell 12.1: Indirect action #0 update enqueued\n",
        ),
        (
            0,
            Reply::Enqueued(OpKind::IndirectDestroy, 3),
            b"shell 12.1: Indirect action #3 destruction enqueued\n",
        ),
        (
            4,
            Reply::Pushed(3),
            b"agent3 12.1: Queue #3 operations pushed\n",
        ),
    ];
    expect_replies(&rt, &rows)
}

/// How operations ended, and the line of a pull of their results.
static PULLS: [(&[bool], &[u8]); 4] = [
    (
        &[],
        b"agent3 12.1: Queue #3 pulled 0 operations (0 failed, 0 succeeded) []\n",
    ),
    (
        &[true],
        b"agent3 12.1: Queue #3 pulled 1 operations (0 failed, 1 succeeded) [S]\n",
    ),
    (
        &[true, false],
        b"agent3 12.1: Queue #3 pulled 2 operations (1 failed, 1 succeeded) [SF]\n",
    ),
    (
        &[false, true, true, false, false],
        b"agent3 12.1: Queue #3 pulled 5 operations (3 failed, 2 succeeded) [FSSFF]\n",
    ),
];

/// The reply to a pull of the results of operations that ended so.
fn pulled(alloc: Global, ended: &[bool]) -> Result<Reply, AllocError> {
    let mut queue: OpQueue<u8> = OpQueue::new(alloc, 8)?;
    for ok in ended {
        let _held = queue.hold(0);
        if queue.pop_held().is_some() {
            queue.finish(*ok);
        }
    }
    let outcomes = Shared::new(alloc, queue.pull(8))?;
    Ok(Reply::Pulled(3, outcomes))
}

#[test]
fn a_pull_has_a_letter_for_each_result(rt: HostRuntime) -> Result<(), Fail> {
    for (ended, line) in &PULLS {
        let reply = pulled(rt.alloc(), ended)?;
        expect_reply(&rt, 4, &reply, line)?;
    }
    Ok(())
}

/// A cause with the place 3, and what stands behind `Caught error type `.
static FAULTS: [(Cause, &str); 36] = [
    (Cause::GroupRange, "3 (ATTR_GROUP): group out of range"),
    (
        Cause::PriorityRange,
        "4 (ATTR_PRIORITY): priority out of range",
    ),
    (Cause::NoIngress, "5 (ATTR_INGRESS): ingress is required"),
    (Cause::Egress, "6 (ATTR_EGRESS): egress is not supported"),
    (
        Cause::Transfer,
        "7 (ATTR_TRANSFER): transfer is not supported",
    ),
    (Cause::RulesNumber, "8 (ATTR): rules number out of range"),
    (Cause::TooManyItems, "9 (ITEM_NUM): more than 16 items"),
    (
        Cause::SpecMissing,
        "10 (ITEM_SPEC): item 3: last or mask without spec",
    ),
    (
        Cause::SpecNeeded,
        "10 (ITEM_SPEC): item 3: spec is required",
    ),
    (Cause::LastBelow, "11 (ITEM_LAST): item 3: last below spec"),
    (
        Cause::LastInTemplate,
        "11 (ITEM_LAST): item 3: last is not supported here",
    ),
    (
        Cause::ItemOrder,
        "13 (ITEM): item 3: does not follow the item before it",
    ),
    (
        Cause::ItemDiffers,
        "13 (ITEM): item 3: differs from the template",
    ),
    (
        Cause::TooManyActions,
        "14 (ACTION_NUM): more than 16 actions",
    ),
    (Cause::ActionConf, "15 (ACTION_CONF): action 3: bad value"),
    (
        Cause::NoIndirect,
        "15 (ACTION_CONF): action 3: no such indirect action",
    ),
    (
        Cause::ItemNeeded,
        "16 (ACTION): action 3: needs an item in the pattern",
    ),
    (Cause::SecondFate, "16 (ACTION): action 3: second fate"),
    (
        Cause::SecondCount,
        "16 (ACTION): action 3: counter named twice",
    ),
    (
        Cause::ActionDiffers,
        "16 (ACTION): action 3: differs from the template",
    ),
    (
        Cause::KindNotIndirect,
        "16 (ACTION): action cannot be indirect",
    ),
    (Cause::KindDiffers, "16 (ACTION): kind differs"),
    (Cause::CannotUpdate, "16 (ACTION): action cannot be updated"),
    (Cause::NoCounter, "16 (ACTION): no counter to query"),
    (Cause::NoRule, "2 (HANDLE): no such rule"),
    (Cause::NoObject, "2 (HANDLE): no such object"),
    (Cause::NoQueue, "2 (HANDLE): no such queue"),
    (Cause::TemplateIndex, "2 (HANDLE): no such template index"),
    (Cause::IdInUse, "2 (HANDLE): id in use"),
    (Cause::StoreFull, "1 (UNSPECIFIED): store full"),
    (Cause::TableFull, "1 (UNSPECIFIED): table full"),
    (Cause::QueueFull, "1 (UNSPECIFIED): queue full"),
    (Cause::QueueRange, "1 (UNSPECIFIED): queues out of range"),
    (Cause::TooMany, "1 (UNSPECIFIED): too many objects"),
    (Cause::Busy, "17 (STATE): in use"),
    (Cause::AlreadyConfigured, "17 (STATE): already configured"),
];

#[test]
fn each_fault_has_its_text(rt: HostRuntime) -> Result<(), Fail> {
    for (cause, text) in &FAULTS {
        let fault = Fault {
            cause: *cause,
            at: 3,
        };
        let line = format!(in rt.alloc(); "shell 12.1: Caught error type {text}\n")?;
        expect_reply(&rt, 0, &Reply::Fault(fault), line.as_bytes())?;
    }
    Ok(())
}

#[test]
fn mark_hash_and_path_of_a_dropped_frame(rt: HostRuntime) -> Result<(), Fail> {
    let mut path = ArrayVec::new();
    path.push(3);
    path.push(10);
    path.push(4294967295);
    let verdict = Verdict {
        fate: Fate::Drop,
        mark: Some(57005),
        hash: Some(0x0BAD_F00D),
        path,
    };
    let parcel = Parcel {
        number: 1048576,
        key: parse(&FRAME),
        len: 60,
    };
    let entry = EntryView::Passed {
        caller: Caller(24),
        parcel,
        verdict,
    };
    let line = b"worker15 #1048576: drop mark 57005 hash 0badf00d path 3,10,4294967295\n";
    expect_line(&rt, entry, line)
}

const fn bad(place: u64, kind: CaptureKind) -> Ending {
    Ending::Bad { place, kind }
}

/// The text of an adapter without entries whose capture ended so.
fn expect_ending(
    rt: &(impl Abort + AllocGlobal),
    adapter: &Adapter,
    ending: Ending,
    line: &str,
) -> Result<(), Fail> {
    let text = format!(in rt.alloc(); "total received 0 dropped 0 queues 0\n{line}")?;
    let mut sink = MemSink::new(rt.alloc(), 1000, None)?;
    assert_eq!(rt; print_history(adapter, ending, &mut sink), Ok(()));
    assert_eq!(rt; sink.taken(), text.as_bytes());
    Ok(())
}

fn expect_endings(
    rt: &(impl Abort + AllocGlobal),
    adapter: &Adapter,
    rows: &[(Ending, &str)],
) -> Result<(), Fail> {
    for (ending, line) in rows {
        expect_ending(rt, adapter, *ending, line)?;
    }
    Ok(())
}

#[test]
fn each_ending_has_its_line(rt: HostRuntime) -> Result<(), Fail> {
    let rows: [(Ending, &str); 9] = [
        (Ending::Whole, ""),
        (
            bad(0, CaptureKind::HeaderCut),
            "capture: bad at byte 0: header cut\n",
        ),
        (
            bad(0, CaptureKind::Magic),
            "capture: bad at byte 0: magic\n",
        ),
        (
            bad(4, CaptureKind::Version),
            "capture: bad at byte 4: version\n",
        ),
        (
            bad(20, CaptureKind::LinkType),
            "capture: bad at byte 20: link type\n",
        ),
        (
            bad(100, CaptureKind::RecordCut),
            "capture: bad at byte 100: record cut\n",
        ),
        (
            bad(18446744073709551615, CaptureKind::RecordLength),
            "capture: bad at byte 18446744073709551615: record length\n",
        ),
        (
            Ending::Large { place: 1073741864 },
            "capture: too large at byte 1073741864\n",
        ),
        (Ending::ReadFault, "capture: read fault\n"),
    ];
    let adapter = Adapter::new(rt.alloc(), LIMITS)?;
    expect_endings(&rt, &adapter, &rows)
}
