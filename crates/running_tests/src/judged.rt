//! What the judge takes, and what it refuses.
use crate::judge::{Case, is_lawful};
use crate::places::TWO_WORKERS;
use crate::steps::{Aim, Step};
use std::alloc::{AllocError, Global};
use std::process::Abort;
use test_frames::UDP_FRAME;

/// What a transcript shows, and the transcript.
type Shown = (&'static str, &'static str);

fn expect_judged(
    rt: &impl Abort,
    alloc: Global,
    case: &Case<'_>,
    rows: &[Shown],
    lawful: bool,
) -> Result<(), AllocError> {
    for (shows, text) in rows {
        let judged = is_lawful(alloc, case, text.as_bytes())?;
        assert!(rt; judged == lawful, "{shows}");
    }
    Ok(())
}

const LAWFUL: [Shown; 3] = [
    (
        "the rule before the frames",
        "shell 1.1: Packet forwarding started
shell 2.1: Flow rule #0 created
worker1 #1: drop mark - hash - path 0
worker0 #2: drop mark - hash - path 0
agent0 3.1: Caught error type 2 (HANDLE): no such queue
worker1 #3: drop mark - hash - path 0
shell 4.1: Packet forwarding stopped: received 3 dropped 3 queues 0
total received 3 dropped 3 queues 0
",
    ),
    (
        "the rule between the frames, whose numbers rise for each worker alone",
        "shell 1.1: Packet forwarding started
agent0 3.1: Caught error type 2 (HANDLE): no such queue
worker1 #1: queue 0 mark - hash - path -
worker1 #3: queue 0 mark - hash - path -
shell 2.1: Flow rule #0 created
worker0 #2: drop mark - hash - path 0
shell 4.1: Packet forwarding stopped: received 3 dropped 1 queues 2
total received 3 dropped 1 queues 2
",
    ),
    (
        "the rule behind the frames",
        "shell 1.1: Packet forwarding started
worker0 #2: queue 0 mark - hash - path -
worker1 #1: queue 0 mark - hash - path -
worker1 #3: queue 0 mark - hash - path -
shell 2.1: Flow rule #0 created
agent0 3.1: Caught error type 2 (HANDLE): no such queue
shell 4.1: Packet forwarding stopped: received 3 dropped 0 queues 3
total received 3 dropped 0 queues 3
",
    ),
];

const UNLAWFUL: [Shown; 13] = [
    ("nothing", ""),
    (
        "a frame behind the rule that isn't dropped",
        "shell 1.1: Packet forwarding started
shell 2.1: Flow rule #0 created
worker1 #1: drop mark - hash - path 0
worker0 #2: queue 0 mark - hash - path -
agent0 3.1: Caught error type 2 (HANDLE): no such queue
worker1 #3: drop mark - hash - path 0
shell 4.1: Packet forwarding stopped: received 3 dropped 2 queues 1
total received 3 dropped 2 queues 1
",
    ),
    (
        "a frame before the rule that is dropped",
        "shell 1.1: Packet forwarding started
worker1 #1: drop mark - hash - path 0
shell 2.1: Flow rule #0 created
worker0 #2: drop mark - hash - path 0
agent0 3.1: Caught error type 2 (HANDLE): no such queue
worker1 #3: drop mark - hash - path 0
shell 4.1: Packet forwarding stopped: received 3 dropped 3 queues 0
total received 3 dropped 3 queues 0
",
    ),
    (
        "a frame that is left out",
        "shell 1.1: Packet forwarding started
shell 2.1: Flow rule #0 created
worker1 #1: drop mark - hash - path 0
worker0 #2: drop mark - hash - path 0
agent0 3.1: Caught error type 2 (HANDLE): no such queue
shell 4.1: Packet forwarding stopped: received 2 dropped 2 queues 0
total received 2 dropped 2 queues 0
",
    ),
    (
        "a frame that passes twice",
        "shell 1.1: Packet forwarding started
shell 2.1: Flow rule #0 created
worker1 #1: drop mark - hash - path 0
worker0 #2: drop mark - hash - path 0
worker0 #2: drop mark - hash - path 0
agent0 3.1: Caught error type 2 (HANDLE): no such queue
worker1 #3: drop mark - hash - path 0
shell 4.1: Packet forwarding stopped: received 4 dropped 4 queues 0
total received 4 dropped 4 queues 0
",
    ),
    (
        "a frame of another worker",
        "shell 1.1: Packet forwarding started
shell 2.1: Flow rule #0 created
worker0 #1: drop mark - hash - path 0
worker0 #2: drop mark - hash - path 0
agent0 3.1: Caught error type 2 (HANDLE): no such queue
worker1 #3: drop mark - hash - path 0
shell 4.1: Packet forwarding stopped: received 3 dropped 3 queues 0
total received 3 dropped 3 queues 0
",
    ),
    (
        "a worker's frames whose numbers fall",
        "shell 1.1: Packet forwarding started
shell 2.1: Flow rule #0 created
worker1 #3: drop mark - hash - path 0
worker1 #1: drop mark - hash - path 0
worker0 #2: drop mark - hash - path 0
agent0 3.1: Caught error type 2 (HANDLE): no such queue
shell 4.1: Packet forwarding stopped: received 3 dropped 3 queues 0
total received 3 dropped 3 queues 0
",
    ),
    (
        "an agent's line that the shell asks",
        "shell 1.1: Packet forwarding started
shell 2.1: Flow rule #0 created
shell 3.1: Caught error type 2 (HANDLE): no such queue
worker1 #1: drop mark - hash - path 0
worker0 #2: drop mark - hash - path 0
worker1 #3: drop mark - hash - path 0
shell 4.1: Packet forwarding stopped: received 3 dropped 3 queues 0
total received 3 dropped 3 queues 0
",
    ),
    (
        "a call that is left out",
        "shell 1.1: Packet forwarding started
shell 2.1: Flow rule #0 created
worker1 #1: drop mark - hash - path 0
worker0 #2: drop mark - hash - path 0
worker1 #3: drop mark - hash - path 0
shell 4.1: Packet forwarding stopped: received 3 dropped 3 queues 0
total received 3 dropped 3 queues 0
",
    ),
    (
        "a frame behind its phase",
        "shell 1.1: Packet forwarding started
shell 2.1: Flow rule #0 created
worker1 #1: drop mark - hash - path 0
worker0 #2: drop mark - hash - path 0
agent0 3.1: Caught error type 2 (HANDLE): no such queue
shell 4.1: Packet forwarding stopped: received 3 dropped 3 queues 0
worker1 #3: drop mark - hash - path 0
total received 3 dropped 3 queues 0
",
    ),
    (
        "totals of a phase that don't agree",
        "shell 1.1: Packet forwarding started
shell 2.1: Flow rule #0 created
worker1 #1: drop mark - hash - path 0
worker0 #2: drop mark - hash - path 0
agent0 3.1: Caught error type 2 (HANDLE): no such queue
worker1 #3: drop mark - hash - path 0
shell 4.1: Packet forwarding stopped: received 3 dropped 2 queues 1
total received 3 dropped 3 queues 0
",
    ),
    (
        "totals of the session that don't agree",
        "shell 1.1: Packet forwarding started
shell 2.1: Flow rule #0 created
worker1 #1: drop mark - hash - path 0
worker0 #2: drop mark - hash - path 0
agent0 3.1: Caught error type 2 (HANDLE): no such queue
worker1 #3: drop mark - hash - path 0
shell 4.1: Packet forwarding stopped: received 3 dropped 3 queues 0
total received 3 dropped 3 queues 1
",
    ),
    (
        "a line behind the totals",
        "shell 1.1: Packet forwarding started
shell 2.1: Flow rule #0 created
worker1 #1: drop mark - hash - path 0
worker0 #2: drop mark - hash - path 0
agent0 3.1: Caught error type 2 (HANDLE): no such queue
worker1 #3: drop mark - hash - path 0
shell 4.1: Packet forwarding stopped: received 3 dropped 3 queues 0
total received 3 dropped 3 queues 0
capture: read fault
",
    ),
];

#[test]
fn frames_and_calls_are_judged_at_their_places(rt: HostRuntime) -> Result<(), AllocError> {
    expect_judged(&rt, rt.alloc(), &TWO_WORKERS, &LAWFUL, true)?;
    expect_judged(&rt, rt.alloc(), &TWO_WORKERS, &UNLAWFUL, false)
}

/// Two flow queues end one rule of a table while a frame passes.
const COUNTED: Case<'static> = Case {
    steps: &[
        Step::Configure,
        Step::Enqueue(0, Aim::To(4, 1), false),
        Step::Start,
        Step::EnqueueEnd(0, 0, false),
        Step::EnqueueEnd(1, 0, false),
        Step::Query(0),
        Step::Stop,
        Step::Pull(0),
        Step::Pull(1),
    ],
    frames: &[(&UDP_FRAME, &[])],
    rxq: 2,
    workers: 1,
};

const COUNTED_RIGHT: [Shown; 1] = [(
    "a frame that counts, and the end by the second queue",
    "shell 1.1: Port 0 configured: 8 queues of 64 entries
shell 2.1: Flow rule #0 creation enqueued
shell 3.1: Packet forwarding started
worker0 #1: queue 1 mark - hash - path 0
shell 6.1: COUNT: hits 1 bytes 60
agent1 5.1: Flow rule #0 destruction enqueued
agent0 4.1: Flow rule #0 destruction enqueued
shell 7.1: Packet forwarding stopped: received 1 dropped 0 queues 0,1
shell 8.1: Queue #0 pulled 2 operations (1 failed, 1 succeeded) [SF]
shell 9.1: Queue #1 pulled 1 operations (0 failed, 1 succeeded) [S]
total received 1 dropped 0 queues 0,1
",
)];

const COUNTED_WRONG: [Shown; 3] = [
    (
        "a counter that is told before its frame",
        "shell 1.1: Port 0 configured: 8 queues of 64 entries
shell 2.1: Flow rule #0 creation enqueued
shell 3.1: Packet forwarding started
shell 6.1: COUNT: hits 1 bytes 60
worker0 #1: queue 1 mark - hash - path 0
agent1 5.1: Flow rule #0 destruction enqueued
agent0 4.1: Flow rule #0 destruction enqueued
shell 7.1: Packet forwarding stopped: received 1 dropped 0 queues 0,1
shell 8.1: Queue #0 pulled 2 operations (1 failed, 1 succeeded) [SF]
shell 9.1: Queue #1 pulled 1 operations (0 failed, 1 succeeded) [S]
total received 1 dropped 0 queues 0,1
",
    ),
    (
        "an end that succeeds behind another one",
        "shell 1.1: Port 0 configured: 8 queues of 64 entries
shell 2.1: Flow rule #0 creation enqueued
shell 3.1: Packet forwarding started
worker0 #1: queue 1 mark - hash - path 0
shell 6.1: COUNT: hits 1 bytes 60
agent1 5.1: Flow rule #0 destruction enqueued
agent0 4.1: Flow rule #0 destruction enqueued
shell 7.1: Packet forwarding stopped: received 1 dropped 0 queues 0,1
shell 8.1: Queue #0 pulled 2 operations (0 failed, 2 succeeded) [SS]
shell 9.1: Queue #1 pulled 1 operations (1 failed, 0 succeeded) [F]
total received 1 dropped 0 queues 0,1
",
    ),
    (
        "a frame that finds a rule that is gone",
        "shell 1.1: Port 0 configured: 8 queues of 64 entries
shell 2.1: Flow rule #0 creation enqueued
shell 3.1: Packet forwarding started
agent0 4.1: Flow rule #0 destruction enqueued
worker0 #1: queue 1 mark - hash - path 0
shell 6.1: Caught error type 2 (HANDLE): no such rule
agent1 5.1: Flow rule #0 destruction enqueued
shell 7.1: Packet forwarding stopped: received 1 dropped 0 queues 0,1
shell 8.1: Queue #0 pulled 2 operations (0 failed, 2 succeeded) [SS]
shell 9.1: Queue #1 pulled 1 operations (1 failed, 0 succeeded) [F]
total received 1 dropped 0 queues 0,1
",
    ),
];

#[test]
fn counters_and_results_are_judged_at_their_places(rt: HostRuntime) -> Result<(), AllocError> {
    expect_judged(&rt, rt.alloc(), &COUNTED, &COUNTED_RIGHT, true)?;
    expect_judged(&rt, rt.alloc(), &COUNTED, &COUNTED_WRONG, false)
}
