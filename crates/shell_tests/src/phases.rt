//! Phases, and lines that aren't carried out.
use crate::run::{ONE_QUEUE, SCRIPT_ALONE, TWO_QUEUES, Told, expect_told};
use test_frames::UDP_FRAME;

const ROWS: [Told<'static>; 8] = [
    (
        "empty script",
        &SCRIPT_ALONE,
        "",
        &[],
        "total received 0 dropped 0 queues 0\n",
    ),
    (
        "a queue that isn't there",
        &["--rxq=2", "--cmdline-file=script"],
        "flow create 0 ingress pattern eth / end actions queue index 2 / end",
        &[],
        "shell 1.1: Caught error type 15 (ACTION_CONF): action 0: bad value
total received 0 dropped 0 queues 0,0
",
    ),
    (
        "a phase that the script's end closes",
        &SCRIPT_ALONE,
        "start\n",
        &[],
        "shell 1.1: Packet forwarding started
shell 2.1: Packet forwarding stopped: received 0 dropped 0 queues 0
total received 0 dropped 0 queues 0
",
    ),
    (
        "one rule, one frame",
        &TWO_QUEUES,
        "flow create 0 ingress pattern eth / end actions queue index 1 / end\nstart\nstop\n",
        &[(&UDP_FRAME, &[])],
        "shell 1.1: Flow rule #0 created
shell 2.1: Packet forwarding started
worker0 #1: queue 1 mark - hash - path 0
shell 3.1: Packet forwarding stopped: received 1 dropped 0 queues 0,1
total received 1 dropped 0 queues 0,1
",
    ),
    (
        "a capture without records",
        &ONE_QUEUE,
        "start\nstop",
        &[],
        "shell 1.1: Packet forwarding started
shell 2.1: Packet forwarding stopped: received 0 dropped 0 queues 0
total received 0 dropped 0 queues 0
",
    ),
    (
        "a bad line, a comment and a stop before any start",
        &TWO_QUEUES,
        "stop\n# note\n\nflow crate 0\nflow flush 1\n",
        &[],
        "shell 1.1: Packet forwarding not started
shell 4.1: Bad arguments
shell 5.1: Invalid port
total received 0 dropped 0 queues 0,0
",
    ),
    (
        "quit in a phase closes it first",
        &SCRIPT_ALONE,
        "start\nquit\nflow list 0\n",
        &[],
        "shell 1.1: Packet forwarding started
shell 2.1: Packet forwarding stopped: received 0 dropped 0 queues 0
shell 2.2: Bye
total received 0 dropped 0 queues 0
",
    ),
    (
        "phases take the frames in order",
        &TWO_QUEUES,
        "forward 1
start
stop
flow create 0 ingress pattern udp / end actions queue index 1 / end
start
stop
forward 3
",
        &[(&UDP_FRAME, &[]), (&UDP_FRAME, &[]), (&UDP_FRAME, &[])],
        "shell 1.1: Packet forwarding started
shell 2.1: Packet forwarding already started
worker0 #1: queue 0 mark - hash - path -
shell 3.1: Packet forwarding stopped: received 1 dropped 0 queues 1,0
shell 4.1: Flow rule #0 created
shell 5.1: Packet forwarding started
worker0 #2: queue 1 mark - hash - path 0
worker0 #3: queue 1 mark - hash - path 0
shell 6.1: Packet forwarding stopped: received 3 dropped 0 queues 1,2
shell 7.1: Packet forwarding started
shell 8.1: Packet forwarding stopped: received 3 dropped 0 queues 1,2
total received 3 dropped 0 queues 1,2
",
    ),
];

#[test]
fn phases_take_calls_and_frames_in_order(rt: HostRuntime) {
    expect_told(&rt, rt.alloc(), &ROWS);
}
