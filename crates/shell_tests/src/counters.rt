//! Counters of rules, and actions that rules share.
use crate::run::{ONE_QUEUE, THREE_QUEUES, TWO_QUEUES, Told, expect_told};
use test_frames::{RSS_CHECK_FRAME, UDP_FRAME};

const ROWS: [Told<'static>; 5] = [
    (
        "each rule on a frame's way counts it with its captured length",
        &TWO_QUEUES,
        "flow create 0 ingress pattern eth / ipv4 / end actions count / dec_ttl / jump group 1 / end
flow create 0 group 1 ingress pattern ipv4 ttl is 63 / end actions count / queue index 1 / end
start
stop
flow query 0 0 count
flow query 0 1 count
flow create 0 group 1 ingress pattern eth / end actions jump group 0 / end
",
        &[(&UDP_FRAME, &[])],
        "shell 1.1: Flow rule #0 created
shell 2.1: Flow rule #1 created
shell 3.1: Packet forwarding started
worker0 #1: queue 1 mark - hash - path 0,1
shell 4.1: Packet forwarding stopped: received 1 dropped 0 queues 0,1
shell 5.1: COUNT: hits 1 bytes 60
shell 6.1: COUNT: hits 1 bytes 60
shell 7.1: Caught error type 15 (ACTION_CONF): action 0: bad value
total received 1 dropped 0 queues 0,1
",
    ),
    (
        "two rules count in one counter, which stays while they name it",
        &ONE_QUEUE,
        "flow indirect_action 0 create action_id 5 ingress action count / end
flow create 0 ingress pattern ipv4 / udp / end actions indirect 5 / queue index 0 / end
flow create 0 priority 1 ingress pattern eth / end actions indirect 5 / drop / end
flow indirect_action 0 destroy action_id 5
start
stop
flow indirect_action 0 query 5
",
        &[(&UDP_FRAME, &[]), (&RSS_CHECK_FRAME, &[])],
        "shell 1.1: Indirect action #5 created
shell 2.1: Flow rule #0 created
shell 3.1: Flow rule #1 created
shell 4.1: Caught error type 17 (STATE): in use
shell 5.1: Packet forwarding started
worker0 #1: queue 0 mark - hash - path 0
worker0 #2: drop mark - hash - path 1
shell 6.1: Packet forwarding stopped: received 2 dropped 1 queues 1
shell 7.1: COUNT: hits 2 bytes 114
total received 2 dropped 1 queues 1
",
    ),
    (
        "a rule follows the queue that it shares",
        &THREE_QUEUES,
        "flow indirect_action 0 create ingress action queue index 1 / end
flow create 0 ingress pattern eth / end actions indirect 0 / end
forward 1
stop
flow indirect_action 0 update 0 action queue index 2 / end
forward 1
stop
",
        &[(&UDP_FRAME, &[]), (&UDP_FRAME, &[])],
        "shell 1.1: Indirect action #0 created
shell 2.1: Flow rule #0 created
shell 3.1: Packet forwarding started
worker0 #1: queue 1 mark - hash - path 0
shell 4.1: Packet forwarding stopped: received 1 dropped 0 queues 0,1,0
shell 5.1: Indirect action #0 updated
shell 6.1: Packet forwarding started
worker0 #2: queue 2 mark - hash - path 0
shell 7.1: Packet forwarding stopped: received 2 dropped 0 queues 0,1,1
total received 2 dropped 0 queues 0,1,1
",
    ),
    (
        "a rule names a shared counter once, an update of it is refused, and only its own query reads it",
        &ONE_QUEUE,
        "flow indirect_action 0 create action_id 5 ingress action count / end
flow create 0 ingress pattern eth / end actions indirect 5 / indirect 5 / end
flow indirect_action 0 update 5 action count / end
flow create 0 ingress pattern eth / end actions indirect 5 / drop / end
start
stop
flow query 0 0 count
flow indirect_action 0 query 5
",
        &[(&UDP_FRAME, &[])],
        "shell 1.1: Indirect action #5 created
shell 2.1: Caught error type 16 (ACTION): action 1: counter named twice
shell 3.1: Caught error type 16 (ACTION): action cannot be updated
shell 4.1: Flow rule #0 created
shell 5.1: Packet forwarding started
worker0 #1: drop mark - hash - path 0
shell 6.1: Packet forwarding stopped: received 1 dropped 1 queues 0
shell 7.1: Caught error type 16 (ACTION): no counter to query
shell 8.1: COUNT: hits 1 bytes 60
total received 1 dropped 1 queues 0
",
    ),
    (
        "a shared action without an asked id gets the least one between two that are in use",
        &ONE_QUEUE,
        "flow indirect_action 0 create action_id 0 ingress action count / end
flow indirect_action 0 create action_id 2 ingress action count / end
flow indirect_action 0 create ingress action count / end
",
        &[],
        "shell 1.1: Indirect action #0 created
shell 2.1: Indirect action #2 created
shell 3.1: Indirect action #1 created
total received 0 dropped 0 queues 0
",
    ),
];

#[test]
fn rules_count_and_share_actions(rt: HostRuntime) {
    expect_told(&rt, rt.alloc(), &ROWS);
}
