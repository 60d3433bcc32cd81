//! Rules: groups and priorities, what becomes of them, and why they are refused.
use crate::run::{FOUR_QUEUES, ONE_QUEUE, Row, TWO_QUEUES, Told, expect, expect_told};
use std::alloc::{AllocError, Global};
use test_frames::UDP_FRAME;

const ROWS: [Told<'static>; 8] = [
    (
        "the lowest priority number wins, and then the earlier rule",
        &FOUR_QUEUES,
        "flow create 0 priority 1 ingress pattern eth / end actions queue index 1 / end
flow create 0 priority 1 ingress pattern eth / end actions queue index 2 / end
flow create 0 priority 0 ingress pattern eth / end actions queue index 3 / end
forward 1
stop
flow destroy 0 rule 2
start
stop
",
        &[(&UDP_FRAME, &[]), (&UDP_FRAME, &[])],
        "shell 1.1: Flow rule #0 created
shell 2.1: Flow rule #1 created
shell 3.1: Flow rule #2 created
shell 4.1: Packet forwarding started
worker0 #1: queue 3 mark - hash - path 2
shell 5.1: Packet forwarding stopped: received 1 dropped 0 queues 0,0,0,1
shell 6.1: Flow rule #2 destroyed
shell 7.1: Packet forwarding started
worker0 #2: queue 1 mark - hash - path 0
shell 8.1: Packet forwarding stopped: received 2 dropped 0 queues 0,1,0,1
total received 2 dropped 0 queues 0,1,0,1
",
    ),
    (
        "a list has a row for each rule in the order of effect",
        &FOUR_QUEUES,
        "flow create 0 priority 1 ingress pattern eth / end actions queue index 1 / end
flow create 0 priority 1 ingress pattern eth / end actions queue index 2 / end
flow create 0 priority 0 ingress pattern eth / end actions queue index 3 / end
flow list 0
flow destroy 0 rule 0
flow create 0 ingress group 3 priority 7 pattern void / eth / vlan / ipv6 / tcp / end actions void / drop / end
flow list 0
",
        &[],
        "shell 1.1: Flow rule #0 created
shell 2.1: Flow rule #1 created
shell 3.1: Flow rule #2 created
shell 4.1: ID\tGroup\tPrio\tAttr\tRule
0\t0\t1\ti--\tETH => QUEUE
1\t0\t1\ti--\tETH => QUEUE
2\t0\t0\ti--\tETH => QUEUE
shell 5.1: Flow rule #0 destroyed
shell 6.1: Flow rule #3 created
shell 7.1: ID\tGroup\tPrio\tAttr\tRule
1\t0\t1\ti--\tETH => QUEUE
2\t0\t0\ti--\tETH => QUEUE
3\t3\t7\ti--\tETH VLAN IPV6 TCP => DROP
total received 0 dropped 0 queues 0,0,0,0
",
    ),
    (
        "a flush leaves no rule, and ids go on",
        &FOUR_QUEUES,
        "flow create 0 priority 1 ingress pattern eth / end actions queue index 1 / end
flow create 0 priority 1 ingress pattern eth / end actions queue index 2 / end
flow create 0 priority 0 ingress pattern eth / end actions queue index 3 / end
flow flush 0
flow list 0
flow create 0 ingress pattern end actions end
forward 1
",
        &[(&UDP_FRAME, &[])],
        "shell 1.1: Flow rule #0 created
shell 2.1: Flow rule #1 created
shell 3.1: Flow rule #2 created
shell 4.1: Flow rules flushed
shell 5.1: ID\tGroup\tPrio\tAttr\tRule
shell 6.1: Flow rule #3 created
shell 7.1: Packet forwarding started
worker0 #1: queue 0 mark - hash - path 3
shell 8.1: Packet forwarding stopped: received 1 dropped 0 queues 1,0,0,0
total received 1 dropped 0 queues 1,0,0,0
",
    ),
    (
        "a line with several ids is a call for each",
        &TWO_QUEUES,
        "flow destroy 0 rule 5 rule 6
",
        &[],
        "shell 1.1: Caught error type 2 (HANDLE): no such rule
shell 1.2: Caught error type 2 (HANDLE): no such rule
total received 0 dropped 0 queues 0,0
",
    ),
    (
        "a full store takes a rule once one is gone",
        &["--cmdline-file=script", "--flow-max=1"],
        "flow create 0 ingress pattern eth / end actions drop / end
flow create 0 ingress pattern eth / end actions drop / end
flow validate 0 ingress pattern eth / end actions drop / end
flow destroy 0 rule 0
flow create 0 ingress pattern eth / end actions drop / end
",
        &[],
        "shell 1.1: Flow rule #0 created
shell 2.1: Caught error type 1 (UNSPECIFIED): store full
shell 3.1: Flow rule validated
shell 4.1: Flow rule #0 destroyed
shell 5.1: Flow rule #1 created
total received 0 dropped 0 queues 0
",
    ),
    (
        "isolated mode drops what no rule takes",
        &ONE_QUEUE,
        "flow isolate 0 1
forward 1
stop
flow isolate 0 0
forward 1
",
        &[(&UDP_FRAME, &[]), (&UDP_FRAME, &[])],
        "shell 1.1: Ingress traffic is restricted to the defined flow rules
shell 2.1: Packet forwarding started
worker0 #1: drop mark - hash - path -
shell 3.1: Packet forwarding stopped: received 1 dropped 1 queues 0
shell 4.1: Ingress traffic is not restricted
shell 5.1: Packet forwarding started
worker0 #2: queue 0 mark - hash - path -
shell 6.1: Packet forwarding stopped: received 2 dropped 1 queues 1
total received 2 dropped 1 queues 1
",
    ),
    (
        "a miss in a later group is a miss",
        &TWO_QUEUES,
        "flow create 0 ingress pattern eth / end actions jump group 2 / end
flow create 0 group 2 ingress pattern ipv4 ttl is 64 / end actions queue index 1 / end
forward 1
flow destroy 0 rule 1
flow isolate 0 on
stop
forward 1
",
        &[(&UDP_FRAME, &[]), (&UDP_FRAME, &[])],
        "shell 1.1: Flow rule #0 created
shell 2.1: Flow rule #1 created
shell 3.1: Packet forwarding started
shell 4.1: Flow rule #1 destroyed
shell 5.1: Ingress traffic is restricted to the defined flow rules
worker0 #1: drop mark - hash - path 0
shell 6.1: Packet forwarding stopped: received 1 dropped 1 queues 0,0
shell 7.1: Packet forwarding started
worker0 #2: drop mark - hash - path 0
shell 8.1: Packet forwarding stopped: received 2 dropped 2 queues 0,0
total received 2 dropped 2 queues 0,0
",
    ),
    (
        "a jump goes on in its group",
        &TWO_QUEUES,
        "flow create 0 ingress pattern eth / end actions jump group 2 / end
flow create 0 group 2 ingress pattern ipv4 ttl is 64 / end actions queue index 1 / end
start
",
        &[(&UDP_FRAME, &[])],
        "shell 1.1: Flow rule #0 created
shell 2.1: Flow rule #1 created
shell 3.1: Packet forwarding started
worker0 #1: queue 1 mark - hash - path 0,1
shell 4.1: Packet forwarding stopped: received 1 dropped 0 queues 0,1
total received 1 dropped 0 queues 0,1
",
    ),
];

#[test]
fn rules_take_effect_and_go(rt: HostRuntime) {
    expect_told(&rt, rt.alloc(), &ROWS);
}

/// A rule, and what stands behind `Caught error type `.
const FAULTS: [(&str, &str); 15] = [
    (
        "group 16 ingress pattern eth / end actions drop / end",
        "3 (ATTR_GROUP): group out of range",
    ),
    (
        "ingress priority 65536 pattern eth / end actions drop / end",
        "4 (ATTR_PRIORITY): priority out of range",
    ),
    (
        "ingress egress pattern eth / end actions drop / end",
        "6 (ATTR_EGRESS): egress is not supported",
    ),
    (
        "ingress transfer pattern eth / end actions drop / end",
        "7 (ATTR_TRANSFER): transfer is not supported",
    ),
    (
        "pattern eth / end actions drop / end",
        "5 (ATTR_INGRESS): ingress is required",
    ),
    (
        "ingress pattern eth / end actions queue index 2 / end",
        "15 (ACTION_CONF): action 0: bad value",
    ),
    (
        "ingress pattern eth / end actions drop / queue index 0 / end",
        "16 (ACTION): action 1: second fate",
    ),
    (
        "ingress group 1 pattern eth / end actions void / jump group 0 / end",
        "15 (ACTION_CONF): action 1: bad value",
    ),
    (
        "ingress group 1 pattern eth / end actions jump group 1 / end",
        "15 (ACTION_CONF): action 0: bad value",
    ),
    (
        "ingress pattern eth / udp / end actions queue index 1 / end",
        "13 (ITEM): item 1: does not follow the item before it",
    ),
    (
        "ingress pattern vxlan / ipv4 / end actions queue index 1 / end",
        "13 (ITEM): item 1: does not follow the item before it",
    ),
    (
        "ingress pattern void / eth / void / vlan / vlan / vlan / end actions queue index 1 / end",
        "13 (ITEM): item 5: does not follow the item before it",
    ),
    (
        "ingress pattern ipv4 src mask 255.0.0.0 / end actions queue index 1 / end",
        "10 (ITEM_SPEC): item 0: last or mask without spec",
    ),
    (
        "ingress pattern ipv4 ttl spec 9 ttl last 5 ttl mask 255 / end actions queue index 1 / end",
        "11 (ITEM_LAST): item 0: last below spec",
    ),
    (
        "ingress pattern void / void / void / void / void / void / void / void / void / void / void / void / void / void / void / void / void / end actions queue index 1 / end",
        "9 (ITEM_NUM): more than 16 items",
    ),
];

/// A script that asks for a rule by `validate` and by `create`, and its transcript where both are refused alike.
fn refusal(alloc: Global, rule: &str, fault: &str) -> Result<(String, String), AllocError> {
    let script = format!(in alloc; "flow validate 0 {rule}\nflow create 0 {rule}\n")?;
    let transcript = format!(in alloc;
        "shell 1.1: Caught error type {fault}\nshell 2.1: Caught error type {fault}\ntotal received 0 dropped 0 queues 0,0\n"
    )?;
    Ok((script, transcript))
}

#[test]
fn rules_are_refused_at_their_first_fault(rt: HostRuntime) -> Result<(), AllocError> {
    for (rule, fault) in &FAULTS {
        let (script, transcript) = refusal(rt.alloc(), rule, fault)?;
        let row = Row::done(rule, &TWO_QUEUES, &script, &[], &transcript);
        expect(&rt, rt.alloc(), &row);
    }
    Ok(())
}
