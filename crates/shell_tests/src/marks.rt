//! Marks, edits of headers, and queues chosen by a hash.
use crate::run::{FOUR_QUEUES, ONE_QUEUE, THREE_QUEUES, TWO_QUEUES, Told, expect_told};
use std::alloc::{AllocError, Global};
use test_frames::{
    DOUBLE_TAGGED_UDP_FRAME, IPV6_FRAME, RSS_CHECK_FRAME, RUNT_FRAME, TAGGED_UDP_FRAME, UDP_FRAME,
    VXLAN_FRAME,
};

const ROWS: [Told<'static>; 9] = [
    (
        "a pattern without items marks a frame of 13 bytes too",
        &TWO_QUEUES,
        "flow create 0 ingress pattern eth / end actions queue index 1 / end
forward 1
stop
flow create 0 ingress pattern end actions mark id 7 / end
start
stop
",
        &[(&RUNT_FRAME, &[]), (&RUNT_FRAME, &[])],
        "shell 1.1: Flow rule #0 created
shell 2.1: Packet forwarding started
worker0 #1: queue 0 mark - hash - path -
shell 3.1: Packet forwarding stopped: received 1 dropped 0 queues 1,0
shell 4.1: Flow rule #1 created
shell 5.1: Packet forwarding started
worker0 #2: queue 0 mark 7 hash - path 1
shell 6.1: Packet forwarding stopped: received 2 dropped 0 queues 2,0
total received 2 dropped 0 queues 2,0
",
    ),
    (
        "a mark stays over jumps, and a later one replaces it",
        &ONE_QUEUE,
        "flow create 0 ingress pattern eth / end actions mark id 7 / jump group 1 / end
flow create 0 group 1 ingress pattern vlan / end actions mark id 8 / mark id 4294967295 / drop / end
flow create 0 group 1 priority 1 ingress pattern vxlan / end actions mark / end
start
stop
",
        &[
            (&UDP_FRAME, &[]),
            (&TAGGED_UDP_FRAME, &[]),
            (&VXLAN_FRAME, &[]),
        ],
        "shell 1.1: Flow rule #0 created
shell 2.1: Flow rule #1 created
shell 3.1: Flow rule #2 created
shell 4.1: Packet forwarding started
worker0 #1: queue 0 mark 7 hash - path 0
worker0 #2: drop mark 4294967295 hash - path 0,1
worker0 #3: queue 0 mark 0 hash - path 0,2
shell 5.1: Packet forwarding stopped: received 3 dropped 1 queues 2
total received 3 dropped 1 queues 2
",
    ),
    (
        "a hash is of addresses and ports, of addresses, or of nothing, as the types say",
        &FOUR_QUEUES,
        "flow create 0 ingress pattern eth / end actions rss queues 0 1 2 3 end / end
forward 1
stop
flow flush 0
flow create 0 ingress pattern eth / end actions rss queues 0 1 2 3 end types ipv4 end / end
forward 1
stop
flow flush 0
flow create 0 ingress pattern eth / end actions rss queues 3 1 end types ipv6 end / end
forward 1
stop
",
        &[
            (&RSS_CHECK_FRAME, &[]),
            (&RSS_CHECK_FRAME, &[]),
            (&RSS_CHECK_FRAME, &[]),
        ],
        "shell 1.1: Flow rule #0 created
shell 2.1: Packet forwarding started
worker0 #1: queue 0 mark - hash 51ccc178 path 0
shell 3.1: Packet forwarding stopped: received 1 dropped 0 queues 1,0,0,0
shell 4.1: Flow rules flushed
shell 5.1: Flow rule #1 created
shell 6.1: Packet forwarding started
worker0 #2: queue 2 mark - hash 323e8fc2 path 1
shell 7.1: Packet forwarding stopped: received 2 dropped 0 queues 1,0,1,0
shell 8.1: Flow rules flushed
shell 9.1: Flow rule #2 created
shell 10.1: Packet forwarding started
worker0 #3: queue 3 mark - hash 00000000 path 2
shell 11.1: Packet forwarding stopped: received 3 dropped 0 queues 1,0,1,1
total received 3 dropped 0 queues 1,0,1,1
",
    ),
    (
        "without queues a hash chooses among all, and it is of the headers in front of vxlan",
        &THREE_QUEUES,
        "flow create 0 ingress pattern end actions rss / end
start
stop
",
        &[
            (&UDP_FRAME, &[]),
            (&VXLAN_FRAME, &[]),
            (&IPV6_FRAME, &[]),
            (&RUNT_FRAME, &[]),
        ],
        "shell 1.1: Flow rule #0 created
shell 2.1: Packet forwarding started
worker0 #1: queue 0 mark - hash b9cee510 path 0
worker0 #2: queue 1 mark - hash e237b360 path 0
worker0 #3: queue 1 mark - hash 7002be18 path 0
worker0 #4: queue 0 mark - hash 00000000 path 0
shell 3.1: Packet forwarding stopped: received 4 dropped 0 queues 2,2,0
total received 4 dropped 0 queues 2,2,0
",
    ),
    (
        "a hash is of the headers as the edits before it left them",
        &ONE_QUEUE,
        "flow create 0 ingress pattern udp / end actions set_tp_src port 2001 / rss / set_tp_src port 9 / end
forward 1
stop
flow flush 0
flow create 0 ingress pattern udp / end actions rss / set_tp_src port 2001 / end
start
stop
",
        &[(&UDP_FRAME, &[]), (&UDP_FRAME, &[])],
        "shell 1.1: Flow rule #0 created
shell 2.1: Packet forwarding started
worker0 #1: queue 0 mark - hash 2b5044c1 path 0
shell 3.1: Packet forwarding stopped: received 1 dropped 0 queues 1
shell 4.1: Flow rules flushed
shell 5.1: Flow rule #1 created
shell 6.1: Packet forwarding started
worker0 #2: queue 0 mark - hash b9cee510 path 1
shell 7.1: Packet forwarding stopped: received 2 dropped 0 queues 2
total received 2 dropped 0 queues 2
",
    ),
    (
        "a VLAN id is set in the first tag, and a later group sees it with the bits beside it",
        &ONE_QUEUE,
        "flow create 0 ingress pattern vlan / end actions of_set_vlan_vid vlan_vid 9 / jump group 1 / end
flow create 0 group 1 ingress pattern vlan tci is 0x2009 / ipv4 / end actions mark id 1 / end
flow create 0 group 1 ingress pattern vlan tci is 9 / vlan tci is 0x2064 / end actions mark id 2 / end
start
stop
",
        &[
            (&UDP_FRAME, &[]),
            (&TAGGED_UDP_FRAME, &[]),
            (&DOUBLE_TAGGED_UDP_FRAME, &[]),
        ],
        "shell 1.1: Flow rule #0 created
shell 2.1: Flow rule #1 created
shell 3.1: Flow rule #2 created
shell 4.1: Packet forwarding started
worker0 #1: queue 0 mark - hash - path -
worker0 #2: queue 0 mark 1 hash - path 0,1
worker0 #3: queue 0 mark 2 hash - path 0,2
shell 5.1: Packet forwarding stopped: received 3 dropped 0 queues 3
total received 3 dropped 0 queues 3
",
    ),
    (
        "a TTL is set, falls by one and stays at 0, and inner headers stay as they are",
        &ONE_QUEUE,
        "flow create 0 ingress pattern vlan / ipv4 / end actions set_ttl ttl_value 1 / dec_ttl / dec_ttl / jump group 1 / end
flow create 0 priority 1 ingress pattern ipv4 / end actions dec_ttl / jump group 1 / end
flow create 0 group 1 ingress pattern ipv4 ttl is 63 / udp / vxlan / eth / ipv4 ttl is 64 / end actions mark id 3 / end
flow create 0 group 1 priority 1 ingress pattern ipv4 ttl is 63 / end actions mark id 63 / end
flow create 0 group 1 priority 1 ingress pattern ipv4 ttl is 0 / end actions drop / end
start
stop
",
        &[
            (&UDP_FRAME, &[]),
            (&TAGGED_UDP_FRAME, &[]),
            (&VXLAN_FRAME, &[]),
        ],
        "shell 1.1: Flow rule #0 created
shell 2.1: Flow rule #1 created
shell 3.1: Flow rule #2 created
shell 4.1: Flow rule #3 created
shell 5.1: Flow rule #4 created
shell 6.1: Packet forwarding started
worker0 #1: queue 0 mark 63 hash - path 1,3
worker0 #2: drop mark - hash - path 0,4
worker0 #3: queue 0 mark 3 hash - path 1,2
shell 7.1: Packet forwarding stopped: received 3 dropped 1 queues 2
total received 3 dropped 1 queues 2
",
    ),
    (
        "each kind of frame keeps its mark and its hash behind a longer way",
        &THREE_QUEUES,
        "flow create 0 ingress pattern end actions mark id 5 / jump group 1 / end
flow create 0 group 1 ingress pattern end actions jump group 2 / end
flow create 0 group 2 ingress pattern end actions rss queues 2 1 end / end
start
stop
",
        &[
            (&UDP_FRAME, &[]),
            (&TAGGED_UDP_FRAME, &[]),
            (&VXLAN_FRAME, &[]),
            (&IPV6_FRAME, &[]),
            (&RUNT_FRAME, &[]),
        ],
        "shell 1.1: Flow rule #0 created
shell 2.1: Flow rule #1 created
shell 3.1: Flow rule #2 created
shell 4.1: Packet forwarding started
worker0 #1: queue 2 mark 5 hash b9cee510 path 0,1,2
worker0 #2: queue 2 mark 5 hash b9cee510 path 0,1,2
worker0 #3: queue 2 mark 5 hash e237b360 path 0,1,2
worker0 #4: queue 2 mark 5 hash 7002be18 path 0,1,2
worker0 #5: queue 2 mark 5 hash 00000000 path 0,1,2
shell 5.1: Packet forwarding stopped: received 5 dropped 0 queues 0,0,5
total received 5 dropped 0 queues 0,0,5
",
    ),
    (
        "an edit needs its item in front of any vxlan, and each action has its name in a list",
        &TWO_QUEUES,
        "flow create 0 ingress pattern eth / end actions set_ttl ttl_value 9 / end
flow create 0 ingress pattern eth / ipv4 / udp / vxlan / eth / ipv6 / end actions set_ipv6_src ipv6_addr ::1 / end
flow create 0 ingress pattern ipv4 / end actions void / set_tp_dst port 5 / end
flow create 0 ingress pattern ipv4 / end actions set_mac_dst mac_addr 2:0:0:0:0:5 / end
flow create 0 ingress pattern eth / end actions of_set_vlan_vid vlan_vid 4095 / end
flow create 0 ingress pattern vlan / end actions of_set_vlan_vid vlan_vid 4096 / end
flow create 0 ingress pattern end actions mark / rss queues 0 1 2 end / end
flow create 0 ingress pattern end actions drop / rss / end
flow create 0 ingress pattern eth / vlan / ipv4 / tcp / end actions set_mac_src / set_mac_dst / of_set_vlan_vid / set_ipv4_src / set_ipv4_dst / dec_ttl / set_ttl / set_tp_src / set_tp_dst / mark / rss / end
flow create 0 ingress pattern ipv6 / end actions set_ipv6_src / set_ipv6_dst / void / end
flow list 0
",
        &[],
        "shell 1.1: Caught error type 16 (ACTION): action 0: needs an item in the pattern
shell 2.1: Caught error type 16 (ACTION): action 0: needs an item in the pattern
shell 3.1: Caught error type 16 (ACTION): action 1: needs an item in the pattern
shell 4.1: Caught error type 16 (ACTION): action 0: needs an item in the pattern
shell 5.1: Caught error type 16 (ACTION): action 0: needs an item in the pattern
shell 6.1: Caught error type 15 (ACTION_CONF): action 0: bad value
shell 7.1: Caught error type 15 (ACTION_CONF): action 1: bad value
shell 8.1: Caught error type 16 (ACTION): action 1: second fate
shell 9.1: Flow rule #0 created
shell 10.1: Flow rule #1 created
shell 11.1: ID\tGroup\tPrio\tAttr\tRule
0\t0\t0\ti--\tETH VLAN IPV4 TCP => SET_MAC_SRC SET_MAC_DST OF_SET_VLAN_VID SET_IPV4_SRC SET_IPV4_DST DEC_TTL SET_TTL SET_TP_SRC SET_TP_DST MARK RSS
1\t0\t0\ti--\tIPV6 => SET_IPV6_SRC SET_IPV6_DST
total received 0 dropped 0 queues 0,0
",
    ),
];

#[test]
fn frames_are_marked_edited_and_spread(rt: HostRuntime) {
    expect_told(&rt, rt.alloc(), &ROWS);
}
