//! The words of actions with values and lists, and what they say.
use crate::shown::{shown_actions, text_of};
use std::test::Fail;

static EACH_ACTION_IS_READ: [(&[u8], &str); 56] = [
    (b"mark / end", "create mark 0"),
    (b"mark id 7 / end", "create mark 7"),
    (
        b"mark id 7 id 8 / mark id 0xffffffff / end",
        "create mark 8 mark 4294967295",
    ),
    (b"mark id 4294967296 / end", "bad"),
    (b"mark 7 / end", "bad"),
    (b"mark id / end", "bad"),
    (b"rss / end", "create rss 63 of"),
    (
        b"rss queues 0 1 65535 end / end",
        "create rss 63 of 0 1 65535",
    ),
    (b"rss queues 65536 end / end", "bad"),
    (b"rss queues end / end", "create rss 63 of"),
    (
        b"rss queues 1 end queues 3 2 end / end",
        "create rss 63 of 3 2",
    ),
    (b"rss queues 1 end queues end / end", "create rss 63 of 1"),
    (
        b"rss queues 1 1 1 1 1 1 1 1 1 1 1 1 1 1 1 2 end / end",
        "create rss 63 of 1 1 1 1 1 1 1 1 1 1 1 1 1 1 1 2",
    ),
    (
        b"rss queues 1 1 1 1 1 1 1 1 1 1 1 1 1 1 1 1 2 end / end",
        "bad",
    ),
    (b"rss queues 1 / end", "bad"),
    (b"rss queues 1 end end / end", "bad"),
    (b"rss 1 / end", "bad"),
    (b"rss types end / end", "create rss 0 of"),
    (
        b"rss types ipv4 end / rss types ipv4-tcp end / rss types ipv4-udp end / end",
        "create rss 1 of rss 2 of rss 4 of",
    ),
    (
        b"rss types ipv6 end / rss types ipv6-tcp end / rss types ipv6-udp end / end",
        "create rss 8 of rss 16 of rss 32 of",
    ),
    (
        b"rss types ipv6-udp ipv4 ipv4 end queues 2 end / end",
        "create rss 33 of 2",
    ),
    (
        b"rss types ipv4 end types ipv6 end / end",
        "create rss 8 of",
    ),
    (b"rss types ip end / end", "bad"),
    (b"rss types ipv4 / end", "bad"),
    (
        b"set_mac_src mac_addr 1:2:3:4:5:6 / end",
        "create MacSrc(1108152157446)",
    ),
    (
        b"set_mac_dst mac_addr ff:FF:ff:ff:ff:ff / end",
        "create MacDst(281474976710655)",
    ),
    (b"set_mac_src mac_addr 5 / end", "bad"),
    (
        b"set_mac_src / set_mac_dst / end",
        "create MacSrc(0) MacDst(0)",
    ),
    (
        b"set_ipv4_src ipv4_addr 10.9.9.9 / end",
        "create Ipv4Src(168364297)",
    ),
    (
        b"set_ipv4_dst ipv4_addr 255.255.255.255 / end",
        "create Ipv4Dst(4294967295)",
    ),
    (b"set_ipv4_src ipv4_addr ::1 / end", "bad"),
    (b"set_ipv4_src ipv6_addr ::1 / end", "bad"),
    (b"set_ipv6_src ipv6_addr ::1 / end", "create Ipv6Src(1)"),
    (
        b"set_ipv6_dst ipv6_addr ffff:ffff:ffff:ffff:ffff:ffff:ffff:ffff / end",
        "create Ipv6Dst(340282366920938463463374607431768211455)",
    ),
    (b"set_ipv6_src ipv6_addr 10.1.2.3 / end", "bad"),
    (
        b"set_tp_src port 2001 / set_tp_dst port 65535 / end",
        "create PortSrc(2001) PortDst(65535)",
    ),
    (b"set_tp_src port 65536 / end", "bad"),
    (b"dec_ttl / end", "create DecTtl"),
    (b"dec_ttl 1 / end", "bad"),
    (
        b"set_ttl ttl_value 9 / set_ttl ttl_value 255 / end",
        "create SetTtl(9) SetTtl(255)",
    ),
    (b"set_ttl ttl_value 256 / end", "bad"),
    (
        b"of_set_vlan_vid vlan_vid 4096 / of_set_vlan_vid vlan_vid 65535 / end",
        "create SetVid(4096) SetVid(65535)",
    ),
    (b"of_set_vlan_vid vlan_vid 65536 / end", "bad"),
    (b"count / end", "create count"),
    (b"count / count / end", "create count count"),
    (b"count 1 / end", "bad"),
    (b"count id 1 / end", "bad"),
    (b"indirect 5 / end", "create indirect 5"),
    (
        b"indirect 0xffff / indirect 0 / end",
        "create indirect 65535 indirect 0",
    ),
    (b"indirect 65536 / end", "bad"),
    (b"indirect / end", "bad"),
    (b"indirect id 5 / end", "bad"),
    (b"indirect 5 6 / end", "bad"),
    (b"indirect 5 indirect 6 / end", "bad"),
    (b"indirect 5 id 6 / end", "bad"),
    (
        b"count / indirect 3 / queue index 1 / end",
        "create count indirect 3 1",
    ),
];

#[test]
fn each_action_is_read(rt: HostRuntime) -> Result<(), Fail> {
    for (actions, want) in &EACH_ACTION_IS_READ {
        let found = shown_actions(rt.alloc(), actions)?;
        assert_eq!(&rt; found.as_str(), *want, "at {}", text_of(actions));
    }
    Ok(())
}
