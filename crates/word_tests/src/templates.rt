//! The forms of templates and tables.
use crate::shown::each_says;
use std::test::Fail;

static PATTERNS: [(&[u8], &str); 30] = [
    (
        b"flow pattern_template 0 create pattern_template_id 1 ingress template eth / ipv4 dst mask 255.255.255.255 / udp / end",
        "pattern 1 create, eth, ipv4 mask 4=ffffffff, udp",
    ),
    (
        b"flow pattern_template 0 create ingress template end",
        "pattern create",
    ),
    (
        b"flow pattern_template 0 create pattern_template_id 0xffff template void / end",
        "pattern 65535 create no-ingress, void",
    ),
    (
        b"flow pattern_template 0 create ingress egress transfer template eth / end",
        "pattern create egress transfer, eth",
    ),
    (
        b"flow pattern_template 0 create ingress template ipv4 src last 10.0.0.1 / end",
        "pattern create, ipv4 last 3=a000001",
    ),
    (
        b"flow pattern_template 0 create pattern_template_id 65536 ingress template eth / end",
        "bad",
    ),
    (
        b"flow pattern_template 0 create pattern_template_id ingress template eth / end",
        "bad",
    ),
    (
        b"flow pattern_template 0 create pattern_template_id 1 pattern_template_id 2 ingress template eth / end",
        "bad",
    ),
    (
        b"flow pattern_template 0 create actions_template_id 1 ingress template eth / end",
        "bad",
    ),
    (
        b"flow pattern_template 0 create ingress pattern_template_id 1 template eth / end",
        "bad",
    ),
    (
        b"flow pattern_template 0 create group 1 ingress template eth / end",
        "bad",
    ),
    (
        b"flow pattern_template 0 create priority 1 ingress template eth / end",
        "bad",
    ),
    (
        b"flow pattern_template 0 create relaxed yes ingress template eth / end",
        "bad",
    ),
    (
        b"flow pattern_template 0 create ingress pattern eth / end",
        "bad",
    ),
    (
        b"flow pattern_template 0 create ingress template eth",
        "bad",
    ),
    (
        b"flow pattern_template 0 create ingress template eth / end end",
        "bad",
    ),
    (
        b"flow pattern_template 0 create ingress template eth / end actions drop / end",
        "bad",
    ),
    (b"flow pattern_template 0 create ingress eth / end", "bad"),
    (b"flow pattern_template 0 create", "bad"),
    (
        b"flow pattern_template 0 destroy pattern_template 1",
        "pattern 1 destroy;",
    ),
    (
        b"flow pattern_template 0 destroy pattern_template 1 pattern_template 0x2 pattern_template 1",
        "pattern 1 destroy;pattern 2 destroy;pattern 1 destroy;",
    ),
    (
        b"flow pattern_template 0 destroy pattern_template 65536",
        "bad",
    ),
    (b"flow pattern_template 0 destroy pattern_template", "bad"),
    (b"flow pattern_template 0 destroy", "bad"),
    (b"flow pattern_template 0 destroy 1", "bad"),
    (
        b"flow pattern_template 0 destroy pattern_template_id 1",
        "bad",
    ),
    (b"flow pattern_template 0 destroy actions_template 1", "bad"),
    (
        b"flow pattern_template 0 destroy pattern_template 1 2",
        "bad",
    ),
    (b"flow pattern_template 0 list", "bad"),
    (b"flow pattern_template 0", "bad"),
];

#[test]
fn a_pattern_template_has_items_and_directions(rt: HostRuntime) -> Result<(), Fail> {
    each_says(&rt, rt.alloc(), &PATTERNS)
}

static ACTIONS: [(&[u8], &str); 35] = [
    (
        b"flow actions_template 0 create actions_template_id 1 ingress template count / queue / end mask count / queue / end",
        "actions 1 create count 0, mask Count Queue",
    ),
    (
        b"flow actions_template 0 create template drop / end mask drop / end",
        "actions create no-ingress drop, mask Drop",
    ),
    (
        b"flow actions_template 0 create ingress template end mask end",
        "actions create, mask",
    ),
    (
        b"flow actions_template 0 create ingress template queue index 3 / end mask queue index 1 / end",
        "actions create 3, mask Queue=",
    ),
    (
        b"flow actions_template 0 create ingress template void / drop / end mask void / drop / void / end",
        "actions create void drop, mask Drop",
    ),
    (
        b"flow actions_template 0 create ingress template mark / jump / end mask mark id 0 / jump group 1 / end",
        "actions create mark 0 jump 0, mask Mark Jump=",
    ),
    (
        b"flow actions_template 0 create ingress template mark id 5 / end mask mark id 9 id 0 / end",
        "actions create mark 5, mask Mark",
    ),
    (
        b"flow actions_template 0 create ingress template indirect 3 / end mask indirect 0 / end",
        "actions create indirect 3, mask Indirect",
    ),
    (
        b"flow actions_template 0 create ingress template indirect 3 / end mask indirect 1 / end",
        "actions create indirect 3, mask Indirect=",
    ),
    (
        b"flow actions_template 0 create ingress template end mask set_ttl ttl_value 1 / dec_ttl / set_tp_src port 0 / set_tp_dst port 80 / end",
        "actions create, mask SetTtl= DecTtl PortSrc PortDst=",
    ),
    (
        b"flow actions_template 0 create ingress template end mask set_mac_src mac_addr 0:0:0:0:0:1 / set_mac_dst / set_ipv4_src ipv4_addr 0.0.0.0 / set_ipv4_dst ipv4_addr 0.0.1.0 / end",
        "actions create, mask MacSrc= MacDst Ipv4Src Ipv4Dst=",
    ),
    (
        b"flow actions_template 0 create ingress template end mask set_ipv6_src ipv6_addr :: / set_ipv6_dst ipv6_addr 1:: / of_set_vlan_vid vlan_vid 4095 / end",
        "actions create, mask Ipv6Src Ipv6Dst= SetVid=",
    ),
    (
        b"flow actions_template 0 create ingress template end mask rss / end",
        "actions create, mask Rss",
    ),
    (
        b"flow actions_template 0 create ingress template end mask rss queues 0 end / end",
        "actions create, mask Rss=",
    ),
    (
        b"flow actions_template 0 create ingress template end mask rss queues end / end",
        "actions create, mask Rss",
    ),
    (
        b"flow actions_template 0 create ingress template end mask rss types end / end",
        "actions create, mask Rss=",
    ),
    (
        b"flow actions_template 0 create ingress template end mask rss types ipv4 ipv4-tcp ipv4-udp ipv6 ipv6-tcp ipv6-udp end / end",
        "actions create, mask Rss=",
    ),
    (
        b"flow actions_template 0 create ingress template rss / end mask drop / end",
        "actions create rss 63 of, mask Drop",
    ),
    (
        b"flow actions_template 0 create ingress template drop / end",
        "bad",
    ),
    (
        b"flow actions_template 0 create ingress template drop / end mask",
        "bad",
    ),
    (
        b"flow actions_template 0 create ingress template drop / end mask drop /",
        "bad",
    ),
    (
        b"flow actions_template 0 create ingress template drop / end mask drop end",
        "bad",
    ),
    (
        b"flow actions_template 0 create ingress template drop / end mask rss queues 0 / end",
        "bad",
    ),
    (
        b"flow actions_template 0 create ingress template drop / end mask queue 1 / end",
        "bad",
    ),
    (
        b"flow actions_template 0 create ingress template drop / end mask indirect / end",
        "bad",
    ),
    (
        b"flow actions_template 0 create ingress template drop / end mask drop / end end",
        "bad",
    ),
    (
        b"flow actions_template 0 create ingress mask drop / end template drop / end",
        "bad",
    ),
    (
        b"flow actions_template 0 create ingress template drop / mask drop / end",
        "bad",
    ),
    (
        b"flow actions_template 0 create actions_template_id 65536 ingress template drop / end mask drop / end",
        "bad",
    ),
    (
        b"flow actions_template 0 create pattern_template_id 1 ingress template drop / end mask drop / end",
        "bad",
    ),
    (
        b"flow actions_template 0 create group 1 ingress template drop / end mask drop / end",
        "bad",
    ),
    (
        b"flow actions_template 0 destroy actions_template 7 actions_template 65535",
        "actions 7 destroy;actions 65535 destroy;",
    ),
    (b"flow actions_template 0 destroy pattern_template 7", "bad"),
    (
        b"flow actions_template 0 destroy actions_template_id 7",
        "bad",
    ),
    (b"flow actions_template 0 destroy actions_template", "bad"),
];

#[test]
fn an_actions_template_has_actions_and_a_mask_list(rt: HostRuntime) -> Result<(), Fail> {
    each_says(&rt, rt.alloc(), &ACTIONS)
}

static TABLES: [(&[u8], &str); 27] = [
    (
        b"flow template_table 0 create table_id 1 group 1 priority 4 ingress rules_number 64 pattern_template 1 actions_template 1",
        "table 1 create group 1 priority 4 for 64 of 1 with 1",
    ),
    (
        b"flow template_table 0 create rules_number 0 pattern_template 0 actions_template 0",
        "table create no-ingress for 0 of 0 with 0",
    ),
    (
        b"flow template_table 0 create ingress priority 1 priority 2 rules_number 0xffffffff pattern_template 1 pattern_template 1 actions_template 2 actions_template 65535",
        "table create priority 2 for 4294967295 of 1 1 with 2 65535",
    ),
    (
        b"flow template_table 0 create ingress rules_number 1 pattern_template 1 pattern_template 2 pattern_template 3 pattern_template 4 pattern_template 5 pattern_template 6 pattern_template 7 pattern_template 8 actions_template 1",
        "table create for 1 of 1 2 3 4 5 6 7 8 with 1",
    ),
    (
        b"flow template_table 0 create ingress rules_number 1 pattern_template 1 pattern_template 2 pattern_template 3 pattern_template 4 pattern_template 5 pattern_template 6 pattern_template 7 pattern_template 8 pattern_template 9 actions_template 1",
        "bad",
    ),
    (
        b"flow template_table 0 create ingress rules_number 1 pattern_template 1 actions_template 1 actions_template 2 actions_template 3 actions_template 4 actions_template 5 actions_template 6 actions_template 7 actions_template 8",
        "table create for 1 of 1 with 1 2 3 4 5 6 7 8",
    ),
    (
        b"flow template_table 0 create ingress rules_number 1 pattern_template 1 actions_template 1 actions_template 2 actions_template 3 actions_template 4 actions_template 5 actions_template 6 actions_template 7 actions_template 8 actions_template 9",
        "bad",
    ),
    (
        b"flow template_table 0 create ingress rules_number 1 actions_template 1 pattern_template 1",
        "bad",
    ),
    (
        b"flow template_table 0 create ingress rules_number 1 pattern_template 1 actions_template 1 pattern_template 2",
        "bad",
    ),
    (
        b"flow template_table 0 create ingress rules_number 1 pattern_template 1",
        "bad",
    ),
    (
        b"flow template_table 0 create ingress rules_number 1 actions_template 1",
        "bad",
    ),
    (
        b"flow template_table 0 create ingress rules_number 1 pattern_template actions_template 1",
        "bad",
    ),
    (
        b"flow template_table 0 create ingress rules_number 1 pattern_template 65536 actions_template 1",
        "bad",
    ),
    (
        b"flow template_table 0 create ingress rules_number 4294967296 pattern_template 1 actions_template 1",
        "bad",
    ),
    (
        b"flow template_table 0 create ingress rules_number pattern_template 1 actions_template 1",
        "bad",
    ),
    (
        b"flow template_table 0 create ingress pattern_template 1 actions_template 1",
        "bad",
    ),
    (
        b"flow template_table 0 create rules_number 1 ingress pattern_template 1 actions_template 1",
        "bad",
    ),
    (
        b"flow template_table 0 create ingress table_id 1 rules_number 1 pattern_template 1 actions_template 1",
        "bad",
    ),
    (
        b"flow template_table 0 create table_id 65536 ingress rules_number 1 pattern_template 1 actions_template 1",
        "bad",
    ),
    (
        b"flow template_table 0 create ingress insertion_type index rules_number 1 pattern_template 1 actions_template 1",
        "bad",
    ),
    (
        b"flow template_table 0 create ingress rules_number 1 pattern_template 1 actions_template 1 1",
        "bad",
    ),
    (
        b"flow template_table 0 destroy table 1 table 2",
        "table 1 destroy;table 2 destroy;",
    ),
    (b"flow template_table 0 destroy table_id 1", "bad"),
    (b"flow template_table 0 destroy template_table 1", "bad"),
    (b"flow template_table 0 destroy table", "bad"),
    (b"flow template_table 0 destroy table 65536", "bad"),
    (b"flow template_table 0 resize table_resize_id 1", "bad"),
];

#[test]
fn a_table_names_one_to_eight_templates_of_each_kind(rt: HostRuntime) -> Result<(), Fail> {
    each_says(&rt, rt.alloc(), &TABLES)
}

static PORTS: [(&[u8], &str); 11] = [
    (
        b"flow pattern_template 1 create ingress template eth / end",
        "port",
    ),
    (
        b"flow pattern_template 4294967295 destroy pattern_template 1",
        "port",
    ),
    (
        b"flow pattern_template 4294967296 destroy pattern_template 1",
        "bad",
    ),
    (
        b"flow pattern_template 1 create ingress template eth",
        "bad",
    ),
    (
        b"flow pattern_template create ingress template eth / end",
        "bad",
    ),
    (
        b"flow actions_template 1 create ingress template drop / end mask drop / end",
        "port",
    ),
    (
        b"flow actions_template 2 destroy actions_template 1",
        "port",
    ),
    (
        b"flow template_table 1 create ingress rules_number 0 pattern_template 1 actions_template 1",
        "port",
    ),
    (b"flow template_table 9 destroy table 1", "port"),
    (b"flow template_table", "bad"),
    (b"flow templates_table 0 destroy table 1", "bad"),
];

#[test]
fn another_port_than_the_first_is_told(rt: HostRuntime) -> Result<(), Fail> {
    each_says(&rt, rt.alloc(), &PORTS)
}
