//! Lists of items in lines, and the patterns that they make.
use crate::shown::each_item_list_says;
use std::test::Fail;

static EACH_ITEM_ENDS_WITH_A_SLASH_AND_ALL_WITH_END: [(&[u8], &str); 24] = [
    (b"end", "create 0"),
    (b"void / end", "create 0, void"),
    (b"void / void / end", "create 0, void, void"),
    (
        b"eth / vlan / ipv4 / ipv6 / tcp / udp / vxlan / end",
        "create 0, eth, vlan, ipv4, ipv6, tcp, udp, vxlan",
    ),
    (b"udp / eth / end", "create 0, udp, eth"),
    (b"vlan / vlan / vlan / end", "create 0, vlan, vlan, vlan"),
    (b"eth end", "bad"),
    (b"eth /", "bad"),
    (b"eth", "bad"),
    (b"/ end", "bad"),
    (b"eth / / end", "bad"),
    (b"eth / end end", "bad"),
    (b"eth / end / end", "bad"),
    (b"eth /end", "bad"),
    (b"eth/ end", "bad"),
    (b"eth ipv4 / end", "bad"),
    (b"Eth / end", "bad"),
    (b"ETH / end", "bad"),
    (b"ip / end", "bad"),
    (b"eth / sctp / end", "bad"),
    (b"void dst is 1 / end", "bad"),
    (b"void void / end", "bad"),
    (b"0 / end", "bad"),
    (b"# / end", "bad"),
];

#[test]
fn each_item_ends_with_a_slash_and_all_with_end(rt: HostRuntime) -> Result<(), Fail> {
    each_item_list_says(
        &rt,
        rt.alloc(),
        &EACH_ITEM_ENDS_WITH_A_SLASH_AND_ALL_WITH_END,
    )
}

static ITEMS_BEHIND_THE_FIRST_16_ARE_COUNTED: [(&[u8], &str); 4] = [
    (
        b"eth / eth / eth / eth / eth / eth / eth / eth / eth / eth / eth / eth / eth / eth / eth / tcp / end",
        "create 0, eth, eth, eth, eth, eth, eth, eth, eth, eth, eth, eth, eth, eth, eth, eth, tcp",
    ),
    (
        b"eth / eth / eth / eth / eth / eth / eth / eth / eth / eth / eth / eth / eth / eth / eth / eth / tcp / end",
        "create 0, eth, eth, eth, eth, eth, eth, eth, eth, eth, eth, eth, eth, eth, eth, eth, eth, 1 more",
    ),
    (
        b"eth / eth / eth / eth / eth / eth / eth / eth / eth / eth / eth / eth / eth / eth / eth / eth / tcp / void / end",
        "create 0, eth, eth, eth, eth, eth, eth, eth, eth, eth, eth, eth, eth, eth, eth, eth, eth, 2 more",
    ),
    (
        b"eth / eth / eth / eth / eth / eth / eth / eth / eth / eth / eth / eth / eth / eth / eth / eth / tcp src is 65536 / end",
        "bad",
    ),
];

#[test]
fn items_behind_the_first_16_are_counted(rt: HostRuntime) -> Result<(), Fail> {
    each_item_list_says(&rt, rt.alloc(), &ITEMS_BEHIND_THE_FIRST_16_ARE_COUNTED)
}

static EACH_FIELD_HAS_ITS_WORD: [(&[u8], &str); 27] = [
    (
        b"eth dst spec 2:0:0:0:0:1 / end",
        "create 0, eth spec 0=20000000001",
    ),
    (
        b"eth src spec 2:0:0:0:0:1 / end",
        "create 0, eth spec 1=20000000001",
    ),
    (b"eth type spec 0x806 / end", "create 0, eth spec 2=806"),
    (b"eth has_vlan spec 1 / end", "create 0, eth spec 3=1"),
    (b"vlan pcp spec 5 / end", "create 0, vlan spec 0=5"),
    (b"vlan dei spec 1 / end", "create 0, vlan spec 1=1"),
    (b"vlan vid spec 100 / end", "create 0, vlan spec 2=64"),
    (
        b"vlan inner_type spec 2048 / end",
        "create 0, vlan spec 3=800",
    ),
    (
        b"vlan has_more_vlan spec 1 / end",
        "create 0, vlan spec 4=1",
    ),
    (b"ipv4 tos spec 1 / end", "create 0, ipv4 spec 0=1"),
    (b"ipv4 ttl spec 64 / end", "create 0, ipv4 spec 1=40"),
    (b"ipv4 proto spec 17 / end", "create 0, ipv4 spec 2=11"),
    (
        b"ipv4 src spec 10.1.2.3 / end",
        "create 0, ipv4 spec 3=a010203",
    ),
    (
        b"ipv4 dst spec 10.1.2.4 / end",
        "create 0, ipv4 spec 4=a010204",
    ),
    (b"ipv6 tc spec 2 / end", "create 0, ipv6 spec 0=2"),
    (b"ipv6 flow spec 3 / end", "create 0, ipv6 spec 1=3"),
    (b"ipv6 proto spec 6 / end", "create 0, ipv6 spec 2=6"),
    (b"ipv6 hop spec 255 / end", "create 0, ipv6 spec 3=ff"),
    (b"ipv6 src spec ::1 / end", "create 0, ipv6 spec 4=1"),
    (b"ipv6 dst spec ::2 / end", "create 0, ipv6 spec 5=2"),
    (b"tcp src spec 80 / end", "create 0, tcp spec 0=50"),
    (b"tcp dst spec 81 / end", "create 0, tcp spec 1=51"),
    (b"tcp flags spec 0x12 / end", "create 0, tcp spec 2=12"),
    (b"udp src spec 53 / end", "create 0, udp spec 0=35"),
    (b"udp dst spec 4789 / end", "create 0, udp spec 1=12b5"),
    (b"vxlan vni spec 5 / end", "create 0, vxlan spec 0=5"),
    (
        b"vlan tci spec 0x2064 / end",
        "create 0, vlan spec 0=1 2=64",
    ),
];

#[test]
fn each_field_has_its_word(rt: HostRuntime) -> Result<(), Fail> {
    each_item_list_says(&rt, rt.alloc(), &EACH_FIELD_HAS_ITS_WORD)
}

static WORDS_OF_OTHER_KINDS: [(&[u8], &str); 12] = [
    (b"eth vid is 1 / end", "bad"),
    (b"eth tci is 1 / end", "bad"),
    (b"vlan type is 1 / end", "bad"),
    (b"vlan dst is 2:0:0:0:0:1 / end", "bad"),
    (b"ipv4 tc is 1 / end", "bad"),
    (b"ipv6 tos is 1 / end", "bad"),
    (b"udp flags is 1 / end", "bad"),
    (b"vxlan dst is 1 / end", "bad"),
    (b"ipv4 SRC is 1.2.3.4 / end", "bad"),
    (b"ipv4 source is 1.2.3.4 / end", "bad"),
    (b"tcp 0 is 1 / end", "bad"),
    (b"tcp is 1 / end", "bad"),
];

#[test]
fn a_word_of_another_kind_is_bad(rt: HostRuntime) -> Result<(), Fail> {
    each_item_list_says(&rt, rt.alloc(), &WORDS_OF_OTHER_KINDS)
}
