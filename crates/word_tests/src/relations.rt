//! Relations of fields in lines, and the specs, lasts and masks that they make.
use crate::shown::each_item_list_says;
use std::test::Fail;

static EACH_RELATION_SETS_ITS_PART: [(&[u8], &str); 24] = [
    (
        b"udp dst is 53 / end",
        "create 0, udp spec 1=35 mask 1=ffff",
    ),
    (b"udp dst spec 53 / end", "create 0, udp spec 1=35"),
    (b"udp dst last 53 / end", "create 0, udp last 1=35"),
    (b"udp dst mask 53 / end", "create 0, udp mask 1=35"),
    (b"udp dst prefix 4 / end", "create 0, udp mask 1=f000"),
    (b"udp dst spec 0 / end", "create 0, udp spec"),
    (b"udp dst last 0 / end", "create 0, udp last"),
    (b"udp dst mask 0 / end", "create 0, udp mask"),
    (b"udp dst is 0 / end", "create 0, udp spec mask 1=ffff"),
    (
        b"udp src is 1 dst is 2 / end",
        "create 0, udp spec 0=1 1=2 mask 0=ffff 1=ffff",
    ),
    (
        b"udp src spec 1 dst last 2 / end",
        "create 0, udp spec 0=1 last 1=2",
    ),
    (
        b"udp dst spec 1 dst last 9 dst mask 0xff / end",
        "create 0, udp spec 1=1 last 1=9 mask 1=ff",
    ),
    (b"udp dst spec 1 dst spec 2 / end", "create 0, udp spec 1=2"),
    (
        b"udp dst is 1 dst is 2 / end",
        "create 0, udp spec 1=2 mask 1=ffff",
    ),
    (
        b"udp dst is 1 dst mask 0xf0 / end",
        "create 0, udp spec 1=1 mask 1=f0",
    ),
    (
        b"udp dst mask 0xf0 dst is 1 / end",
        "create 0, udp spec 1=1 mask 1=ffff",
    ),
    (
        b"udp dst prefix 8 dst is 1 / end",
        "create 0, udp spec 1=1 mask 1=ffff",
    ),
    (
        b"udp dst is 1 dst prefix 8 / end",
        "create 0, udp spec 1=1 mask 1=ff00",
    ),
    (b"udp dst last 3 dst last 0 / end", "create 0, udp last"),
    (b"udp dst / end", "bad"),
    (b"udp dst is / end", "bad"),
    (b"udp dst 53 / end", "bad"),
    (b"udp dst eq 53 / end", "bad"),
    (b"udp dst Is 53 / end", "bad"),
];

#[test]
fn each_relation_sets_its_part(rt: HostRuntime) -> Result<(), Fail> {
    each_item_list_says(&rt, rt.alloc(), &EACH_RELATION_SETS_ITS_PART)
}

static A_VALUE_FITS_ITS_WIDTH: [(&[u8], &str); 26] = [
    (
        b"eth has_vlan is 1 / end",
        "create 0, eth spec 3=1 mask 3=1",
    ),
    (b"eth has_vlan is 2 / end", "bad"),
    (
        b"vlan has_more_vlan is 0 / end",
        "create 0, vlan spec mask 4=1",
    ),
    (b"vlan has_more_vlan is 2 / end", "bad"),
    (b"vlan pcp is 7 / end", "create 0, vlan spec 0=7 mask 0=7"),
    (b"vlan pcp is 8 / end", "bad"),
    (b"vlan dei is 1 / end", "create 0, vlan spec 1=1 mask 1=1"),
    (b"vlan dei is 2 / end", "bad"),
    (
        b"ipv4 ttl is 255 / end",
        "create 0, ipv4 spec 1=ff mask 1=ff",
    ),
    (b"ipv4 ttl is 256 / end", "bad"),
    (
        b"vlan vid is 4095 / end",
        "create 0, vlan spec 2=fff mask 2=fff",
    ),
    (b"vlan vid is 4096 / end", "bad"),
    (b"vlan vid is 0x1064 / end", "bad"),
    (
        b"eth type is 65535 / end",
        "create 0, eth spec 2=ffff mask 2=ffff",
    ),
    (b"eth type is 65536 / end", "bad"),
    (
        b"ipv6 flow is 1048575 / end",
        "create 0, ipv6 spec 1=fffff mask 1=fffff",
    ),
    (b"ipv6 flow is 1048576 / end", "bad"),
    (
        b"vxlan vni is 16777215 / end",
        "create 0, vxlan spec 0=ffffff mask 0=ffffff",
    ),
    (b"vxlan vni is 16777216 / end", "bad"),
    (b"udp dst last 65535 / end", "create 0, udp last 1=ffff"),
    (b"udp dst last 65536 / end", "bad"),
    (b"udp dst mask 65536 / end", "bad"),
    (b"udp dst spec 0x0035 / end", "create 0, udp spec 1=35"),
    (b"udp dst spec 0053 / end", "bad"),
    (
        b"tcp flags is 0xFf / end",
        "create 0, tcp spec 2=ff mask 2=ff",
    ),
    (
        b"tcp flags is 340282366920938463463374607431768211474 / end",
        "bad",
    ),
];

#[test]
fn a_value_fits_its_width(rt: HostRuntime) -> Result<(), Fail> {
    each_item_list_says(&rt, rt.alloc(), &A_VALUE_FITS_ITS_WIDTH)
}

static A_PREFIX_SETS_THE_MOST_SIGNIFICANT_BITS: [(&[u8], &str); 22] = [
    (b"udp dst prefix 0 / end", "create 0, udp mask"),
    (b"udp dst prefix 1 / end", "create 0, udp mask 1=8000"),
    (b"udp dst prefix 15 / end", "create 0, udp mask 1=fffe"),
    (b"udp dst prefix 16 / end", "create 0, udp mask 1=ffff"),
    (b"udp dst prefix 0x10 / end", "create 0, udp mask 1=ffff"),
    (b"udp dst prefix 17 / end", "bad"),
    (b"udp dst prefix 272 / end", "bad"),
    (b"udp dst prefix 04 / end", "bad"),
    (b"eth has_vlan prefix 1 / end", "create 0, eth mask 3=1"),
    (b"eth has_vlan prefix 2 / end", "bad"),
    (b"vlan pcp prefix 2 / end", "create 0, vlan mask 0=6"),
    (b"vlan vid prefix 4 / end", "create 0, vlan mask 2=f00"),
    (b"vlan vid prefix 13 / end", "bad"),
    (
        b"eth dst prefix 24 / end",
        "create 0, eth mask 0=ffffff000000",
    ),
    (b"eth dst prefix 49 / end", "bad"),
    (b"ipv4 dst prefix 8 / end", "create 0, ipv4 mask 4=ff000000"),
    (b"ipv4 dst prefix 33 / end", "bad"),
    (b"ipv4 dst prefix 255.0.0.0 / end", "bad"),
    (
        b"ipv6 dst prefix 64 dst spec fe80:: / end",
        "create 0, ipv6 spec 5=fe800000000000000000000000000000 mask 5=ffffffffffffffff0000000000000000",
    ),
    (
        b"ipv6 dst prefix 128 / end",
        "create 0, ipv6 mask 5=ffffffffffffffffffffffffffffffff",
    ),
    (b"ipv6 dst prefix 129 / end", "bad"),
    (
        b"ipv6 dst prefix 340282366920938463463374607431768211456 / end",
        "bad",
    ),
];

#[test]
fn a_prefix_sets_the_most_significant_bits(rt: HostRuntime) -> Result<(), Fail> {
    each_item_list_says(&rt, rt.alloc(), &A_PREFIX_SETS_THE_MOST_SIGNIFICANT_BITS)
}

static TCI_SETS_THREE_FIELDS_AT_ONCE: [(&[u8], &str); 12] = [
    (
        b"vlan tci is 0x2064 / end",
        "create 0, vlan spec 0=1 2=64 mask 0=7 1=1 2=fff",
    ),
    (
        b"vlan tci is 65535 / end",
        "create 0, vlan spec 0=7 1=1 2=fff mask 0=7 1=1 2=fff",
    ),
    (b"vlan tci is 65536 / end", "bad"),
    (b"vlan tci spec 0x1000 / end", "create 0, vlan spec 1=1"),
    (b"vlan tci last 0xe001 / end", "create 0, vlan last 0=7 2=1"),
    (b"vlan tci mask 0x0fff / end", "create 0, vlan mask 2=fff"),
    (b"vlan tci prefix 3 / end", "create 0, vlan mask 0=7"),
    (
        b"vlan tci prefix 5 / end",
        "create 0, vlan mask 0=7 1=1 2=800",
    ),
    (
        b"vlan tci prefix 16 / end",
        "create 0, vlan mask 0=7 1=1 2=fff",
    ),
    (b"vlan tci prefix 17 / end", "bad"),
    (
        b"vlan tci spec 0x2064 vid spec 5 / end",
        "create 0, vlan spec 0=1 2=5",
    ),
    (
        b"vlan pcp spec 7 tci spec 0x0064 / end",
        "create 0, vlan spec 2=64",
    ),
];

#[test]
fn tci_sets_three_fields_at_once(rt: HostRuntime) -> Result<(), Fail> {
    each_item_list_says(&rt, rt.alloc(), &TCI_SETS_THREE_FIELDS_AT_ONCE)
}

static A_FIELD_TAKES_ITS_OWN_FORM_ALONE: [(&[u8], &str); 18] = [
    (
        b"eth dst is 2:0:0:0:0:1 / end",
        "create 0, eth spec 0=20000000001 mask 0=ffffffffffff",
    ),
    (
        b"eth src mask ff:ff:ff:0:0:0 / end",
        "create 0, eth mask 1=ffffff000000",
    ),
    (b"eth dst is 2199023255553 / end", "bad"),
    (b"eth dst is 10.1.2.3 / end", "bad"),
    (b"eth dst is ::1 / end", "bad"),
    (
        b"ipv4 src is 10.1.2.3 / end",
        "create 0, ipv4 spec 3=a010203 mask 3=ffffffff",
    ),
    (
        b"ipv4 src spec 10.1.2.3 src last 10.3.4.5 src mask 255.255.0.0 / end",
        "create 0, ipv4 spec 3=a010203 last 3=a030405 mask 3=ffff0000",
    ),
    (b"ipv4 src is 167838211 / end", "bad"),
    (b"ipv4 src is 0x0a010203 / end", "bad"),
    (b"ipv4 src is ::a01:203 / end", "bad"),
    (b"ipv4 src mask 0xffff0000 / end", "bad"),
    (
        b"ipv6 src is 2001:db8::1 / end",
        "create 0, ipv6 spec 4=20010db8000000000000000000000001 mask 4=ffffffffffffffffffffffffffffffff",
    ),
    (b"ipv6 src is 1 / end", "bad"),
    (b"ipv6 src is 10.1.2.3 / end", "bad"),
    (b"ipv6 src is ::ffff:10.1.2.3 / end", "bad"),
    (b"ipv6 flow is ::1 / end", "bad"),
    (b"udp dst is 0.0.0.53 / end", "bad"),
    (b"vxlan vni is 0:0:5 / end", "bad"),
];

#[test]
fn a_field_takes_its_own_form_alone(rt: HostRuntime) -> Result<(), Fail> {
    each_item_list_says(&rt, rt.alloc(), &A_FIELD_TAKES_ITS_OWN_FORM_ALONE)
}
