//! Forms of lines, and what each asks for.
use crate::shown::each_says;
use std::test::Fail;

static ATTRIBUTES: [(&[u8], &str); 12] = [
    (
        b"flow create 0 group 3 priority 7 ingress pattern end actions drop / end",
        "create drop group 3 priority 7",
    ),
    (
        b"flow create 0 priority 7 group 3 ingress group 0x10 pattern end actions drop / end",
        "create drop group 16 priority 7",
    ),
    (
        b"flow create 0 group 4294967295 ingress pattern end actions drop / end",
        "create drop group 4294967295",
    ),
    (
        b"flow create 0 group 4294967296 ingress pattern end actions drop / end",
        "bad",
    ),
    (
        b"flow create 0 priority 4294967295 ingress pattern end actions drop / end",
        "create drop priority 4294967295",
    ),
    (
        b"flow create 0 priority 4294967296 ingress pattern end actions drop / end",
        "bad",
    ),
    (
        b"flow create 0 group ingress pattern end actions drop / end",
        "bad",
    ),
    (b"flow create 0 group pattern end actions drop / end", "bad"),
    (
        b"flow create 0 transfer egress pattern end actions drop / end",
        "create drop no-ingress egress transfer",
    ),
    (
        b"flow create 0 pattern pattern end actions drop / end",
        "bad",
    ),
    (
        b"flow create 0 Ingress pattern end actions drop / end",
        "bad",
    ),
    (b"flow create 0 ingress pattern", "bad"),
];

#[test]
fn attributes_stand_in_any_order_and_later_numbers_count(rt: HostRuntime) -> Result<(), Fail> {
    each_says(&rt, rt.alloc(), &ATTRIBUTES)
}

static ACTIONS: [(&[u8], &str); 20] = [
    (b"flow create 0 ingress pattern end actions end", "create"),
    (
        b"flow create 0 ingress pattern end actions void / end",
        "create void",
    ),
    (
        b"flow create 0 ingress pattern end actions queue / end",
        "create 0",
    ),
    (
        b"flow create 0 ingress pattern end actions queue index 1 index 2 / end",
        "create 2",
    ),
    (
        b"flow create 0 ingress pattern end actions jump / end",
        "create jump 0",
    ),
    (
        b"flow create 0 ingress pattern end actions jump group 4294967295 / end",
        "create jump 4294967295",
    ),
    (
        b"flow create 0 ingress pattern end actions jump group 4294967296 / end",
        "bad",
    ),
    (
        b"flow create 0 ingress pattern end actions jump index 1 / end",
        "bad",
    ),
    (
        b"flow create 0 ingress pattern end actions queue group 1 / end",
        "bad",
    ),
    (
        b"flow create 0 ingress pattern end actions drop index 1 / end",
        "bad",
    ),
    (
        b"flow create 0 ingress pattern end actions void void / end",
        "bad",
    ),
    (b"flow create 0 ingress pattern end actions drop end", "bad"),
    (b"flow create 0 ingress pattern end actions drop /", "bad"),
    (b"flow create 0 ingress pattern end actions / end", "bad"),
    (
        b"flow create 0 ingress pattern end actions drop / void / jump group 2 / queue index 1 / end",
        "create drop void jump 2 1",
    ),
    (
        b"flow create 0 ingress pattern end actions drop / drop / drop / drop / drop / drop / drop / drop / drop / drop / drop / drop / drop / drop / drop / drop / end",
        "create drop drop drop drop drop drop drop drop drop drop drop drop drop drop drop drop",
    ),
    (
        b"flow create 0 ingress pattern end actions drop / drop / drop / drop / drop / drop / drop / drop / drop / drop / drop / drop / drop / drop / drop / drop / drop / drop / end",
        "create drop drop drop drop drop drop drop drop drop drop drop drop drop drop drop drop 2 more",
    ),
    (
        b"flow create 0 ingress pattern end actions passthru / end",
        "bad",
    ),
    (
        b"flow create 0 ingress pattern end actions Drop / end",
        "bad",
    ),
    (
        b"flow create 0 ingress pattern end actions jump group 1 / end end",
        "bad",
    ),
];

#[test]
fn actions_have_their_values_and_their_ends(rt: HostRuntime) -> Result<(), Fail> {
    each_says(&rt, rt.alloc(), &ACTIONS)
}

static FORMS: [(&[u8], &str); 36] = [
    (
        b"flow validate 0 ingress pattern eth / end actions drop / end",
        "validate drop, eth",
    ),
    (
        b"flow validate 3 ingress pattern eth / end actions drop / end",
        "port",
    ),
    (b"flow destroy 0 rule 5", "destroy 5;"),
    (
        b"flow destroy 0 rule 5 rule 0xff rule 5",
        "destroy 5;destroy 255;destroy 5;",
    ),
    (b"flow destroy 0 rule 4294967295", "destroy 4294967295;"),
    (b"flow destroy 0 rule 4294967296", "bad"),
    (b"flow destroy 1 rule 5", "port"),
    (b"flow destroy 0", "bad"),
    (b"flow destroy 0 rule", "bad"),
    (b"flow destroy 0 5", "bad"),
    (b"flow destroy 0 rule 5 6", "bad"),
    (b"flow destroy 0 rule 5 rule", "bad"),
    (b"flow flush 0", "flush"),
    (b"flow flush 1", "port"),
    (b"flow flush", "bad"),
    (b"flow flush 0 0", "bad"),
    (b"flow list 0", "list"),
    (b"flow list 4294967295", "port"),
    (b"flow list 4294967296", "bad"),
    (b"flow list 0 group 1", "bad"),
    (b"flow isolate 0 1", "isolate on"),
    (b"flow isolate 0 yes", "isolate on"),
    (b"flow isolate 0 on", "isolate on"),
    (b"flow isolate 0 true", "isolate on"),
    (b"flow isolate 0 Y", "isolate on"),
    (b"flow isolate 0 0", "isolate off"),
    (b"flow isolate 0 no", "isolate off"),
    (b"flow isolate 0 off", "isolate off"),
    (b"flow isolate 0 false", "isolate off"),
    (b"flow isolate 0 N", "isolate off"),
    (b"flow isolate 0 y", "bad"),
    (b"flow isolate 0 True", "bad"),
    (b"flow isolate 0 2", "bad"),
    (b"flow isolate 0", "bad"),
    (b"flow isolate 2 on", "port"),
    (b"flow isolate on", "bad"),
];

#[test]
fn flow_lines_have_their_forms(rt: HostRuntime) -> Result<(), Fail> {
    each_says(&rt, rt.alloc(), &FORMS)
}
