//! The forms that query counters, and those of actions that rules share.
use crate::shown::each_says;
use std::test::Fail;

static QUERIES: [(&[u8], &str); 12] = [
    (b"flow query 0 0 count", "query 0"),
    (b"flow query 0 4294967295 count", "query 4294967295"),
    (b"flow query 0 0x10 count # rule 16", "query 16"),
    (b"flow query 0 4294967296 count", "bad"),
    (b"flow query 1 0 count", "port"),
    (b"flow query 1 0", "bad"),
    (b"flow query 0 0", "bad"),
    (b"flow query 0 count", "bad"),
    (b"flow query 0 rule 0 count", "bad"),
    (b"flow query 0 0 count count", "bad"),
    (b"flow query 0 0 mark", "bad"),
    (b"flow query", "bad"),
];

#[test]
fn a_query_names_a_rule_and_its_counter(rt: HostRuntime) -> Result<(), Fail> {
    each_says(&rt, rt.alloc(), &QUERIES)
}

static CREATIONS: [(&[u8], &str); 24] = [
    (
        b"flow indirect_action 0 create ingress action count / end",
        "indirect create count",
    ),
    (
        b"flow indirect_action 0 create action_id 7 ingress action queue index 2 / end",
        "indirect 7 create 2",
    ),
    (
        b"flow indirect_action 0 create action_id 0xffff ingress action mark id 9 / end",
        "indirect 65535 create mark 9",
    ),
    (
        b"flow indirect_action 0 create action_id 65536 ingress action count / end",
        "bad",
    ),
    (
        b"flow indirect_action 0 create action rss queues 1 2 end types ipv4 end / end",
        "indirect create rss 1 of 1 2 no-ingress",
    ),
    (
        b"flow indirect_action 0 create transfer ingress egress ingress action count / end",
        "indirect create count egress transfer",
    ),
    (
        b"flow indirect_action 0 create ingress action void / end",
        "indirect create void",
    ),
    (
        b"flow indirect_action 0 create ingress action indirect 5 / end",
        "indirect create indirect 5",
    ),
    (
        b"flow indirect_action 0 create ingress action drop / end",
        "indirect create drop",
    ),
    (
        b"flow indirect_action 3 create ingress action count / end",
        "port",
    ),
    (
        b"flow indirect_action 0 create ingress action_id 7 action count / end",
        "bad",
    ),
    (
        b"flow indirect_action 0 create action_id ingress action count / end",
        "bad",
    ),
    (
        b"flow indirect_action 0 create action_id 7 action_id 8 ingress action count / end",
        "bad",
    ),
    (
        b"flow indirect_action 0 create group 1 ingress action count / end",
        "bad",
    ),
    (
        b"flow indirect_action 0 create priority 1 ingress action count / end",
        "bad",
    ),
    (
        b"flow indirect_action 0 create ingress action indirect / end",
        "bad",
    ),
    (
        b"flow indirect_action 0 create ingress action count / mark / end",
        "bad",
    ),
    (
        b"flow indirect_action 0 create ingress action count end",
        "bad",
    ),
    (
        b"flow indirect_action 0 create ingress action count /",
        "bad",
    ),
    (
        b"flow indirect_action 0 create ingress action count / end end",
        "bad",
    ),
    (b"flow indirect_action 0 create ingress action end", "bad"),
    (
        b"flow indirect_action 0 create ingress actions count / end",
        "bad",
    ),
    (
        b"flow indirect_action create ingress action count / end",
        "bad",
    ),
    (b"flow indirect_action 0", "bad"),
];

#[test]
fn a_shared_action_is_created_with_or_without_its_id(rt: HostRuntime) -> Result<(), Fail> {
    each_says(&rt, rt.alloc(), &CREATIONS)
}

static OTHER_FORMS: [(&[u8], &str); 24] = [
    (
        b"flow indirect_action 0 update 7 action queue index 3 / end",
        "indirect 7 update 3",
    ),
    (
        b"flow indirect_action 0 update 65535 action count / end",
        "indirect 65535 update count",
    ),
    (
        b"flow indirect_action 2 update 7 action queue index 3 / end",
        "port",
    ),
    (
        b"flow indirect_action 0 update 65536 action count / end",
        "bad",
    ),
    (b"flow indirect_action 0 update action count / end", "bad"),
    (
        b"flow indirect_action 0 update action_id 7 action count / end",
        "bad",
    ),
    (
        b"flow indirect_action 0 update 7 ingress action count / end",
        "bad",
    ),
    (
        b"flow indirect_action 0 update 7 action count / end 8",
        "bad",
    ),
    (
        b"flow indirect_action 0 destroy action_id 7",
        "indirect 7 destroy;",
    ),
    (
        b"flow indirect_action 0 destroy action_id 7 action_id 0xffff action_id 7",
        "indirect 7 destroy;indirect 65535 destroy;indirect 7 destroy;",
    ),
    (b"flow indirect_action 1 destroy action_id 7", "port"),
    (b"flow indirect_action 0 destroy action_id 65536", "bad"),
    (b"flow indirect_action 0 destroy", "bad"),
    (b"flow indirect_action 0 destroy 7", "bad"),
    (b"flow indirect_action 0 destroy rule 7", "bad"),
    (b"flow indirect_action 0 destroy action_id 7 8", "bad"),
    (
        b"flow indirect_action 0 destroy action_id 7 action_id",
        "bad",
    ),
    (b"flow indirect_action 0 query 7", "indirect 7 query"),
    (b"flow indirect_action 9 query 7", "port"),
    (b"flow indirect_action 0 query 65536", "bad"),
    (b"flow indirect_action 0 query", "bad"),
    (b"flow indirect_action 0 query 7 count", "bad"),
    (b"flow indirect_action 0 query action_id 7", "bad"),
    (b"flow indirect_action 0 list", "bad"),
];

#[test]
fn a_shared_action_is_updated_destroyed_and_queried_by_its_id(rt: HostRuntime) -> Result<(), Fail> {
    each_says(&rt, rt.alloc(), &OTHER_FORMS)
}
