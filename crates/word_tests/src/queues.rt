//! The forms of flow queues.
use crate::shown::each_says;
use std::test::Fail;

static CONFIGURES: [(&[u8], &str); 17] = [
    (
        b"flow configure 0 queues_number 2 queues_size 64",
        "configure 2 of 64",
    ),
    (
        b"flow configure 0x0 queues_number 0x2 queues_size 0x40 # 2",
        "configure 2 of 64",
    ),
    (
        b"flow configure 0 queues_number 0 queues_size 0",
        "configure 0 of 0",
    ),
    (
        b"flow configure 0 queues_number 4294967295 queues_size 4294967295",
        "configure 4294967295 of 4294967295",
    ),
    (
        b"flow configure 0 queues_number 4294967296 queues_size 64",
        "bad",
    ),
    (
        b"flow configure 0 queues_number 2 queues_size 4294967296",
        "bad",
    ),
    (b"flow configure 0 queues_size 64 queues_number 2", "bad"),
    (
        b"flow configure 0 queues_number 2 queues_number 2 queues_size 64",
        "bad",
    ),
    (
        b"flow configure 0 queues_number 2 queues_size 64 queues_size 64",
        "bad",
    ),
    (
        b"flow configure 0 queues_number 2 queues_size 64 counters_number 1",
        "bad",
    ),
    (b"flow configure 0 queues_number 2 queues_size", "bad"),
    (b"flow configure 0 queues_number 2", "bad"),
    (b"flow configure 0 2 64", "bad"),
    (b"flow configure 0", "bad"),
    (b"flow configure queues_number 2 queues_size 64", "bad"),
    (b"flow configure 1 queues_number 2 queues_size 64", "port"),
    (b"flow configure 1 queues_number 2", "bad"),
];

#[test]
fn a_configure_has_two_numbers(rt: HostRuntime) -> Result<(), Fail> {
    each_says(&rt, rt.alloc(), &CONFIGURES)
}

static CREATES: [(&[u8], &str); 29] = [
    (
        b"flow queue 0 create 5 template_table 1 pattern_template 2 actions_template 3 pattern eth / end actions queue index 4 / end",
        "queue 5 create 1.2.3 4, eth",
    ),
    (
        b"flow queue 0 create 5 postpone yes template_table 1 pattern_template 2 actions_template 3 pattern eth / end actions queue index 4 / end",
        "queue 5 held create 1.2.3 4, eth",
    ),
    (
        b"flow queue 0 create 5 template_table 1 pattern_template 2 actions_template 3 postpone yes pattern eth / end actions queue index 4 / end",
        "queue 5 held create 1.2.3 4, eth",
    ),
    (
        b"flow queue 0 create 5 postpone no template_table 1 pattern_template 2 actions_template 3 pattern eth / end actions queue index 4 / end",
        "queue 5 create 1.2.3 4, eth",
    ),
    (
        b"flow queue 0 create 5 postpone yes template_table 1 pattern_template 2 actions_template 3 postpone no pattern eth / end actions queue index 4 / end",
        "queue 5 create 1.2.3 4, eth",
    ),
    (
        b"flow queue 0 create 5 postpone no template_table 1 pattern_template 2 actions_template 3 postpone yes pattern eth / end actions queue index 4 / end",
        "queue 5 held create 1.2.3 4, eth",
    ),
    (
        b"flow queue 0 create 5 postpone yes postpone no template_table 1 pattern_template 2 actions_template 3 pattern eth / end actions queue index 4 / end",
        "bad",
    ),
    (
        b"flow queue 0 create 5 template_table 1 pattern_template 2 actions_template 3 postpone yes postpone yes pattern eth / end actions queue index 4 / end",
        "bad",
    ),
    (
        b"flow queue 0 create postpone yes 5 template_table 1 pattern_template 2 actions_template 3 pattern eth / end actions queue index 4 / end",
        "bad",
    ),
    (
        b"flow queue 0 create 5 postpone template_table 1 pattern_template 2 actions_template 3 pattern eth / end actions queue index 4 / end",
        "bad",
    ),
    (
        b"flow queue 0 create 5 postpone 2 template_table 1 pattern_template 2 actions_template 3 pattern eth / end actions queue index 4 / end",
        "bad",
    ),
    (
        b"flow queue 0 create 5 template_table 1 postpone yes pattern_template 2 actions_template 3 pattern eth / end actions queue index 4 / end",
        "bad",
    ),
    (
        b"flow queue 0 create 5 template_table 1 pattern_template 2 actions_template 3 pattern eth / end postpone yes actions queue index 4 / end",
        "bad",
    ),
    (
        b"flow queue 0 create 65535 template_table 65535 pattern_template 65535 actions_template 65535 pattern eth / end actions queue index 4 / end",
        "queue 65535 create 65535.65535.65535 4, eth",
    ),
    (
        b"flow queue 0 create 65536 template_table 1 pattern_template 2 actions_template 3 pattern eth / end actions queue index 4 / end",
        "bad",
    ),
    (
        b"flow queue 0 create 5 template_table 65536 pattern_template 2 actions_template 3 pattern eth / end actions queue index 4 / end",
        "bad",
    ),
    (
        b"flow queue 0 create 5 template_table 1 pattern_template 65536 actions_template 3 pattern eth / end actions queue index 4 / end",
        "bad",
    ),
    (
        b"flow queue 0 create 5 template_table 1 pattern_template 2 actions_template 65536 pattern eth / end actions queue index 4 / end",
        "bad",
    ),
    (
        b"flow queue 0 create 5 template_table 1 actions_template 3 pattern_template 2 pattern eth / end actions queue index 4 / end",
        "bad",
    ),
    (
        b"flow queue 0 create 5 pattern_template 2 actions_template 3 pattern eth / end actions queue index 4 / end",
        "bad",
    ),
    (
        b"flow queue 0 create template_table 1 pattern_template 2 actions_template 3 pattern eth / end actions queue index 4 / end",
        "bad",
    ),
    (
        b"flow queue 0 create 5 template_table 1 pattern_template 2 actions_template 3 ingress pattern eth / end actions queue index 4 / end",
        "bad",
    ),
    (
        b"flow queue 0 create 5 template_table 1 pattern_template 2 actions_template 3 pattern end actions end",
        "queue 5 create 1.2.3",
    ),
    (
        b"flow queue 0 create 5 template_table 1 pattern_template 2 actions_template 3 pattern eth / end actions queue index 4 / end end",
        "bad",
    ),
    (
        b"flow queue 0 create 5 template_table 1 pattern_template 2 actions_template 3 pattern eth / end",
        "bad",
    ),
    (
        b"flow queue 0 create 5 template_table 1 pattern_template 2 actions_template 3",
        "bad",
    ),
    (
        b"flow queue 1 create 5 template_table 1 pattern_template 2 actions_template 3 pattern eth / end actions queue index 4 / end",
        "port",
    ),
    (
        b"flow queue 1 create 65536 template_table 1 pattern_template 2 actions_template 3 pattern eth / end actions queue index 4 / end",
        "bad",
    ),
    (
        b"flow queue create 5 template_table 1 pattern_template 2 actions_template 3 pattern eth / end actions queue index 4 / end",
        "bad",
    ),
];

#[test]
fn a_flow_queue_creates_rules_of_a_table(rt: HostRuntime) -> Result<(), Fail> {
    each_says(&rt, rt.alloc(), &CREATES)
}

static DESTROYS: [(&[u8], &str); 17] = [
    (b"flow queue 0 destroy 3 rule 5", "queue 3 destroy 5;"),
    (
        b"flow queue 0 destroy 3 rule 5 rule 0x6 rule 5",
        "queue 3 destroy 5;queue 3 destroy 6;queue 3 destroy 5;",
    ),
    (
        b"flow queue 0 destroy 3 postpone on rule 5 rule 6",
        "queue 3 held destroy 5;queue 3 held destroy 6;",
    ),
    (
        b"flow queue 0 destroy 3 postpone off rule 5",
        "queue 3 destroy 5;",
    ),
    (
        b"flow queue 0 destroy 3 rule 4294967295",
        "queue 3 destroy 4294967295;",
    ),
    (b"flow queue 0 destroy 3 rule 4294967296", "bad"),
    (b"flow queue 0 destroy 65536 rule 5", "bad"),
    (b"flow queue 0 destroy 3 rule 5 postpone on", "bad"),
    (b"flow queue 0 destroy postpone on 3 rule 5", "bad"),
    (b"flow queue 0 destroy 3 rule 5 6", "bad"),
    (b"flow queue 0 destroy 3 rule", "bad"),
    (b"flow queue 0 destroy 3 5", "bad"),
    (b"flow queue 0 destroy 3", "bad"),
    (b"flow queue 0 destroy rule 5", "bad"),
    (b"flow queue 2 destroy 3 rule 5", "port"),
    (b"flow queue 0 flush 3", "bad"),
    (b"flow queue 0", "bad"),
];

#[test]
fn a_flow_queue_destroys_rules(rt: HostRuntime) -> Result<(), Fail> {
    each_says(&rt, rt.alloc(), &DESTROYS)
}

static SHARED_ACTIONS: [(&[u8], &str); 22] = [
    (
        b"flow queue 0 indirect_action 2 create ingress action count / end",
        "queue 2 indirect create count",
    ),
    (
        b"flow queue 0 indirect_action 2 create postpone Y action_id 7 ingress action mark id 9 / end",
        "queue 2 held indirect 7 create mark 9",
    ),
    (
        b"flow queue 0 indirect_action 2 create action_id 7 action drop / end",
        "queue 2 indirect 7 create drop no-ingress",
    ),
    (
        b"flow queue 0 indirect_action 2 create action_id 7 postpone Y ingress action count / end",
        "bad",
    ),
    (
        b"flow queue 0 indirect_action 2 create ingress postpone Y action count / end",
        "bad",
    ),
    (
        b"flow queue 0 indirect_action 2 create ingress action count",
        "bad",
    ),
    (
        b"flow queue 0 indirect_action 2 update 7 action queue index 1 / end",
        "queue 2 indirect 7 update 1",
    ),
    (
        b"flow queue 0 indirect_action 2 update 7 postpone true action queue index 1 / end",
        "queue 2 held indirect 7 update 1",
    ),
    (
        b"flow queue 0 indirect_action 2 update postpone true 7 action queue index 1 / end",
        "bad",
    ),
    (
        b"flow queue 0 indirect_action 2 update 7 postpone true queue index 1 / end",
        "bad",
    ),
    (
        b"flow queue 0 indirect_action 2 update 65536 action queue index 1 / end",
        "bad",
    ),
    (
        b"flow queue 0 indirect_action 2 destroy action_id 7",
        "queue 2 indirect 7 destroy;",
    ),
    (
        b"flow queue 0 indirect_action 2 destroy postpone 1 action_id 7",
        "queue 2 held indirect 7 destroy;",
    ),
    (
        b"flow queue 0 indirect_action 2 destroy action_id 7 action_id 8",
        "bad",
    ),
    (
        b"flow queue 0 indirect_action 2 destroy action_id 7 postpone 1",
        "bad",
    ),
    (
        b"flow queue 0 indirect_action 2 destroy action_id 65536",
        "bad",
    ),
    (b"flow queue 0 indirect_action 2 destroy", "bad"),
    (b"flow queue 0 indirect_action 2 query 7", "bad"),
    (b"flow queue 0 indirect_action 2", "bad"),
    (
        b"flow queue 0 indirect_action create ingress action count / end",
        "bad",
    ),
    (
        b"flow queue 0 indirect_action 65536 destroy action_id 7",
        "bad",
    ),
    (
        b"flow queue 9 indirect_action 2 destroy action_id 7",
        "port",
    ),
];

#[test]
fn a_flow_queue_changes_shared_actions(rt: HostRuntime) -> Result<(), Fail> {
    each_says(&rt, rt.alloc(), &SHARED_ACTIONS)
}

static PUSHES_AND_PULLS: [(&[u8], &str); 17] = [
    (b"flow push 0 queue 0", "push 0"),
    (b"flow pull 0 queue 0", "pull 0"),
    (b"flow pull 0x0 queue 0xffff", "pull 65535"),
    (b"flow push 0 queue 65535", "push 65535"),
    (b"flow push 0 queue 65536", "bad"),
    (b"flow pull 0 queue 65536", "bad"),
    (b"flow push 0 queue 0 queue 1", "bad"),
    (b"flow pull 0 queue 0 1", "bad"),
    (b"flow push 0 queue", "bad"),
    (b"flow pull 0 queue", "bad"),
    (b"flow push 0 0", "bad"),
    (b"flow pull 0", "bad"),
    (b"flow push queue 0", "bad"),
    (b"flow push 1 queue 0", "port"),
    (b"flow pull 4294967295 queue 8", "port"),
    (b"flow queue 0 push 0", "bad"),
    (b"flow pull 0 queue 0 postpone yes", "bad"),
];

#[test]
fn pushes_and_pulls_name_one_flow_queue(rt: HostRuntime) -> Result<(), Fail> {
    each_says(&rt, rt.alloc(), &PUSHES_AND_PULLS)
}
