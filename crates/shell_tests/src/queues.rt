//! Flow queues: what they take, what takes effect, and what a pull tells.
use crate::run::{SCRIPT_ALONE, THREE_QUEUES, TWO_QUEUES, Told, expect_told};
use test_frames::UDP_FRAME;

const PLACES: [Told<'static>; 3] = [
    (
        "there are queues once they are configured, at most 8 for 1,024 operations each",
        &SCRIPT_ALONE,
        "flow push 0 queue 0
flow configure 0 queues_number 0 queues_size 8
flow configure 0 queues_number 9 queues_size 8
flow configure 0 queues_number 8 queues_size 0
flow configure 0 queues_number 8 queues_size 1025
flow configure 0 queues_number 8 queues_size 1024
flow configure 0 queues_number 0 queues_size 0
flow push 0 queue 7
flow pull 0 queue 7
flow push 0 queue 8
flow pull 0 queue 8
flow queue 0 destroy 8 rule 0
",
        &[],
        "shell 1.1: Caught error type 2 (HANDLE): no such queue
shell 2.1: Caught error type 1 (UNSPECIFIED): queues out of range
shell 3.1: Caught error type 1 (UNSPECIFIED): queues out of range
shell 4.1: Caught error type 1 (UNSPECIFIED): queues out of range
shell 5.1: Caught error type 1 (UNSPECIFIED): queues out of range
shell 6.1: Port 0 configured: 8 queues of 1024 entries
shell 7.1: Caught error type 17 (STATE): already configured
shell 8.1: Queue #7 operations pushed
shell 9.1: Queue #7 pulled 0 operations (0 failed, 0 succeeded) []
shell 10.1: Caught error type 2 (HANDLE): no such queue
shell 11.1: Caught error type 2 (HANDLE): no such queue
shell 12.1: Caught error type 2 (HANDLE): no such queue
total received 0 dropped 0 queues 0
",
    ),
    (
        "a queue for one operation is full until its result is pulled",
        &SCRIPT_ALONE,
        "flow configure 0 queues_number 1 queues_size 1
flow pattern_template 0 create ingress template eth / end
flow actions_template 0 create ingress template drop / end mask drop / end
flow template_table 0 create ingress rules_number 4 pattern_template 0 actions_template 0
flow queue 0 create 0 postpone yes template_table 0 pattern_template 0 actions_template 0 pattern eth / end actions drop / end
flow queue 0 create 0 postpone yes template_table 0 pattern_template 0 actions_template 0 pattern eth / end actions drop / end
flow push 0 queue 0
flow queue 0 create 0 template_table 0 pattern_template 0 actions_template 0 pattern eth / end actions drop / end
flow pull 0 queue 0
flow queue 0 create 0 template_table 0 pattern_template 0 actions_template 0 pattern eth / end actions drop / end
flow queue 0 destroy 0 rule 1
flow queue 0 indirect_action 0 create ingress action count / end
flow pull 0 queue 0
flow queue 0 destroy 0 rule 1
",
        &[],
        "shell 1.1: Port 0 configured: 1 queues of 1 entries
shell 2.1: Pattern template #0 created
shell 3.1: Actions template #0 created
shell 4.1: Template table #0 created
shell 5.1: Flow rule #0 creation enqueued
shell 6.1: Caught error type 1 (UNSPECIFIED): queue full
shell 7.1: Queue #0 operations pushed
shell 8.1: Caught error type 1 (UNSPECIFIED): queue full
shell 9.1: Queue #0 pulled 1 operations (0 failed, 1 succeeded) [S]
shell 10.1: Flow rule #1 creation enqueued
shell 11.1: Caught error type 1 (UNSPECIFIED): queue full
shell 12.1: Caught error type 1 (UNSPECIFIED): queue full
shell 13.1: Queue #0 pulled 1 operations (0 failed, 1 succeeded) [S]
shell 14.1: Flow rule #1 destruction enqueued
total received 0 dropped 0 queues 0
",
    ),
    (
        "a pull leaves what is held in its place, and a destroy line fills a queue id by id",
        &SCRIPT_ALONE,
        "flow configure 0 queues_number 2 queues_size 2
flow queue 0 destroy 0 postpone yes rule 7
flow pull 0 queue 0
flow queue 0 destroy 0 postpone yes rule 8 rule 9
flow queue 0 destroy 1 rule 6
flow push 0 queue 0
flow pull 0 queue 0
flow pull 0 queue 1
",
        &[],
        "shell 1.1: Port 0 configured: 2 queues of 2 entries
shell 2.1: Flow rule #7 destruction enqueued
shell 3.1: Queue #0 pulled 0 operations (0 failed, 0 succeeded) []
shell 4.1: Flow rule #8 destruction enqueued
shell 4.2: Caught error type 1 (UNSPECIFIED): queue full
shell 5.1: Flow rule #6 destruction enqueued
shell 6.1: Queue #0 operations pushed
shell 7.1: Queue #0 pulled 2 operations (2 failed, 0 succeeded) [FF]
shell 8.1: Queue #1 pulled 1 operations (1 failed, 0 succeeded) [F]
total received 0 dropped 0 queues 0
",
    ),
];

#[test]
fn queues_take_as_many_operations_as_they_are_for(rt: HostRuntime) {
    expect_told(&rt, rt.alloc(), &PLACES);
}

const SLOTS: [Told<'static>; 3] = [
    (
        "a full table refuses at the enqueue, and has a slot once a destroy is pushed",
        &SCRIPT_ALONE,
        "flow configure 0 queues_number 1 queues_size 8
flow pattern_template 0 create ingress template eth / end
flow actions_template 0 create ingress template drop / end mask drop / end
flow template_table 0 create ingress rules_number 1 pattern_template 0 actions_template 0
flow queue 0 create 0 template_table 0 pattern_template 0 actions_template 0 pattern eth / end actions drop / end
flow queue 0 create 0 template_table 0 pattern_template 0 actions_template 0 pattern eth / end actions drop / end
flow queue 0 destroy 0 postpone yes rule 0
flow queue 0 create 0 template_table 0 pattern_template 0 actions_template 0 pattern eth / end actions drop / end
flow list 0
flow push 0 queue 0
flow list 0
flow queue 0 create 0 template_table 0 pattern_template 0 actions_template 0 pattern eth / end actions drop / end
flow pull 0 queue 0
",
        &[],
        "shell 1.1: Port 0 configured: 1 queues of 8 entries
shell 2.1: Pattern template #0 created
shell 3.1: Actions template #0 created
shell 4.1: Template table #0 created
shell 5.1: Flow rule #0 creation enqueued
shell 6.1: Caught error type 1 (UNSPECIFIED): table full
shell 7.1: Flow rule #0 destruction enqueued
shell 8.1: Caught error type 1 (UNSPECIFIED): table full
shell 9.1: ID\tGroup\tPrio\tAttr\tRule
0\t0\t0\ti--\tETH => DROP
shell 10.1: Queue #0 operations pushed
shell 11.1: ID\tGroup\tPrio\tAttr\tRule
shell 12.1: Flow rule #1 creation enqueued
shell 13.1: Queue #0 pulled 3 operations (0 failed, 3 succeeded) [SSS]
total received 0 dropped 0 queues 0
",
    ),
    (
        "a held creation has its slot, and a flush frees those of rules in effect alone",
        &SCRIPT_ALONE,
        "flow configure 0 queues_number 1 queues_size 8
flow pattern_template 0 create ingress template eth / end
flow actions_template 0 create ingress template drop / end mask drop / end
flow template_table 0 create ingress rules_number 1 pattern_template 0 actions_template 0
flow queue 0 create 0 postpone yes template_table 0 pattern_template 0 actions_template 0 pattern eth / end actions drop / end
flow queue 0 create 0 template_table 0 pattern_template 0 actions_template 0 pattern eth / end actions drop / end
flow flush 0
flow queue 0 create 0 template_table 0 pattern_template 0 actions_template 0 pattern eth / end actions drop / end
flow list 0
flow push 0 queue 0
flow list 0
flow flush 0
flow list 0
flow queue 0 create 0 postpone yes template_table 0 pattern_template 0 actions_template 0 pattern eth / end actions drop / end
flow pull 0 queue 0
",
        &[],
        "shell 1.1: Port 0 configured: 1 queues of 8 entries
shell 2.1: Pattern template #0 created
shell 3.1: Actions template #0 created
shell 4.1: Template table #0 created
shell 5.1: Flow rule #0 creation enqueued
shell 6.1: Caught error type 1 (UNSPECIFIED): table full
shell 7.1: Flow rules flushed
shell 8.1: Caught error type 1 (UNSPECIFIED): table full
shell 9.1: ID\tGroup\tPrio\tAttr\tRule
shell 10.1: Queue #0 operations pushed
shell 11.1: ID\tGroup\tPrio\tAttr\tRule
0\t0\t0\ti--\tETH => DROP
shell 12.1: Flow rules flushed
shell 13.1: ID\tGroup\tPrio\tAttr\tRule
shell 14.1: Flow rule #1 creation enqueued
shell 15.1: Queue #0 pulled 1 operations (0 failed, 1 succeeded) [S]
total received 0 dropped 0 queues 0
",
    ),
    (
        "a rule of a table is no rule of `flow destroy`, and no other rule is one of a queue",
        &SCRIPT_ALONE,
        "flow configure 0 queues_number 1 queues_size 8
flow pattern_template 0 create ingress template eth / end
flow actions_template 0 create ingress template drop / end mask drop / end
flow template_table 0 create ingress rules_number 1 pattern_template 0 actions_template 0
flow create 0 ingress pattern eth / end actions drop / end
flow queue 0 create 0 template_table 0 pattern_template 0 actions_template 0 pattern eth / end actions drop / end
flow destroy 0 rule 1
flow queue 0 destroy 0 rule 0 rule 1
flow pull 0 queue 0
flow destroy 0 rule 0
",
        &[],
        "shell 1.1: Port 0 configured: 1 queues of 8 entries
shell 2.1: Pattern template #0 created
shell 3.1: Actions template #0 created
shell 4.1: Template table #0 created
shell 5.1: Flow rule #0 created
shell 6.1: Flow rule #1 creation enqueued
shell 7.1: Caught error type 2 (HANDLE): no such rule
shell 8.1: Flow rule #0 destruction enqueued
shell 8.2: Flow rule #1 destruction enqueued
shell 9.1: Queue #0 pulled 3 operations (1 failed, 2 succeeded) [SFS]
shell 10.1: Flow rule #0 destroyed
total received 0 dropped 0 queues 0
",
    ),
];

#[test]
fn tables_take_as_many_rules_as_they_are_for(rt: HostRuntime) {
    expect_told(&rt, rt.alloc(), &SLOTS);
}

const ENDS: [Told<'static>; 5] = [
    (
        "of two queues that destroy one rule the one that is pushed first does",
        &SCRIPT_ALONE,
        "flow configure 0 queues_number 2 queues_size 4
flow pattern_template 0 create ingress template eth / end
flow actions_template 0 create ingress template drop / end mask drop / end
flow template_table 0 create ingress rules_number 4 pattern_template 0 actions_template 0
flow queue 0 create 0 template_table 0 pattern_template 0 actions_template 0 pattern eth / end actions drop / end
flow pull 0 queue 0
flow queue 0 destroy 0 postpone yes rule 0
flow queue 0 destroy 1 postpone yes rule 0
flow push 0 queue 0
flow push 0 queue 1
flow pull 0 queue 0
flow pull 0 queue 1
flow pull 0 queue 0
flow pull 0 queue 1
",
        &[],
        "shell 1.1: Port 0 configured: 2 queues of 4 entries
shell 2.1: Pattern template #0 created
shell 3.1: Actions template #0 created
shell 4.1: Template table #0 created
shell 5.1: Flow rule #0 creation enqueued
shell 6.1: Queue #0 pulled 1 operations (0 failed, 1 succeeded) [S]
shell 7.1: Flow rule #0 destruction enqueued
shell 8.1: Flow rule #0 destruction enqueued
shell 9.1: Queue #0 operations pushed
shell 10.1: Queue #1 operations pushed
shell 11.1: Queue #0 pulled 1 operations (0 failed, 1 succeeded) [S]
shell 12.1: Queue #1 pulled 1 operations (1 failed, 0 succeeded) [F]
shell 13.1: Queue #0 pulled 0 operations (0 failed, 0 succeeded) []
shell 14.1: Queue #1 pulled 0 operations (0 failed, 0 succeeded) []
total received 0 dropped 0 queues 0
",
    ),
    (
        "what is enqueued first fails where it is pushed last",
        &SCRIPT_ALONE,
        "flow configure 0 queues_number 2 queues_size 4
flow pattern_template 0 create ingress template eth / end
flow actions_template 0 create ingress template drop / end mask drop / end
flow template_table 0 create ingress rules_number 4 pattern_template 0 actions_template 0
flow queue 0 create 0 template_table 0 pattern_template 0 actions_template 0 pattern eth / end actions drop / end
flow queue 0 destroy 0 postpone yes rule 0
flow queue 0 destroy 1 rule 0
flow push 0 queue 0
flow pull 0 queue 0
flow pull 0 queue 1
",
        &[],
        "shell 1.1: Port 0 configured: 2 queues of 4 entries
shell 2.1: Pattern template #0 created
shell 3.1: Actions template #0 created
shell 4.1: Template table #0 created
shell 5.1: Flow rule #0 creation enqueued
shell 6.1: Flow rule #0 destruction enqueued
shell 7.1: Flow rule #0 destruction enqueued
shell 8.1: Queue #0 operations pushed
shell 9.1: Queue #0 pulled 2 operations (1 failed, 1 succeeded) [SF]
shell 10.1: Queue #1 pulled 1 operations (0 failed, 1 succeeded) [S]
total received 0 dropped 0 queues 0
",
    ),
    (
        "of two held destroys of one rule in effect the second fails",
        &SCRIPT_ALONE,
        "flow configure 0 queues_number 1 queues_size 2
flow pattern_template 0 create ingress template eth / end
flow actions_template 0 create ingress template drop / end mask drop / end
flow template_table 0 create ingress rules_number 4 pattern_template 0 actions_template 0
flow queue 0 create 0 template_table 0 pattern_template 0 actions_template 0 pattern eth / end actions drop / end
flow pull 0 queue 0
flow queue 0 destroy 0 postpone yes rule 0
flow queue 0 destroy 0 postpone yes rule 0
flow push 0 queue 0
flow pull 0 queue 0
",
        &[],
        "shell 1.1: Port 0 configured: 1 queues of 2 entries
shell 2.1: Pattern template #0 created
shell 3.1: Actions template #0 created
shell 4.1: Template table #0 created
shell 5.1: Flow rule #0 creation enqueued
shell 6.1: Queue #0 pulled 1 operations (0 failed, 1 succeeded) [S]
shell 7.1: Flow rule #0 destruction enqueued
shell 8.1: Flow rule #0 destruction enqueued
shell 9.1: Queue #0 operations pushed
shell 10.1: Queue #0 pulled 2 operations (1 failed, 1 succeeded) [SF]
total received 0 dropped 0 queues 0
",
    ),
    (
        "a held rule goes behind its creation, once",
        &SCRIPT_ALONE,
        "flow configure 0 queues_number 1 queues_size 8
flow pattern_template 0 create ingress template eth / end
flow actions_template 0 create ingress template drop / end mask drop / end
flow template_table 0 create ingress rules_number 4 pattern_template 0 actions_template 0
flow queue 0 create 0 postpone yes template_table 0 pattern_template 0 actions_template 0 pattern eth / end actions drop / end
flow queue 0 destroy 0 postpone yes rule 0
flow queue 0 destroy 0 postpone yes rule 0
flow list 0
flow push 0 queue 0
flow list 0
flow pull 0 queue 0
",
        &[],
        "shell 1.1: Port 0 configured: 1 queues of 8 entries
shell 2.1: Pattern template #0 created
shell 3.1: Actions template #0 created
shell 4.1: Template table #0 created
shell 5.1: Flow rule #0 creation enqueued
shell 6.1: Flow rule #0 destruction enqueued
shell 7.1: Flow rule #0 destruction enqueued
shell 8.1: ID\tGroup\tPrio\tAttr\tRule
shell 9.1: Queue #0 operations pushed
shell 10.1: ID\tGroup\tPrio\tAttr\tRule
shell 11.1: Queue #0 pulled 3 operations (1 failed, 2 succeeded) [SSF]
total received 0 dropped 0 queues 0
",
    ),
    (
        "a destroy that takes effect before the rule does fails",
        &SCRIPT_ALONE,
        "flow configure 0 queues_number 2 queues_size 8
flow pattern_template 0 create ingress template eth / end
flow actions_template 0 create ingress template drop / end mask drop / end
flow template_table 0 create ingress rules_number 4 pattern_template 0 actions_template 0
flow queue 0 create 0 postpone yes template_table 0 pattern_template 0 actions_template 0 pattern eth / end actions drop / end
flow queue 0 destroy 1 rule 0
flow push 0 queue 0
flow list 0
flow pull 0 queue 1
flow pull 0 queue 0
",
        &[],
        "shell 1.1: Port 0 configured: 2 queues of 8 entries
shell 2.1: Pattern template #0 created
shell 3.1: Actions template #0 created
shell 4.1: Template table #0 created
shell 5.1: Flow rule #0 creation enqueued
shell 6.1: Flow rule #0 destruction enqueued
shell 7.1: Queue #0 operations pushed
shell 8.1: ID\tGroup\tPrio\tAttr\tRule
0\t0\t0\ti--\tETH => DROP
shell 9.1: Queue #1 pulled 1 operations (1 failed, 0 succeeded) [F]
shell 10.1: Queue #0 pulled 1 operations (0 failed, 1 succeeded) [S]
total received 0 dropped 0 queues 0
",
    ),
];

#[test]
fn a_rule_is_destroyed_once(rt: HostRuntime) {
    expect_told(&rt, rt.alloc(), &ENDS);
}

const IN_USE: [Told<'static>; 2] = [
    (
        "a table with a rule stays, and after a flush it goes and a held destroy of the rule fails",
        &SCRIPT_ALONE,
        "flow configure 0 queues_number 1 queues_size 8
flow pattern_template 0 create pattern_template_id 1 ingress template eth / end
flow actions_template 0 create actions_template_id 2 ingress template drop / end mask drop / end
flow template_table 0 create table_id 1 ingress rules_number 4 pattern_template 1 actions_template 2
flow queue 0 create 0 template_table 1 pattern_template 0 actions_template 0 pattern eth / end actions drop / end
flow pattern_template 0 destroy pattern_template 1
flow actions_template 0 destroy actions_template 2
flow template_table 0 destroy table 1
flow queue 0 destroy 0 postpone yes rule 0
flow template_table 0 destroy table 1
flow flush 0
flow template_table 0 destroy table 1
flow pattern_template 0 destroy pattern_template 1
flow actions_template 0 destroy actions_template 2
flow push 0 queue 0
flow pull 0 queue 0
",
        &[],
        "shell 1.1: Port 0 configured: 1 queues of 8 entries
shell 2.1: Pattern template #1 created
shell 3.1: Actions template #2 created
shell 4.1: Template table #1 created
shell 5.1: Flow rule #0 creation enqueued
shell 6.1: Caught error type 17 (STATE): in use
shell 7.1: Caught error type 17 (STATE): in use
shell 8.1: Caught error type 17 (STATE): in use
shell 9.1: Flow rule #0 destruction enqueued
shell 10.1: Caught error type 17 (STATE): in use
shell 11.1: Flow rules flushed
shell 12.1: Template table #1 destroyed
shell 13.1: Pattern template #1 destroyed
shell 14.1: Actions template #2 destroyed
shell 15.1: Queue #0 operations pushed
shell 16.1: Queue #0 pulled 2 operations (1 failed, 1 succeeded) [SF]
total received 0 dropped 0 queues 0
",
    ),
    (
        "a table stays from the enqueue of a creation on until the rule is destroyed",
        &SCRIPT_ALONE,
        "flow configure 0 queues_number 1 queues_size 8
flow pattern_template 0 create ingress template eth / end
flow actions_template 0 create ingress template drop / end mask drop / end
flow template_table 0 create ingress rules_number 4 pattern_template 0 actions_template 0
flow queue 0 create 0 postpone yes template_table 0 pattern_template 0 actions_template 0 pattern eth / end actions drop / end
flow template_table 0 destroy table 0
flow flush 0
flow template_table 0 destroy table 0
flow push 0 queue 0
flow template_table 0 destroy table 0
flow queue 0 destroy 0 rule 0
flow template_table 0 destroy table 0
flow queue 0 create 0 template_table 0 pattern_template 0 actions_template 0 pattern eth / end actions drop / end
flow pull 0 queue 0
",
        &[],
        "shell 1.1: Port 0 configured: 1 queues of 8 entries
shell 2.1: Pattern template #0 created
shell 3.1: Actions template #0 created
shell 4.1: Template table #0 created
shell 5.1: Flow rule #0 creation enqueued
shell 6.1: Caught error type 17 (STATE): in use
shell 7.1: Flow rules flushed
shell 8.1: Caught error type 17 (STATE): in use
shell 9.1: Queue #0 operations pushed
shell 10.1: Caught error type 17 (STATE): in use
shell 11.1: Flow rule #0 destruction enqueued
shell 12.1: Template table #0 destroyed
shell 13.1: Caught error type 2 (HANDLE): no such object
shell 14.1: Queue #0 pulled 2 operations (0 failed, 2 succeeded) [SS]
total received 0 dropped 0 queues 0
",
    ),
];

#[test]
fn tables_with_rules_stay(rt: HostRuntime) {
    expect_told(&rt, rt.alloc(), &IN_USE);
}

const EFFECTS: [Told<'static>; 3] = [
    (
        "a held creation outlives a flush",
        &TWO_QUEUES,
        "flow configure 0 queues_number 1 queues_size 8
flow pattern_template 0 create ingress template eth / end
flow actions_template 0 create ingress template queue / end mask queue / end
flow template_table 0 create ingress rules_number 4 pattern_template 0 actions_template 0
flow queue 0 create 0 postpone yes template_table 0 pattern_template 0 actions_template 0 pattern eth / end actions queue index 1 / end
flow flush 0
flow push 0 queue 0
flow pull 0 queue 0
start
stop
",
        &[(&UDP_FRAME, &[])],
        "shell 1.1: Port 0 configured: 1 queues of 8 entries
shell 2.1: Pattern template #0 created
shell 3.1: Actions template #0 created
shell 4.1: Template table #0 created
shell 5.1: Flow rule #0 creation enqueued
shell 6.1: Flow rules flushed
shell 7.1: Queue #0 operations pushed
shell 8.1: Queue #0 pulled 1 operations (0 failed, 1 succeeded) [S]
shell 9.1: Packet forwarding started
worker0 #1: queue 1 mark - hash - path 0
shell 10.1: Packet forwarding stopped: received 1 dropped 0 queues 0,1
total received 1 dropped 0 queues 0,1
",
    ),
    (
        "of two rules the one that takes effect earlier wins, whose id may be greater",
        &TWO_QUEUES,
        "flow configure 0 queues_number 1 queues_size 8
flow pattern_template 0 create ingress template eth / end
flow actions_template 0 create ingress template queue / end mask queue / end
flow template_table 0 create ingress rules_number 4 pattern_template 0 actions_template 0
flow queue 0 create 0 postpone yes template_table 0 pattern_template 0 actions_template 0 pattern eth / end actions queue index 0 / end
flow create 0 ingress pattern eth / end actions queue index 1 / end
flow push 0 queue 0
start
stop
flow list 0
",
        &[(&UDP_FRAME, &[])],
        "shell 1.1: Port 0 configured: 1 queues of 8 entries
shell 2.1: Pattern template #0 created
shell 3.1: Actions template #0 created
shell 4.1: Template table #0 created
shell 5.1: Flow rule #0 creation enqueued
shell 6.1: Flow rule #1 created
shell 7.1: Queue #0 operations pushed
shell 8.1: Packet forwarding started
worker0 #1: queue 1 mark - hash - path 1
shell 9.1: Packet forwarding stopped: received 1 dropped 0 queues 0,1
shell 10.1: ID\tGroup\tPrio\tAttr\tRule
1\t0\t0\ti--\tETH => QUEUE
0\t0\t0\ti--\tETH => QUEUE
total received 1 dropped 0 queues 0,1
",
    ),
    (
        "a shared action is there once its creation is pushed, and stays while a rule uses it",
        &THREE_QUEUES,
        "flow configure 0 queues_number 2 queues_size 8
flow queue 0 indirect_action 0 create postpone yes action_id 5 ingress action queue index 1 / end
flow indirect_action 0 create action_id 5 ingress action count / end
flow create 0 ingress pattern eth / end actions indirect 5 / end
flow indirect_action 0 destroy action_id 5
flow push 0 queue 0
flow create 0 ingress pattern eth / end actions indirect 5 / end
flow queue 0 indirect_action 1 update 5 action mark id 7 / end
flow queue 0 indirect_action 1 update 6 action queue index 2 / end
flow queue 0 indirect_action 1 update 5 action queue index 2 / end
flow queue 0 indirect_action 1 destroy action_id 5
flow queue 0 indirect_action 1 update 5 action count / end
start
stop
flow destroy 0 rule 0
flow queue 0 indirect_action 1 destroy action_id 5
flow pull 0 queue 1
flow indirect_action 0 query 5
",
        &[(&UDP_FRAME, &[])],
        "shell 1.1: Port 0 configured: 2 queues of 8 entries
shell 2.1: Indirect action #5 creation enqueued
shell 3.1: Caught error type 2 (HANDLE): id in use
shell 4.1: Caught error type 15 (ACTION_CONF): action 0: no such indirect action
shell 5.1: Caught error type 2 (HANDLE): no such object
shell 6.1: Queue #0 operations pushed
shell 7.1: Flow rule #0 created
shell 8.1: Indirect action #5 update enqueued
shell 9.1: Indirect action #6 update enqueued
shell 10.1: Indirect action #5 update enqueued
shell 11.1: Indirect action #5 destruction enqueued
shell 12.1: Caught error type 16 (ACTION): action cannot be updated
shell 13.1: Packet forwarding started
worker0 #1: queue 2 mark - hash - path 0
shell 14.1: Packet forwarding stopped: received 1 dropped 0 queues 0,0,1
shell 15.1: Flow rule #0 destroyed
shell 16.1: Indirect action #5 destruction enqueued
shell 17.1: Queue #1 pulled 5 operations (3 failed, 2 succeeded) [FFSFS]
shell 18.1: Caught error type 2 (HANDLE): no such object
total received 1 dropped 0 queues 0,0,1
",
    ),
];

#[test]
fn operations_take_effect_as_they_are_pushed(rt: HostRuntime) {
    expect_told(&rt, rt.alloc(), &EFFECTS);
}

const AGENTS: [Told<'static>; 3] = [
    (
        "in a phase the shell's lines stand before those of a queue",
        &SCRIPT_ALONE,
        "flow configure 0 queues_number 1 queues_size 8
start
flow pull 0 queue 0
flow list 0
stop
",
        &[],
        "shell 1.1: Port 0 configured: 1 queues of 8 entries
shell 2.1: Packet forwarding started
shell 4.1: ID\tGroup\tPrio\tAttr\tRule
agent0 3.1: Queue #0 pulled 0 operations (0 failed, 0 succeeded) []
shell 5.1: Packet forwarding stopped: received 0 dropped 0 queues 0
total received 0 dropped 0 queues 0
",
    ),
    (
        "in a phase agents ask in the order of their queues, before the frames pass",
        &TWO_QUEUES,
        "flow configure 0 queues_number 2 queues_size 8
flow pattern_template 0 create ingress template eth / end
flow actions_template 0 create ingress template queue / end mask queue / end
flow template_table 0 create ingress rules_number 4 pattern_template 0 actions_template 0
flow queue 0 create 1 postpone yes template_table 0 pattern_template 0 actions_template 0 pattern eth / end actions queue index 1 / end
flow queue 0 create 0 postpone yes template_table 0 pattern_template 0 actions_template 0 pattern eth / end actions queue / end
start
flow push 0 queue 1
flow push 0 queue 0
flow list 0
stop
flow list 0
",
        &[(&UDP_FRAME, &[])],
        "shell 1.1: Port 0 configured: 2 queues of 8 entries
shell 2.1: Pattern template #0 created
shell 3.1: Actions template #0 created
shell 4.1: Template table #0 created
shell 5.1: Flow rule #0 creation enqueued
shell 6.1: Flow rule #1 creation enqueued
shell 7.1: Packet forwarding started
shell 10.1: ID\tGroup\tPrio\tAttr\tRule
agent0 9.1: Queue #0 operations pushed
agent1 8.1: Queue #1 operations pushed
worker0 #1: queue 0 mark - hash - path 1
shell 11.1: Packet forwarding stopped: received 1 dropped 0 queues 1,0
shell 12.1: ID\tGroup\tPrio\tAttr\tRule
1\t0\t0\ti--\tETH => QUEUE
0\t0\t0\ti--\tETH => QUEUE
total received 1 dropped 0 queues 1,0
",
    ),
    (
        "queues 0 to 7 have agents in a phase, whether they are there or not",
        &SCRIPT_ALONE,
        "start
flow pull 0 queue 8
flow pull 0 queue 7
flow push 0 queue 0
flow pull 1 queue 0
stop
flow pull 0 queue 7
",
        &[],
        "shell 1.1: Packet forwarding started
shell 2.1: Caught error type 2 (HANDLE): no such queue
shell 5.1: Invalid port
agent0 4.1: Caught error type 2 (HANDLE): no such queue
agent7 3.1: Caught error type 2 (HANDLE): no such queue
shell 6.1: Packet forwarding stopped: received 0 dropped 0 queues 0
shell 7.1: Caught error type 2 (HANDLE): no such queue
total received 0 dropped 0 queues 0
",
    ),
];

#[test]
fn agents_ask_the_lines_of_their_queues(rt: HostRuntime) {
    expect_told(&rt, rt.alloc(), &AGENTS);
}
