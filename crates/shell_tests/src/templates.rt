//! Templates and tables.
use crate::run::{Row, SCRIPT_ALONE, Told, expect, expect_told};
use std::alloc::{AllocError, Global};

const ROWS: [Told<'static>; 6] = [
    (
        "a template that a table names stays, and goes when the table is gone",
        &SCRIPT_ALONE,
        "flow pattern_template 0 create pattern_template_id 1 ingress template eth / ipv4 dst mask 255.255.255.255 / udp / end
flow actions_template 0 create actions_template_id 2 ingress template count / queue / end mask count / queue / end
flow template_table 0 create table_id 3 group 1 priority 4 ingress rules_number 64 pattern_template 1 actions_template 2
flow pattern_template 0 destroy pattern_template 1
flow actions_template 0 destroy actions_template 2
flow flush 0
flow template_table 0 destroy table 3
flow pattern_template 0 destroy pattern_template 1
flow actions_template 0 destroy actions_template 2
flow template_table 0 destroy table 3
",
        &[],
        "shell 1.1: Pattern template #1 created
shell 2.1: Actions template #2 created
shell 3.1: Template table #3 created
shell 4.1: Caught error type 17 (STATE): in use
shell 5.1: Caught error type 17 (STATE): in use
shell 6.1: Flow rules flushed
shell 7.1: Template table #3 destroyed
shell 8.1: Pattern template #1 destroyed
shell 9.1: Actions template #2 destroyed
shell 10.1: Caught error type 2 (HANDLE): no such object
total received 0 dropped 0 queues 0
",
    ),
    (
        "all tables together are for 65,536 rules, and each for 1 or more",
        &SCRIPT_ALONE,
        "flow pattern_template 0 create ingress template eth / end
flow actions_template 0 create ingress template drop / end mask drop / end
flow template_table 0 create ingress rules_number 65536 pattern_template 0 actions_template 0
flow template_table 0 create ingress rules_number 1 pattern_template 0 actions_template 0
flow template_table 0 destroy table 0
flow template_table 0 create ingress rules_number 65535 pattern_template 0 actions_template 0
flow template_table 0 create ingress rules_number 2 pattern_template 0 actions_template 0
flow template_table 0 create ingress rules_number 1 pattern_template 0 actions_template 0
flow template_table 0 create ingress rules_number 0 pattern_template 0 actions_template 0
flow template_table 0 create ingress rules_number 65537 pattern_template 0 actions_template 0
",
        &[],
        "shell 1.1: Pattern template #0 created
shell 2.1: Actions template #0 created
shell 3.1: Template table #0 created
shell 4.1: Caught error type 8 (ATTR): rules number out of range
shell 5.1: Template table #0 destroyed
shell 6.1: Template table #0 created
shell 7.1: Caught error type 8 (ATTR): rules number out of range
shell 8.1: Template table #1 created
shell 9.1: Caught error type 8 (ATTR): rules number out of range
shell 10.1: Caught error type 8 (ATTR): rules number out of range
total received 0 dropped 0 queues 0
",
    ),
    (
        "a mask list has the kinds of the actions in order, and its places leave out void",
        &SCRIPT_ALONE,
        "flow actions_template 0 create ingress template count / queue / end mask count / drop / end
flow actions_template 0 create ingress template void / count / void / queue / end mask void / count / void / drop / end
flow actions_template 0 create ingress template count / queue / end mask count / end
flow actions_template 0 create ingress template count / end mask count / queue / end
flow actions_template 0 create ingress template void / count / queue / end mask count / queue index 1 / void / end
",
        &[],
        "shell 1.1: Caught error type 16 (ACTION): action 1: differs from the template
shell 2.1: Caught error type 16 (ACTION): action 1: differs from the template
shell 3.1: Caught error type 16 (ACTION): action 1: differs from the template
shell 4.1: Caught error type 16 (ACTION): action 1: differs from the template
shell 5.1: Actions template #0 created
total received 0 dropped 0 queues 0
",
    ),
    (
        "the directions of a template are tried before its list, and a place counts void",
        &SCRIPT_ALONE,
        "flow pattern_template 0 create egress template udp / eth / end
flow pattern_template 0 create ingress transfer template udp / eth / end
flow pattern_template 0 create template udp / eth / end
flow pattern_template 0 create ingress template void / eth / udp / end
flow pattern_template 0 create ingress template eth / void / ipv4 src last 10.0.0.1 / end
flow pattern_template 0 create ingress template eth / ipv4 src is 10.0.0.1 / end
flow actions_template 0 create ingress egress template count / end mask drop / end
",
        &[],
        "shell 1.1: Caught error type 6 (ATTR_EGRESS): egress is not supported
shell 2.1: Caught error type 7 (ATTR_TRANSFER): transfer is not supported
shell 3.1: Caught error type 5 (ATTR_INGRESS): ingress is required
shell 4.1: Caught error type 13 (ITEM): item 2: does not follow the item before it
shell 5.1: Caught error type 11 (ITEM_LAST): item 2: last is not supported here
shell 6.1: Pattern template #0 created
shell 7.1: Caught error type 6 (ATTR_EGRESS): egress is not supported
total received 0 dropped 0 queues 0
",
    ),
    (
        "a table names templates that are there, and its place is in range",
        &SCRIPT_ALONE,
        "flow pattern_template 0 create pattern_template_id 1 ingress template eth / end
flow actions_template 0 create actions_template_id 2 ingress template drop / end mask drop / end
flow template_table 0 create ingress rules_number 4 pattern_template 2 actions_template 2
flow template_table 0 create ingress rules_number 4 pattern_template 1 actions_template 1
flow template_table 0 create ingress rules_number 4 pattern_template 1 pattern_template 7 actions_template 2
flow template_table 0 create group 16 ingress rules_number 0 pattern_template 2 actions_template 2
flow template_table 0 create priority 65536 ingress rules_number 0 pattern_template 2 actions_template 2
flow template_table 0 create rules_number 0 pattern_template 2 actions_template 2
flow template_table 0 create ingress rules_number 0 pattern_template 2 actions_template 2
flow template_table 0 create group 15 priority 65535 ingress rules_number 4 pattern_template 1 pattern_template 1 actions_template 2
flow template_table 0 create table_id 0 ingress rules_number 4 pattern_template 1 actions_template 2
",
        &[],
        "shell 1.1: Pattern template #1 created
shell 2.1: Actions template #2 created
shell 3.1: Caught error type 2 (HANDLE): no such object
shell 4.1: Caught error type 2 (HANDLE): no such object
shell 5.1: Caught error type 2 (HANDLE): no such object
shell 6.1: Caught error type 3 (ATTR_GROUP): group out of range
shell 7.1: Caught error type 4 (ATTR_PRIORITY): priority out of range
shell 8.1: Caught error type 5 (ATTR_INGRESS): ingress is required
shell 9.1: Caught error type 8 (ATTR): rules number out of range
shell 10.1: Template table #0 created
shell 11.1: Caught error type 2 (HANDLE): id in use
total received 0 dropped 0 queues 0
",
    ),
    (
        "each kind has ids of its own, the least unused one is given, and a line that lists ids is a call for each",
        &SCRIPT_ALONE,
        "flow pattern_template 0 create pattern_template_id 0 ingress template eth / end
flow pattern_template 0 create pattern_template_id 2 ingress template eth / end
flow pattern_template 0 create ingress template eth / end
flow pattern_template 0 create pattern_template_id 2 ingress template eth / end
flow actions_template 0 create ingress template drop / end mask drop / end
flow pattern_template 0 destroy pattern_template 2 pattern_template 5 pattern_template 0
flow pattern_template 0 create ingress template eth / end
flow pattern_template 1 create ingress template eth / end
",
        &[],
        "shell 1.1: Pattern template #0 created
shell 2.1: Pattern template #2 created
shell 3.1: Pattern template #1 created
shell 4.1: Caught error type 2 (HANDLE): id in use
shell 5.1: Actions template #0 created
shell 6.1: Pattern template #2 destroyed
shell 6.2: Caught error type 2 (HANDLE): no such object
shell 6.3: Pattern template #0 destroyed
shell 7.1: Pattern template #0 created
shell 8.1: Invalid port
total received 0 dropped 0 queues 0
",
    ),
];

#[test]
fn templates_and_tables_are_made_and_destroyed(rt: HostRuntime) {
    expect_told(&rt, rt.alloc(), &ROWS);
}

/// A kind of template: a line that makes one, a line that destroys that of id 5, and its name in replies.
const KINDS: [(&str, &str, &str); 2] = [
    (
        "flow pattern_template 0 create ingress template eth / end\n",
        "flow pattern_template 0 destroy pattern_template 5\n",
        "Pattern template",
    ),
    (
        "flow actions_template 0 create ingress template drop / end mask drop / end\n",
        "flow actions_template 0 destroy actions_template 5\n",
        "Actions template",
    ),
];

/// A script that makes 65 templates of a kind, destroys that of id 5, and makes another; and its transcript.
fn more_than_64(
    alloc: Global,
    create: &str,
    destroy: &str,
    name: &str,
) -> Result<(String, String), AllocError> {
    let mut script = String::new(alloc);
    let mut transcript = String::new(alloc);
    for id in 0..64 {
        let line = id + 1;
        script.push_str(create)?;
        transcript.push_str(&format!(in alloc; "shell {line}.1: {name} #{id} created\n")?)?;
    }
    script.push_str(&format!(in alloc; "{create}{destroy}{create}")?)?;
    transcript.push_str(&format!(in alloc;
        "shell 65.1: Caught error type 1 (UNSPECIFIED): too many objects\nshell 66.1: {name} #5 destroyed\nshell 67.1: {name} #5 created\n"
    )?)?;
    transcript.push_str("total received 0 dropped 0 queues 0\n")?;
    Ok((script, transcript))
}

#[test]
fn there_are_at_most_64_templates_of_a_kind(rt: HostRuntime) -> Result<(), AllocError> {
    for (create, destroy, name) in &KINDS {
        let (script, transcript) = more_than_64(rt.alloc(), create, destroy, name)?;
        let row = Row::done(name, &SCRIPT_ALONE, &script, &[], &transcript);
        expect(&rt, rt.alloc(), &row);
    }
    Ok(())
}
