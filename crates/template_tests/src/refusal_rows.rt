//! What makes and ends templates and tables, row by row.
use crate::made::{INGRESS, ids, masks};
use flow_actions::{Action, ActionKind};
use flow_rules::{Cause, Fault, TplFault};
use packet_headers::ItemKind;
use std::process::Abort;
use template_tables::Templates;
use test_rules::{actions_of, any, pattern_of};

/// A call, on a template of `eth` or one of `count / queue`.
#[derive(Clone, Copy)]
enum Call {
    Pattern(Option<u16>),
    Actions(Option<u16>),
    /// With the mask list `count / drop`.
    WrongActions,
    /// For so many rules, with the templates of one id.
    Table(Option<u16>, u32, u16),
    EndPattern(u16),
    EndActions(u16),
    EndTable(u16),
}

/// The id that the call answers, 0 at an end, or its fault.
fn answer(rt: &impl Abort, templates: &mut Templates, call: Call) -> Result<u16, Fault> {
    match call {
        Call::Pattern(id) => {
            let eth = pattern_of(&[any(ItemKind::Eth)]);
            made(rt, templates.create_pattern(id, &INGRESS, &eth))
        }
        Call::Actions(id) => made_actions(rt, templates, id, ActionKind::Queue),
        Call::WrongActions => made_actions(rt, templates, None, ActionKind::Drop),
        Call::Table(id, rules, template) => {
            let list = ids(rt, &[template]);
            made(
                rt,
                templates.create_table(id, &INGRESS, rules, &list, &list),
            )
        }
        Call::EndPattern(id) => ended(templates.destroy_pattern(id)),
        Call::EndActions(id) => ended(templates.destroy_actions(id)),
        Call::EndTable(id) => ended(templates.destroy_table(id)),
    }
}

fn made_actions(
    rt: &impl Abort,
    templates: &mut Templates,
    id: Option<u16>,
    kind: ActionKind,
) -> Result<u16, Fault> {
    let list = actions_of(&[Action::Count, Action::Queue(3)]);
    let kinds = masks(rt, &[ActionKind::Count, kind]);
    made(rt, templates.create_actions(id, &INGRESS, &list, &kinds))
}

fn made(rt: &impl Abort, answer: Result<u16, TplFault>) -> Result<u16, Fault> {
    match answer {
        Ok(id) => Ok(id),
        Err(TplFault::Fault(fault)) => Err(fault),
        Err(TplFault::NoMemory) => panic!(rt; "no memory"),
    }
}

fn ended(answer: Result<(), Fault>) -> Result<u16, Fault> {
    match answer {
        Ok(()) => Ok(0),
        Err(fault) => Err(fault),
    }
}

static NAMED: [(Call, Result<u16, Fault>); 11] = [
    (Call::Pattern(Some(1)), Ok(1)),
    (Call::Actions(Some(1)), Ok(1)),
    (
        Call::Table(Some(1), 64, 2),
        Err(Fault {
            cause: Cause::NoObject,
            at: 0,
        }),
    ),
    (Call::Table(Some(1), 64, 1), Ok(1)),
    (
        Call::EndPattern(1),
        Err(Fault {
            cause: Cause::Busy,
            at: 0,
        }),
    ),
    (
        Call::EndActions(1),
        Err(Fault {
            cause: Cause::Busy,
            at: 0,
        }),
    ),
    (
        Call::EndPattern(0),
        Err(Fault {
            cause: Cause::NoObject,
            at: 0,
        }),
    ),
    (Call::EndTable(1), Ok(0)),
    (
        Call::EndTable(1),
        Err(Fault {
            cause: Cause::NoObject,
            at: 0,
        }),
    ),
    (Call::EndPattern(1), Ok(0)),
    (Call::EndActions(1), Ok(0)),
];

static RULES: [(Call, Result<u16, Fault>); 8] = [
    (Call::Pattern(Some(7)), Ok(7)),
    (Call::Actions(Some(7)), Ok(7)),
    (
        Call::Table(None, 0, 7),
        Err(Fault {
            cause: Cause::RulesNumber,
            at: 0,
        }),
    ),
    (
        Call::Table(None, 65_537, 7),
        Err(Fault {
            cause: Cause::RulesNumber,
            at: 0,
        }),
    ),
    (Call::Table(None, 65_536, 7), Ok(0)),
    (
        Call::Table(None, 1, 7),
        Err(Fault {
            cause: Cause::RulesNumber,
            at: 0,
        }),
    ),
    (Call::EndTable(0), Ok(0)),
    (Call::Table(None, 1, 7), Ok(0)),
];

static IDS: [(Call, Result<u16, Fault>); 7] = [
    (
        Call::WrongActions,
        Err(Fault {
            cause: Cause::ActionDiffers,
            at: 1,
        }),
    ),
    (Call::Pattern(Some(1)), Ok(1)),
    (Call::Pattern(None), Ok(0)),
    (Call::Pattern(None), Ok(2)),
    (
        Call::Pattern(Some(2)),
        Err(Fault {
            cause: Cause::IdInUse,
            at: 0,
        }),
    ),
    (Call::EndPattern(0), Ok(0)),
    (Call::Pattern(None), Ok(0)),
];

static MORE: [(Call, Result<u16, Fault>); 2] = [
    (
        Call::Pattern(Some(3)),
        Err(Fault {
            cause: Cause::IdInUse,
            at: 0,
        }),
    ),
    (
        Call::Pattern(None),
        Err(Fault {
            cause: Cause::TooMany,
            at: 0,
        }),
    ),
];

fn check_rows(rt: &impl Abort, templates: &mut Templates, rows: &[(Call, Result<u16, Fault>)]) {
    for (call, wanted) in rows {
        let given = answer(rt, templates, *call);
        assert!(rt; given == *wanted);
    }
}

#[test]
fn a_named_template_is_busy(rt: HostRuntime) {
    check_rows(&rt, &mut Templates::new(rt.alloc()), &NAMED);
}

#[test]
fn tables_are_for_65536_rules_together(rt: HostRuntime) {
    check_rows(&rt, &mut Templates::new(rt.alloc()), &RULES);
}

#[test]
fn the_least_unused_id_is_given(rt: HostRuntime) {
    check_rows(&rt, &mut Templates::new(rt.alloc()), &IDS);
}

#[test]
fn there_are_64_templates_of_a_kind(rt: HostRuntime) {
    let mut templates = Templates::new(rt.alloc());
    for id in 0..64 {
        let given = answer(&rt, &mut templates, Call::Pattern(None));
        assert!(rt; given == Ok(id));
    }
    check_rows(&rt, &mut templates, &MORE);
}
