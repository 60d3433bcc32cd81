//! Slots, row by row.
ghost use Rattle.std.specs.Prelude.{◌≡◌, true, false, [], Some};
ghost use Rattle.template_tables.specs.TableView.{empty_table};
ghost use Rattle.template_tables.specs.TemplatesView.{table_of};

use crate::made::INGRESS;
use arrayvec::ArrayVec;
use flow_rules::{Cause, Fault, Limits, Rule, RuleSpec, validate};
use shared_value::Shared;
use std::alloc::{AllocError, Global};
use std::process::Abort;
use template_tables::Templates;
use test_rules::{NoneShared, actions_of, pattern_of};

const LIMITS: Limits = Limits {
    rxq: 1,
    flow_max: 1,
};

/// A rule of group 1 that takes each frame.
fn rule(rt: &impl Abort, id: u32) -> Rule
    ensures { result.id ≡ id }
{
    let spec = RuleSpec {
        attr: INGRESS,
        pattern: pattern_of(&[]),
        actions: actions_of(&[]),
    };
    match validate(&spec, &LIMITS, &NoneShared, id) {
        Ok(rule) => rule,
        Err(_) => panic!(rt; "refused"),
    }
}

/// Templates with one table of this many slots.
fn with_table(rt: &impl Abort, alloc: Global, slots: u32) -> Templates
    ensures { table_of 1 result ≡ Some (empty_table (record { group = 1; priority = 4; ingress = true; egress = false; transfer = false }) slots [] []) }
{
    let mut templates = Templates::new(alloc);
    let none = ArrayVec::new();
    if templates
        .create_table(Some(1), &INGRESS, slots, &none, &none)
        .is_err()
    {
        panic!(rt; "refused");
    }
    templates
}

#[test]
#[tactic(auto, using(crate::proofs::Changed::table_changed))]
fn a_reserved_slot_is_taken(rt: HostRuntime) {
    let mut templates = with_table(&rt, rt.alloc(), 1);
    assert!(rt; templates.slots_left(1) == 1);
    assert!(rt; templates.reserve_slot(1, 7).is_ok());
    assert!(rt; templates.slots_left(1) == 0);
    let full = Err(Fault {
        cause: Cause::TableFull,
        at: 0,
    });
    assert!(rt; templates.reserve_slot(1, 8) == full);
    assert!(rt; templates.free_slot(1, 7).is_none());
}

#[test]
#[tactic(auto, using(crate::proofs::Changed::table_changed))]
fn a_freed_slot_is_left(rt: HostRuntime) -> Result<(), AllocError> {
    let mut templates = with_table(&rt, rt.alloc(), 1);
    assert!(rt; templates.reserve_slot(1, 7).is_ok());
    templates.settle(1, Shared::new(rt.alloc(), rule(&rt, 7))?);
    assert!(rt; templates.rule(1, 7).is_some() && templates.slots_left(1) == 0);
    assert!(rt; templates.free_slot(1, 7).is_some());
    assert!(rt; templates.rule(1, 7).is_none() && templates.slots_left(1) == 1);
    Ok(())
}
