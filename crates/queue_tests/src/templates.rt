//! What calls on templates and tables do.
use crate::binding::judge_kinds;
use crate::plain::{Kept, PlainPort, Table, find, ids_of, put, remove};
use crate::refusals::{Refused, id_for, refuse_if};
use crate::users::Use;
use flow_calls::{ActionLists, Reply};
use flow_rules::{Attr, Cause};
use pattern_items::Pattern;
use shared_value::Shared;

/// There may be so many templates of each kind, and so many tables.
const MAX_OBJECTS: usize = 64;

/// Tables are for so many rules, all together.
const MAX_RULES: u64 = 65_536;

pub(crate) fn create_pattern(
    port: &mut PlainPort,
    id: Option<u16>,
    attr: &Attr,
    pattern: &Shared<Pattern>,
) -> Result<Reply, Refused> {
    refuse_if(attr.egress, Cause::Egress)?;
    let ids = ids_of(port.alloc, port.patterns.as_slice())?;
    let id = id_for(ids.as_slice(), id, MAX_OBJECTS)?;
    put(&mut port.patterns, id, pattern.clone()?)?;
    Ok(Reply::PatternTemplateCreated(id))
}

pub(crate) fn create_actions(
    port: &mut PlainPort,
    id: Option<u16>,
    attr: &Attr,
    lists: &Shared<ActionLists>,
) -> Result<Reply, Refused> {
    refuse_if(attr.egress, Cause::Egress)?;
    let asked = lists.get();
    let kinds = asked.masks.kinds.as_slice();
    judge_kinds(port.alloc, asked.actions.list.as_slice(), kinds)?;
    let ids = ids_of(port.alloc, port.actions.as_slice())?;
    let id = id_for(ids.as_slice(), id, MAX_OBJECTS)?;
    put(&mut port.actions, id, lists.clone()?)?;
    Ok(Reply::ActionsTemplateCreated(id))
}

/// A table is for one rule at least.
fn judge_rules_number(port: &PlainPort, rules_number: u32) -> Result<(), Refused> {
    let mut rules = rules_number as u64;
    for table in port.tables.as_slice() {
        rules = rules.wrapping_add(table.value.rules_number as u64);
    }
    let is_out_of_range = rules_number == 0 || rules > MAX_RULES;
    refuse_if(is_out_of_range, Cause::RulesNumber)
}

/// Each template that a table names is there.
fn judge_named<T>(kept: &[Kept<T>], ids: &[u16]) -> Result<(), Refused> {
    for id in ids {
        refuse_if(find(kept, *id).is_none(), Cause::NoObject)?;
    }
    Ok(())
}

pub(crate) fn create_table(
    port: &mut PlainPort,
    id: Option<u16>,
    table: Table,
) -> Result<Reply, Refused> {
    refuse_if(table.attr.egress, Cause::Egress)?;
    judge_rules_number(port, table.rules_number)?;
    let named = table.templates.get();
    judge_named(port.patterns.as_slice(), named.patterns.as_slice())?;
    judge_named(port.actions.as_slice(), named.actions.as_slice())?;
    let ids = ids_of(port.alloc, port.tables.as_slice())?;
    let id = id_for(ids.as_slice(), id, MAX_OBJECTS)?;
    put(&mut port.tables, id, table)?;
    Ok(Reply::TableCreated(id))
}

/// No table names the pattern template of an id.
fn judge_pattern_users(tables: &[Kept<Table>], id: u16) -> Result<(), Refused> {
    for table in tables {
        let named = table.value.templates.get().patterns.as_slice();
        refuse_if(named.contains(&id), Cause::Busy)?;
    }
    Ok(())
}

/// No table names the actions template of an id.
fn judge_actions_users(tables: &[Kept<Table>], id: u16) -> Result<(), Refused> {
    for table in tables {
        let named = table.value.templates.get().actions.as_slice();
        refuse_if(named.contains(&id), Cause::Busy)?;
    }
    Ok(())
}

pub(crate) fn destroy_pattern(port: &mut PlainPort, id: u16) -> Result<Reply, Refused> {
    let is_missing = find(port.patterns.as_slice(), id).is_none();
    refuse_if(is_missing, Cause::NoObject)?;
    judge_pattern_users(port.tables.as_slice(), id)?;
    remove(&mut port.patterns, id);
    Ok(Reply::PatternTemplateDestroyed(id))
}

pub(crate) fn destroy_actions(port: &mut PlainPort, id: u16) -> Result<Reply, Refused> {
    let is_missing = find(port.actions.as_slice(), id).is_none();
    refuse_if(is_missing, Cause::NoObject)?;
    judge_actions_users(port.tables.as_slice(), id)?;
    remove(&mut port.actions, id);
    Ok(Reply::ActionsTemplateDestroyed(id))
}

pub(crate) fn destroy_table(port: &mut PlainPort, id: u16) -> Result<Reply, Refused> {
    let is_missing = find(port.tables.as_slice(), id).is_none();
    refuse_if(is_missing, Cause::NoObject)?;
    refuse_if(Use::Slot(id).count(port) > 0, Cause::Busy)?;
    remove(&mut port.tables, id);
    Ok(Reply::TableDestroyed(id))
}
