//! Which tables name a template, and for how many rules they are made.
ghost use Rattle.std.specs.Prelude.{◌≡◌, ◌-◌, ◌<◌, nat_eq, length, slice_get, Some};
ghost use Rattle.std.specs.Map.{values_of};
ghost use Rattle.std.specs.List.{list_any};
ghost use Rattle.template_tables.specs.Refusals.{is_any_missing, is_out_of_range, names_pattern, names_actions, rules_of};

use crate::table::Table;
use indexmap::IndexMap;

/// The most rules of all tables.
const MAX_RULES: u32 = 65_536;

/// Whether one of the ids isn't in use.
pub(crate) fn is_any_missing<T>(objects: &IndexMap<u16, T>, ids: &[u16]) -> bool
    ensures { result ≡ is_any_missing objects.now.entries ids.now }
{
    for id in ids {
        if !objects.contains_key(id) {
            return true;
        }
    }
    false
}

/// Whether the id is one of these.
fn has_id(id: u16, ids: &[u16]) -> bool
    ensures { result ≡ list_any (nat_eq id) ids.now }
{
    ids.iter().any(|other| id == *other)
}

/// The table at a place.
fn table_at(tables: &IndexMap<u16, Table>, place: usize) -> &Table
    requires { place < length tables.now.entries }
    ensures { slice_get (values_of tables.now.entries) place ≡ Some result.now }
{
    &tables[place]
}

/// Whether a table names the pattern template of an id.
pub(crate) fn is_pattern_named(tables: &IndexMap<u16, Table>, id: u16) -> bool
    ensures { result ≡ list_any (names_pattern id) (values_of tables.now.entries) }
{
    for place in 0..tables.len() {
        if has_id(id, table_at(tables, place).patterns()) {
            return true;
        }
    }
    false
}

/// Whether a table names the actions template of an id.
pub(crate) fn is_actions_named(tables: &IndexMap<u16, Table>, id: u16) -> bool
    ensures { result ≡ list_any (names_actions id) (values_of tables.now.entries) }
{
    for place in 0..tables.len() {
        if has_id(id, table_at(tables, place).actions()) {
            return true;
        }
    }
    false
}

/// For how many more rules tables may be made.
fn rules_left(tables: &IndexMap<u16, Table>) -> u32
    ensures { result ≡ 65536 - rules_of (values_of tables.now.entries) }
{
    let mut left = MAX_RULES;
    for place in 0..tables.len() {
        left = left.saturating_sub(table_at(tables, place).rules_number());
    }
    left
}

/// Whether a table can't be for so many rules.
pub(crate) fn is_out_of_range(tables: &IndexMap<u16, Table>, rules: u32) -> bool
    ensures { result ≡ is_out_of_range rules (rules_of (values_of tables.now.entries)) }
{
    if rules == 0 {
        return true;
    }
    rules > rules_left(tables)
}
