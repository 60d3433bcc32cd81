//! The rows of a list of rules.
ghost use Rattle.std.specs.Prelude.{◌≡◌, ◌≤◌, length, map, IfOk};
ghost use Rattle.flow_calls.specs.Rows.{row_of, action_kinds};

use arrayvec::ArrayVec;
use flow_actions::{Action, ActionKind, MAX_ACTIONS};
use flow_calls::{ListRow, RuleList};
use flow_rules::Rule;
use rules_in_effect::InEffect;
use std::alloc::{AllocError, Global};

/// The rows of all rules in effect.
pub(crate) fn list_of(alloc: Global, rules: &[&InEffect]) -> Result<RuleList, AllocError>
    ensures { IfOk result (λ list. list ≡ map (λ entry. row_of entry.now.rule) rules.now) }
{
    let mut rows = Vec::new(alloc);
    for entry in rules {
        rows.push(row(entry.rule.get()))?;
    }
    Ok(RuleList::of(rows))
}

fn row(rule: &Rule) -> ListRow
    ensures { result ≡ row_of rule.now }
{
    ListRow {
        id: rule.id(),
        group: rule.group(),
        priority: rule.priority(),
        items: rule.test().kinds(),
        actions: kinds_of(rule.actions().list.as_slice()),
    }
}

/// The kinds of the actions other than `Void`.
fn kinds_of(actions: &[Action]) -> ArrayVec<ActionKind, MAX_ACTIONS>
    requires { length actions.now ≤ 16 }
    ensures { result.items ≡ action_kinds actions.now }
{
    let mut kinds = ArrayVec::new();
    for action in actions {
        if !action.is_void() {
            kinds.push(action.kind());
        }
    }
    kinds
}
