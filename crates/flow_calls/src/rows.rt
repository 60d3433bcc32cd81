//! The list of rules in effect, as a reply tells it.
ghost use Rattle.std.specs.Prelude.{◌≡◌, ◌<◌, length, slice_get, Some};

use arrayvec::ArrayVec;
use flow_actions::{ActionKind, MAX_ACTIONS};
use packet_headers::ItemKind;
use pattern_items::MAX_ITEMS;
use std::alloc::AllocError;
use std::marker::Model;

/// A rule in effect: its id, where it stands, and the kinds of its items and actions, without `Void`.
#[derive(Debug, Drop)]
pub struct ListRow {
    pub id: u32,
    pub group: u32,
    pub priority: u32,
    pub items: ArrayVec<ItemKind, MAX_ITEMS>,
    pub actions: ArrayVec<ActionKind, MAX_ACTIONS>,
}

impl Clone for ListRow {
    ghost is_clone = { λ row copy. copy ≡ row };

    fn clone(&self) -> Result<ListRow, AllocError> {
        let items = self.items.clone()?;
        let actions = self.actions.clone()?;
        let id = self.id;
        let group = self.group;
        let priority = self.priority;
        Ok(ListRow {
            id,
            group,
            priority,
            items,
            actions,
        })
    }
}

/// The rules in effect, in the order in which they took effect.
#[derive(Debug, Drop)]
pub struct RuleList {
    rows: Vec<ListRow>,
}

impl Model for RuleList {
    ghost use Rattle.std.specs.Prelude.{List};
    ghost use Rattle.flow_calls.specs.declared.rows.ListRow.{ListRow};

    ghost Value = { List ListRow };

    ghost view = { λ list. list.rows.items };
}

impl Clone for RuleList {
    ghost is_clone = { λ list copy. copy ≡ list };

    fn clone(&self) -> Result<RuleList, AllocError> {
        let rows = self.rows.clone()?;
        Ok(RuleList { rows })
    }
}

impl RuleList {
    /// The list of these rows.
    pub fn of(rows: Vec<ListRow>) -> RuleList
        ensures { result ≡ rows.items }
    {
        RuleList { rows }
    }

    /// How many rules there are.
    pub fn len(&self) -> usize
        ensures { result ≡ length self.now }
    {
        self.rows.len()
    }

    /// The rule at a place, counted from 0.
    pub fn get(&self, i: usize) -> &ListRow
        requires { i < length self.now }
        ensures { slice_get self.now i ≡ Some result.now }
    {
        &self.rows[i]
    }

    /// All rules.
    pub fn as_slice(&self) -> &[ListRow]
        ensures { result.now ≡ self.now }
    {
        self.rows.as_slice()
    }
}
