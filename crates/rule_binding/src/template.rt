//! What templates keep.
ghost use Rattle.std.specs.Prelude.{◌≡◌};

use arrayvec::ArrayVec;
use flow_actions::{Action, ActionKind, MAX_ACTIONS};
use packet_headers::ItemKind;
use pattern_items::{Fields, MAX_ITEMS};
use std::alloc::AllocError;

/// What a pattern template keeps of an item.
#[derive(Clone, Copy, PartialEq, Eq, Debug, Default)]
pub struct TemplateItem {
    pub kind: ItemKind,
    /// The bits of the fields that count, where the template says it.
    pub mask: Option<Fields>,
}

/// A pattern template: its items in order, without `Void`.
#[derive(Debug, Drop)]
pub struct PatternTemplate {
    pub items: ArrayVec<TemplateItem, MAX_ITEMS>,
}

/// What an actions template keeps of an action.
#[derive(PartialEq, Eq, Debug, Default, Drop)]
pub struct TemplateAction {
    pub action: Action,
    /// Whether all rules share this value. Else each has its own.
    pub fixed: bool,
}

/// An actions template: its actions in order, without `Void`.
#[derive(Debug, Drop)]
pub struct ActionsTemplate {
    pub list: ArrayVec<TemplateAction, MAX_ACTIONS>,
}

/// The mask list of an actions template, as it was asked for.
#[derive(Debug, Drop)]
pub struct Masks {
    pub kinds: ArrayVec<ActionKind, MAX_ACTIONS>,
    /// For each kind of the list whether its value is set.
    pub set: [bool; 16],
    /// How many actions stood behind the first 16, up to 65,535.
    pub more: u16,
}

impl Clone for Masks {
    ghost is_clone = { λ masks copy. copy ≡ masks };

    fn clone(&self) -> Result<Masks, AllocError> {
        let kinds = self.kinds.clone()?;
        let set = self.set;
        let more = self.more;
        Ok(Masks { kinds, set, more })
    }
}
