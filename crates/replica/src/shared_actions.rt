//! The actions that rules share, by their ids.
ghost use Rattle.std.specs.Prelude.{◌≡◌, [], OnOk, OnErr};
ghost use Rattle.std.specs.Option.{option_map};
ghost use Rattle.flow_rules.specs.Shared.{shared_at, with_shared, without_shared};

use flow_actions::Action;
use indexmap::IndexMap;
use std::alloc::{AllocError, Global};
use std::marker::Model;

/// The values in effect, in the order in which they took effect.
#[derive(Drop)]
pub(crate) struct SharedActions {
    values: IndexMap<u32, Action>,
}

impl Model for SharedActions {
    ghost use Rattle.flow_rules.specs.Shared.{Shared};

    ghost Value = { Shared };

    ghost view = { λ s. s.values.entries };
}

impl SharedActions {
    /// Nothing is shared. It takes no memory.
    pub(crate) fn new(alloc: Global) -> SharedActions
        ensures { result ≡ [] }
    {
        SharedActions {
            values: IndexMap::new(alloc),
        }
    }

    /// The value at an id, if one is in effect.
    pub(crate) fn get(&self, id: u32) -> Option<&Action>
        ensures { option_map (λ action. action.now) result ≡ shared_at id self.now }
    {
        self.values.get(&id)
    }

    /// Puts a value at an id: in the place of another, or behind all.
    #[tactic(auto, using(crate::proofs::SharedEntries::entry_inserted))]
    pub(crate) fn set(&mut self, id: u32, value: Action) -> Result<(), AllocError>
        ensures ok { OnOk result (self.new ≡ with_shared id value self.old) }
        ensures err { OnErr result (self.new ≡ self.old) }
    {
        self.values.insert(id, value)?;
        Ok(())
    }

    /// Takes out the value at an id, and nothing where there is none.
    pub(crate) fn remove(&mut self, id: u32)
        ensures { self.new ≡ without_shared id self.old }
    {
        self.values.shift_remove(&id);
    }
}
