//! The templates and tables of a state, and what calls do to them.
ghost use Rattle.std.specs.Prelude.{◌≡◌, None, OnOk, OnErr};
ghost use Rattle.flow_rules.specs.declared.counter.Counter.{Counter};
ghost use Rattle.flow_rules.specs.Faults.{first};
ghost use Rattle.object_ids.specs.Ids.{id_for};
ghost use Rattle.template_tables.specs.Refusals.{pattern_refusals, actions_refusals, table_refusals, pattern_end_refusals, actions_end_refusals, table_end_refusals};
ghost use Rattle.port_state.specs.Kept.{AreKept};
ghost use Rattle.port_state.specs.KeptState.{state_in, count_in};
ghost use Rattle.port_state.specs.State.{templates_in, with_templates};
ghost use Rattle.port_state.specs.Tables.{pattern_made, actions_made, table_made, pattern_gone, actions_gone, table_gone};

use crate::state::State;
use flow_calls::{ActionLists, TableTemplates};
use flow_rules::{Attr, Fault};
use pattern_items::Pattern;
use std::alloc::AllocError;

impl State {
    /// Why a pattern template isn't made, if it isn't.
    pub(crate) fn pattern_fault(
        &self,
        id: Option<u16>,
        attr: &Attr,
        pattern: &Pattern,
    ) -> Option<Fault>
        ensures { result ≡ first (pattern_refusals (templates_in (state_in self.now)) id attr.now pattern.now) }
    {
        self.templates.create_pattern_fault(id, attr, pattern)
    }

    /// The id of a new one: the one that is asked for, or the least that isn't in use.
    pub(crate) fn pattern_id(&self, id: Option<u16>) -> u16
        ensures { result ≡ id_for id (state_in self.now).templates.patterns }
    {
        self.templates.create_pattern_id(id)
    }

    /// Why a pattern template doesn't go, if it doesn't.
    pub(crate) fn pattern_end_fault(&self, id: u16) -> Option<Fault>
        ensures { result ≡ first (pattern_end_refusals (templates_in (state_in self.now)) id) }
    {
        self.templates.destroy_pattern_fault(id)
    }

    /// A pattern template is made.
    pub(crate) fn make_pattern(
        &mut self,
        id: Option<u16>,
        attr: &Attr,
        pattern: &Pattern,
    ) -> Result<(), AllocError>
        ensures state { OnOk result (state_in self.new ≡ with_templates (pattern_made id pattern.now) (state_in self.old)) }
        ensures counts { OnOk result ((c : Counter) → count_in self.new c ≡ count_in self.old c) }
        ensures kept { OnOk result (AreKept self.old → AreKept self.new) }
        ensures stays { OnErr result (self.new ≡ self.old) }
    {
        match self.templates.create_pattern(id, attr, pattern) {
            Ok(_) => Ok(()),
            Err(_) => Err(AllocError),
        }
    }

    /// A pattern template goes.
    pub(crate) fn end_pattern(&mut self, id: u16)
        requires { first (pattern_end_refusals (templates_in (state_in self.old)) id) ≡ None }
        ensures state { state_in self.new ≡ with_templates (pattern_gone id) (state_in self.old) }
        ensures counts { (c : Counter) → count_in self.new c ≡ count_in self.old c }
        ensures kept { AreKept self.old → AreKept self.new }
    {
        let _ = self.templates.destroy_pattern(id);
    }

    /// Why an actions template isn't made, if it isn't.
    pub(crate) fn actions_fault(
        &self,
        id: Option<u16>,
        attr: &Attr,
        lists: &ActionLists,
    ) -> Option<Fault>
        ensures { result ≡ first (actions_refusals (templates_in (state_in self.now)) id attr.now lists.now.actions lists.now.masks) }
    {
        self.templates
            .create_actions_fault(id, attr, &lists.actions, &lists.masks)
    }

    /// The id of a new one: the one that is asked for, or the least that isn't in use.
    pub(crate) fn actions_id(&self, id: Option<u16>) -> u16
        ensures { result ≡ id_for id (state_in self.now).templates.actions }
    {
        self.templates.create_actions_id(id)
    }

    /// Why an actions template doesn't go, if it doesn't.
    pub(crate) fn actions_end_fault(&self, id: u16) -> Option<Fault>
        ensures { result ≡ first (actions_end_refusals (templates_in (state_in self.now)) id) }
    {
        self.templates.destroy_actions_fault(id)
    }

    /// An actions template is made.
    pub(crate) fn make_actions(
        &mut self,
        id: Option<u16>,
        attr: &Attr,
        lists: &ActionLists,
    ) -> Result<(), AllocError>
        ensures state { OnOk result (state_in self.new ≡ with_templates (actions_made id lists.now.actions lists.now.masks) (state_in self.old)) }
        ensures counts { OnOk result ((c : Counter) → count_in self.new c ≡ count_in self.old c) }
        ensures kept { OnOk result (AreKept self.old → AreKept self.new) }
        ensures stays { OnErr result (self.new ≡ self.old) }
    {
        match self
            .templates
            .create_actions(id, attr, &lists.actions, &lists.masks)
        {
            Ok(_) => Ok(()),
            Err(_) => Err(AllocError),
        }
    }

    /// An actions template goes.
    pub(crate) fn end_actions(&mut self, id: u16)
        requires { first (actions_end_refusals (templates_in (state_in self.old)) id) ≡ None }
        ensures state { state_in self.new ≡ with_templates (actions_gone id) (state_in self.old) }
        ensures counts { (c : Counter) → count_in self.new c ≡ count_in self.old c }
        ensures kept { AreKept self.old → AreKept self.new }
    {
        let _ = self.templates.destroy_actions(id);
    }

    /// Why a table isn't made, if it isn't.
    pub(crate) fn table_fault(
        &self,
        id: Option<u16>,
        attr: &Attr,
        rules_number: u32,
        templates: &TableTemplates,
    ) -> Option<Fault>
        ensures { result ≡ first (table_refusals (templates_in (state_in self.now)) id attr.now rules_number templates.now.patterns.items templates.now.actions.items) }
    {
        self.templates.create_table_fault(
            id,
            attr,
            rules_number,
            &templates.patterns,
            &templates.actions,
        )
    }

    /// The id of a new one: the one that is asked for, or the least that isn't in use.
    pub(crate) fn table_id(&self, id: Option<u16>) -> u16
        ensures { result ≡ id_for id (state_in self.now).templates.tables }
    {
        self.templates.create_table_id(id)
    }

    /// Why a table doesn't go, if it doesn't.
    pub(crate) fn table_end_fault(&self, id: u16) -> Option<Fault>
        requires { AreKept self.now }
        ensures { result ≡ first (table_end_refusals (templates_in (state_in self.now)) id) }
    {
        self.templates.destroy_table_fault(id)
    }

    /// A table is made.
    pub(crate) fn make_table(
        &mut self,
        id: Option<u16>,
        attr: &Attr,
        rules_number: u32,
        templates: &TableTemplates,
    ) -> Result<(), AllocError>
        ensures state { OnOk result (state_in self.new ≡ with_templates (table_made id (record { attr = attr.now; patterns = templates.now.patterns.items; actions = templates.now.actions.items; rules_number = rules_number })) (state_in self.old)) }
        ensures counts { OnOk result ((c : Counter) → count_in self.new c ≡ count_in self.old c) }
        ensures kept { OnOk result (AreKept self.old → AreKept self.new) }
        ensures stays { OnErr result (self.new ≡ self.old) }
    {
        match self.templates.create_table(
            id,
            attr,
            rules_number,
            &templates.patterns,
            &templates.actions,
        ) {
            Ok(_) => Ok(()),
            Err(_) => Err(AllocError),
        }
    }

    /// A table goes.
    pub(crate) fn end_table(&mut self, id: u16)
        requires kept { AreKept self.old }
        requires due { first (table_end_refusals (templates_in (state_in self.old)) id) ≡ None }
        ensures state { state_in self.new ≡ with_templates (table_gone id) (state_in self.old) }
        ensures counts { (c : Counter) → count_in self.new c ≡ count_in self.old c }
        ensures kept { AreKept self.old → AreKept self.new }
    {
        let _ = self.templates.destroy_table(id);
    }
}
