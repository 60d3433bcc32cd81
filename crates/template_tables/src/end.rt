//! The end of templates and tables.
ghost use Rattle.std.specs.Prelude.{◌≡◌, nat_eq, OnOk, OnErr};
ghost use Rattle.std.specs.Map.{remove_entry};
ghost use Rattle.std.specs.Result.{result_err};
ghost use Rattle.flow_rules.specs.Faults.{first};
ghost use Rattle.template_tables.specs.Refusals.{pattern_end_refusals, actions_end_refusals, table_end_refusals};

use crate::naming::{is_actions_named, is_pattern_named};
use crate::templates::Templates;
use flow_rules::{Cause, Fault};

/// A fault without a place.
pub(crate) fn fault(cause: Cause) -> Fault
    ensures { result ≡ record { cause = cause; at = 0 } }
{
    Fault { cause, at: 0 }
}

impl Templates {
    /// Why a pattern template can't be destroyed.
    pub fn destroy_pattern_fault(&self, id: u16) -> Option<Fault>
        ensures { result ≡ first (pattern_end_refusals self.now id) }
    {
        if !self.patterns.contains_key(&id) {
            return Some(fault(Cause::NoObject));
        }
        if is_pattern_named(&self.tables, id) {
            return Some(fault(Cause::Busy));
        }
        None
    }

    /// Destroys a pattern template that no table names.
    pub fn destroy_pattern(&mut self, id: u16) -> Result<(), Fault>
        ensures refused { result_err result ≡ first (pattern_end_refusals self.old id) }
        ensures gone { OnOk result (self.new ≡ record self.old { patterns = remove_entry (nat_eq id) self.old.patterns }) }
        ensures stays { OnErr result (self.new ≡ self.old) }
    {
        if let Some(fault) = self.destroy_pattern_fault(id) {
            return Err(fault);
        }
        let _gone = self.patterns.shift_remove(&id);
        Ok(())
    }

    /// Why an actions template can't be destroyed.
    pub fn destroy_actions_fault(&self, id: u16) -> Option<Fault>
        ensures { result ≡ first (actions_end_refusals self.now id) }
    {
        if !self.actions.contains_key(&id) {
            return Some(fault(Cause::NoObject));
        }
        if is_actions_named(&self.tables, id) {
            return Some(fault(Cause::Busy));
        }
        None
    }

    /// Destroys an actions template that no table names.
    pub fn destroy_actions(&mut self, id: u16) -> Result<(), Fault>
        ensures refused { result_err result ≡ first (actions_end_refusals self.old id) }
        ensures gone { OnOk result (self.new ≡ record self.old { actions = remove_entry (nat_eq id) self.old.actions }) }
        ensures stays { OnErr result (self.new ≡ self.old) }
    {
        if let Some(fault) = self.destroy_actions_fault(id) {
            return Err(fault);
        }
        let _gone = self.actions.shift_remove(&id);
        Ok(())
    }

    /// Why a table can't be destroyed.
    pub fn destroy_table_fault(&self, id: u16) -> Option<Fault>
        ensures { result ≡ first (table_end_refusals self.now id) }
    {
        let Some(table) = self.tables.get(&id) else {
            return Some(fault(Cause::NoObject));
        };
        if table.is_busy() {
            return Some(fault(Cause::Busy));
        }
        None
    }

    /// Destroys a table of which no slot is taken.
    pub fn destroy_table(&mut self, id: u16) -> Result<(), Fault>
        ensures refused { result_err result ≡ first (table_end_refusals self.old id) }
        ensures gone { OnOk result (self.new ≡ record self.old { tables = remove_entry (nat_eq id) self.old.tables }) }
        ensures stays { OnErr result (self.new ≡ self.old) }
    {
        if let Some(fault) = self.destroy_table_fault(id) {
            return Err(fault);
        }
        let _gone = self.tables.shift_remove(&id);
        Ok(())
    }
}
