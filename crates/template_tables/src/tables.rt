//! The rules of tables: bound, and in their slots.
ghost use Rattle.std.specs.Prelude.{◌≡◌, ◌+◌, nat_eq, length, option_copied, IfOk, IfSome, IsSome, OnOk, OnErr, None, Some};
ghost use Rattle.std.specs.Map.{lookup};
ghost use Rattle.std.specs.Result.{result_err};
ghost use Rattle.flow_rules.specs.Faults.{first};
ghost use Rattle.template_tables.specs.Bound.{bind_refusals, bound_in};
ghost use Rattle.template_tables.specs.Slots.{IsAbove, reserved, settled, freed, settled_at, slot_refusals};
ghost use Rattle.template_tables.specs.TableView.{TableView};
ghost use Rattle.template_tables.specs.TemplatesView.{table_of, with_table};

use crate::end::fault;
use crate::templates::Templates;
use flow_actions::Actions;
use flow_rules::{Cause, Fault, Rule, RuleSpec};
use pattern_items::Pattern;
use shared_value::Shared;

impl Templates {
    /// The rule of these items and actions that is bound to the templates at two indexes of a table.
    pub fn bind(
        &self,
        table: u16,
        pt: u16,
        act: u16,
        pattern: &Pattern,
        actions: &Actions,
    ) -> Result<RuleSpec, Fault>
        ensures rule { IfOk result (λ rule. bound_in self.now table pt act pattern.now actions.now ≡ Some rule) }
        ensures refused { result_err result ≡ first (bind_refusals self.now table pt act pattern.now actions.now) }
    {
        let Some(table) = self.tables.get(&table) else {
            return Err(fault(Cause::NoObject));
        };
        let Some(items) = table.patterns().get(pt as usize) else {
            return Err(fault(Cause::TemplateIndex));
        };
        let Some(list) = table.actions().get(act as usize) else {
            return Err(fault(Cause::TemplateIndex));
        };
        let Some(items) = self.patterns.get(items) else {
            return Err(fault(Cause::NoObject));
        };
        let Some(list) = self.actions.get(list) else {
            return Err(fault(Cause::NoObject));
        };
        rule_binding::bind(table.attr(), items, list, pattern, actions)
    }

    /// Takes a slot of a table for the rule of this id.
    pub fn reserve_slot(&mut self, table: u16, id: u32) -> Result<(), Fault>
        requires live { IsSome (table_of table self.old) }
        requires above { IfSome (table_of table self.old) (λ (t : TableView). IsAbove id t.greatest) }
        ensures refused { result_err result ≡ first (slot_refusals (table_of table self.old)) }
        ensures taken { OnOk result (self.new ≡ with_table table (reserved id) self.old) }
        ensures stays { OnErr result (self.new ≡ self.old) }
    {
        if self.slots_left(table) == 0 {
            return Err(fault(Cause::TableFull));
        }
        let Some(table) = self.tables.get_mut(&table) else {
            return Ok(());
        };
        table.reserve(id);
        Ok(())
    }

    /// Puts a rule into the slot that was reserved for its id.
    pub fn settle(&mut self, table: u16, rule: Shared<Rule>)
        requires live { IsSome (table_of table self.old) }
        requires reserved { IfSome (table_of table self.old) (λ (t : TableView). lookup (nat_eq rule.id) t.slots ≡ Some None) }
        ensures { self.new ≡ with_table table (settled rule) self.old }
    {
        let Some(table) = self.tables.get_mut(&table) else {
            return;
        };
        table.settle(rule);
    }

    /// Empties the slot of an id, where a rule is settled there, and gives the rule back.
    pub fn free_slot(&mut self, table: u16, id: u32) -> Option<Shared<Rule>>
        ensures rule { result ≡ settled_at id (table_of table self.old) }
        ensures freed { self.new ≡ with_table table (freed id) self.old }
    {
        let table = self.tables.get_mut(&table)?;
        table.free(id)
    }

    /// The rule in the slot of an id, where one is settled there.
    pub fn rule(&self, table: u16, id: u32) -> Option<&Rule>
        ensures { option_copied result ≡ settled_at id (table_of table self.now) }
    {
        let table = self.tables.get(&table)?;
        table.rule(id)
    }

    /// How many slots of a table are free.
    pub fn slots_left(&self, table: u16) -> u32
        requires { IsSome (table_of table self.now) }
        ensures { IfSome (table_of table self.now) (λ (t : TableView). result + length t.slots ≡ t.rules_number) }
    {
        match self.tables.get(&table) {
            Some(table) => table.slots_left(),
            None => 0,
        }
    }
}
