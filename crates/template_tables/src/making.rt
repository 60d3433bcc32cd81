//! New templates and tables.
ghost use Rattle.std.specs.Prelude.{◌≡◌, [], ◌∷◌, ◌++◌, nat_eq, None, IfOk, IfErr, OnOk, OnErr};
ghost use Rattle.std.specs.Map.{lookup};
ghost use Rattle.flow_rules.specs.Faults.{first};
ghost use Rattle.object_ids.specs.Ids.{id_for};
ghost use Rattle.rule_binding.specs.Templates.{template_of, actions_template_of};
ghost use Rattle.template_tables.specs.Refusals.{IsAnswerTo, pattern_refusals, actions_refusals, table_refusals};
ghost use Rattle.template_tables.specs.TableView.{empty_table};

use crate::end::fault;
use crate::naming::{is_any_missing, is_out_of_range};
use crate::table::{MAX_TEMPLATES, Table};
use crate::templates::Templates;
use arrayvec::ArrayVec;
use flow_actions::Actions;
use flow_rules::{Attr, Cause, Fault, TplFault, attr_fault};
use object_ids::{id_fault, id_for, insert};
use pattern_items::Pattern;
use rule_binding::{Masks, actions_fault, actions_template, pattern_fault, pattern_template};

/// The most templates of a kind, and the most tables.
const MAX_OBJECTS: usize = 64;

impl Templates {
    /// Why a pattern template is refused.
    pub fn create_pattern_fault(
        &self,
        id: Option<u16>,
        attr: &Attr,
        pattern: &Pattern,
    ) -> Option<Fault>
        ensures { result ≡ first (pattern_refusals self.now id attr.now pattern.now) }
    {
        if let Some(fault) = pattern_fault(attr, pattern) {
            return Some(fault);
        }
        id_fault(&self.patterns, id, MAX_OBJECTS)
    }

    /// The id of a new pattern template.
    pub fn create_pattern_id(&self, id: Option<u16>) -> u16
        ensures { result ≡ id_for id self.now.patterns }
    {
        id_for(&self.patterns, id)
    }

    /// Makes a pattern template at a given id, or else at the least that isn't in use.
    pub fn create_pattern(
        &mut self,
        id: Option<u16>,
        attr: &Attr,
        pattern: &Pattern,
    ) -> Result<u16, TplFault>
        ensures lawful { OnOk result (first (pattern_refusals self.old id attr.now pattern.now) ≡ None) }
        ensures id { IfOk result (λ given. given ≡ id_for id self.old.patterns) }
        ensures fresh { OnOk result (lookup (nat_eq (id_for id self.old.patterns)) self.old.patterns ≡ None) }
        ensures made { OnOk result (self.new ≡ record self.old { patterns = self.old.patterns ++ (id_for id self.old.patterns, template_of pattern.now) ∷ [] }) }
        ensures refused { IfErr result (IsAnswerTo (first (pattern_refusals self.old id attr.now pattern.now))) }
        ensures stays { OnErr result (self.new ≡ self.old) }
    {
        if let Some(fault) = pattern_fault(attr, pattern) {
            return Err(TplFault::Fault(fault));
        }
        if let Some(fault) = id_fault(&self.patterns, id, MAX_OBJECTS) {
            return Err(TplFault::Fault(fault));
        }
        let id = id_for(&self.patterns, id);
        match insert(&mut self.patterns, id, pattern_template(pattern)) {
            Ok(()) => Ok(id),
            Err(_) => Err(TplFault::NoMemory),
        }
    }

    /// Why an actions template is refused.
    pub fn create_actions_fault(
        &self,
        id: Option<u16>,
        attr: &Attr,
        actions: &Actions,
        masks: &Masks,
    ) -> Option<Fault>
        ensures { result ≡ first (actions_refusals self.now id attr.now actions.now masks.now) }
    {
        if let Some(fault) = actions_fault(attr, actions, masks) {
            return Some(fault);
        }
        id_fault(&self.actions, id, MAX_OBJECTS)
    }

    /// The id of a new actions template.
    pub fn create_actions_id(&self, id: Option<u16>) -> u16
        ensures { result ≡ id_for id self.now.actions }
    {
        id_for(&self.actions, id)
    }

    /// Makes an actions template at a given id, or else at the least that isn't in use.
    pub fn create_actions(
        &mut self,
        id: Option<u16>,
        attr: &Attr,
        actions: &Actions,
        masks: &Masks,
    ) -> Result<u16, TplFault>
        ensures lawful { OnOk result (first (actions_refusals self.old id attr.now actions.now masks.now) ≡ None) }
        ensures id { IfOk result (λ given. given ≡ id_for id self.old.actions) }
        ensures fresh { OnOk result (lookup (nat_eq (id_for id self.old.actions)) self.old.actions ≡ None) }
        ensures made { OnOk result (self.new ≡ record self.old { actions = self.old.actions ++ (id_for id self.old.actions, actions_template_of actions.now masks.now) ∷ [] }) }
        ensures refused { IfErr result (IsAnswerTo (first (actions_refusals self.old id attr.now actions.now masks.now))) }
        ensures stays { OnErr result (self.new ≡ self.old) }
    {
        if let Some(fault) = actions_fault(attr, actions, masks) {
            return Err(TplFault::Fault(fault));
        }
        if let Some(fault) = id_fault(&self.actions, id, MAX_OBJECTS) {
            return Err(TplFault::Fault(fault));
        }
        let id = id_for(&self.actions, id);
        match insert(&mut self.actions, id, actions_template(actions, masks)) {
            Ok(()) => Ok(id),
            Err(_) => Err(TplFault::NoMemory),
        }
    }

    /// Why a table is refused.
    pub fn create_table_fault(
        &self,
        id: Option<u16>,
        attr: &Attr,
        rules_number: u32,
        patterns: &ArrayVec<u16, MAX_TEMPLATES>,
        actions: &ArrayVec<u16, MAX_TEMPLATES>,
    ) -> Option<Fault>
        ensures { result ≡ first (table_refusals self.now id attr.now rules_number patterns.now.items actions.now.items) }
    {
        if let Some(fault) = attr_fault(attr) {
            return Some(fault);
        }
        if is_out_of_range(&self.tables, rules_number) {
            return Some(fault(Cause::RulesNumber));
        }
        if is_any_missing(&self.patterns, patterns.as_slice()) {
            return Some(fault(Cause::NoObject));
        }
        if is_any_missing(&self.actions, actions.as_slice()) {
            return Some(fault(Cause::NoObject));
        }
        id_fault(&self.tables, id, MAX_OBJECTS)
    }

    /// The id of a new table.
    pub fn create_table_id(&self, id: Option<u16>) -> u16
        ensures { result ≡ id_for id self.now.tables }
    {
        id_for(&self.tables, id)
    }

    /// Makes a table at a given id, or else at the least that isn't in use, with the memory for all its slots.
    pub fn create_table(
        &mut self,
        id: Option<u16>,
        attr: &Attr,
        rules_number: u32,
        patterns: &ArrayVec<u16, MAX_TEMPLATES>,
        actions: &ArrayVec<u16, MAX_TEMPLATES>,
    ) -> Result<u16, TplFault>
        ensures lawful { OnOk result (first (table_refusals self.old id attr.now rules_number patterns.now.items actions.now.items) ≡ None) }
        ensures id { IfOk result (λ given. given ≡ id_for id self.old.tables) }
        ensures fresh { OnOk result (lookup (nat_eq (id_for id self.old.tables)) self.old.tables ≡ None) }
        ensures made { OnOk result (self.new ≡ record self.old { tables = self.old.tables ++ (id_for id self.old.tables, empty_table attr.now rules_number patterns.now.items actions.now.items) ∷ [] }) }
        ensures refused { IfErr result (IsAnswerTo (first (table_refusals self.old id attr.now rules_number patterns.now.items actions.now.items))) }
        ensures stays { OnErr result (self.new ≡ self.old) }
    {
        if let Some(fault) = self.create_table_fault(id, attr, rules_number, patterns, actions) {
            return Err(TplFault::Fault(fault));
        }
        let id = id_for(&self.tables, id);
        let alloc = *self.tables.allocator();
        let Ok(table) = Table::new(alloc, attr, rules_number, patterns, actions) else {
            return Err(TplFault::NoMemory);
        };
        match insert(&mut self.tables, id, table) {
            Ok(()) => Ok(id),
            Err(_) => Err(TplFault::NoMemory),
        }
    }
}
