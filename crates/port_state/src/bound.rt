//! Rules that are bound to the templates of a table.
ghost use Rattle.std.specs.Prelude.{◌≡◌, IfOk, IfSome, IsSome, Some};
ghost use Rattle.std.specs.Result.{result_err};
ghost use Rattle.flow_rules.specs.Faults.{first, rule_of};
ghost use Rattle.template_tables.specs.Bound.{bind_refusals};
ghost use Rattle.template_tables.specs.Slots.{slot_refusals};
ghost use Rattle.template_tables.specs.TemplatesView.{table_of};
ghost use Rattle.port_state.specs.Effect.{CanHold};
ghost use Rattle.port_state.specs.Kept.{AreKept};
ghost use Rattle.port_state.specs.KeptState.{state_in};
ghost use Rattle.port_state.specs.State.{bound, bound_fault, first_of, ids_fault, table_rule_fault, templates_in};
ghost use Rattle.port_state.specs.declared.held.Held.TheVariants as held;

use crate::state::{State, plain};
use flow_calls::RuleLists;
use flow_rules::{Cause, Fault, Limits, Rule, RuleSpec, validate};

impl State {
    /// The rule that these lists make with the templates at two places of a table, or why it can't be created there.
    pub(crate) fn table_rule(
        &self,
        limits: &Limits,
        table: u16,
        pt: u16,
        act: u16,
        lists: &RuleLists,
    ) -> Result<Rule, Fault>
        requires { AreKept self.now }
        ensures rule { IfOk result (λ rule. IfSome (bound (state_in self.now) table pt act lists.now) (λ spec. rule ≡ rule_of (state_in self.now).ids spec)) }
        ensures bound { IfOk result (λ rule. IsSome (bound (state_in self.now) table pt act lists.now)) }
        ensures fault { result_err result ≡ table_rule_fault limits.now (state_in self.now) table pt act lists.now }
        ensures can { IfOk result (λ rule. CanHold (state_in self.now) (held.RuleCreated rule table)) }
    {
        let spec = match self.bind(table, pt, act, lists) {
            Ok(spec) => spec,
            Err(fault) => return Err(fault),
        };
        self.rule_for(limits, table, &spec)
    }

    /// The specification that these lists make, or the first fault of binding them.
    fn bind(&self, table: u16, pt: u16, act: u16, lists: &RuleLists) -> Result<RuleSpec, Fault>
        ensures rule { IfOk result (λ spec. bound (state_in self.now) table pt act lists.now ≡ Some spec) }
        ensures fault { result_err result ≡ first (bind_refusals (templates_in (state_in self.now)) table pt act lists.now.pattern lists.now.actions) }
    {
        self.templates
            .bind(table, pt, act, &lists.pattern, &lists.actions)
    }

    /// The rule of a specification, or why it can't be created in a table.
    fn rule_for(&self, limits: &Limits, table: u16, spec: &RuleSpec) -> Result<Rule, Fault>
        requires kept { AreKept self.now }
        requires there { IsSome (table_of table (templates_in (state_in self.now))) }
        ensures rule { IfOk result (λ rule. rule ≡ rule_of (state_in self.now).ids spec.now) }
        ensures fault { result_err result ≡ bound_fault limits.now (state_in self.now) table (Some spec.now) }
        ensures can { IfOk result (λ rule. CanHold (state_in self.now) (held.RuleCreated rule table)) }
    {
        let rule = match validate(spec, limits, self, self.ids) {
            Ok(rule) => rule,
            Err(fault) => return Err(fault),
        };
        match self.place_fault(table) {
            Some(fault) => Err(fault),
            None => Ok(rule),
        }
    }

    /// Why there is no slot of a table, or no id, for one more rule, if there is none.
    fn place_fault(&self, table: u16) -> Option<Fault>
        requires kept { AreKept self.now }
        requires there { IsSome (table_of table (templates_in (state_in self.now))) }
        ensures { result ≡ first_of (first (slot_refusals (table_of table (templates_in (state_in self.now))))) (ids_fault (state_in self.now)) }
    {
        if self.templates.slots_left(table) == 0 {
            return Some(plain(Cause::TableFull));
        }
        self.ids_fault()
    }

    /// Why there is no id for one more rule, if there is none.
    pub(crate) fn ids_fault(&self) -> Option<Fault>
        ensures { result ≡ ids_fault (state_in self.now) }
    {
        if self.ids == u32::MAX {
            return Some(plain(Cause::TooMany));
        }
        None
    }
}
