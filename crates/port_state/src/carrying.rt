//! What calls do to a state.
ghost use Rattle.std.specs.Prelude.{◌≡◌, ℕ, ◌+◌, ◌<◌, ◌≤◌, ◌^◌, ◌-◌, ◌∷◌, [], ◌++◌, true, Some, List, length, map, count_by, None, OnOk, OnErr, IsSome};
ghost use Rattle.flow_rules.specs.declared.counter.Counter.{Counter};
ghost use Rattle.flow_rules.specs.declared.change.Change.TheVariants as seen;
ghost use Rattle.flow_rules.specs.Naming.{rule_at};
ghost use Rattle.flow_rules.specs.Shared.{IsSharedOn};
ghost use Rattle.indirect_counters.specs.Entries.{created as created_shared, entry_at, in_effect_at};
ghost use Rattle.indirect_counters.specs.Sound.{CanAdd};
ghost use Rattle.indirect_counters.specs.Refusals as shared_calls;
ghost use Rattle.template_tables.specs.TemplatesView.{table_of};
ghost use Rattle.port_state.specs.declared.held.Held.{Held};
ghost use Rattle.port_state.specs.Apart.{AreApart, AreOthers, is_held_rule, is_held_shared};
ghost use Rattle.port_state.specs.Changes.{HasFewActions};
ghost use Rattle.port_state.specs.Counters.{carried, is_there, while_there};
ghost use Rattle.port_state.specs.Effect.{AreRulesDue, AreTemplatesDue, AreQueuesDue, IsDue, change_by, changes_done, done, operations, queue_changes, queue_operations, queues_done, rules_done, templates_done};
ghost use Rattle.port_state.specs.Freed.{freed_all, freed_by};
ghost use Rattle.port_state.specs.Kept.{AreKept, AreKeptFor, IsReserved};
ghost use Rattle.port_state.specs.KeptState.{state_in, count_in};
ghost use Rattle.port_state.specs.State.{flows_of, rule_in, created, destroyed, flushed, isolated, shared_set, shared_gone, took_effect, with_templates};
ghost use Rattle.port_state.specs.declared.held.Held.TheVariants as held;

use crate::change_list::ChangeList;
use crate::effect::{Effect, QueueEffect, RuleEffect, TemplateEffect};
use crate::held::HeldRule;
use crate::state::State;
use flow_actions::Action;
use flow_rules::{Change, Limits, Rule};
use rules_in_effect::{InEffect, RulesInEffect};
use shared_value::Shared;
use std::alloc::{AllocError, Global};
use template_tables::Templates;

impl State {
    /// Does what an accepted call does, and puts the changes of what packets see behind the others. Want of memory leaves all as it was.
    pub fn carry_out(
        &mut self,
        alloc: Global,
        limits: &Limits,
        effect: Effect,
        changes: &mut ChangeList,
    ) -> Result<(), AllocError>
        requires port { limits.now.rxq ≡ (state_in self.old).rxq }
        requires room { operations (state_in self.old) effect ≤ self.old.room }
        requires changes_room { operations (state_in self.old) effect ≤ changes.old.room }
        requires shared_room { 1 ≤ self.old.shared_room }
        requires due { IsDue (state_in self.old) effect }
        requires kept { AreKept self.old }
        requires apart { AreApart (state_in self.old) }
        ensures state { OnOk result ((state_in self.new) ≡ done (state_in self.old) effect) }
        ensures changes { OnOk result (changes.new.list ≡ changes.old.list ++ changes_done (state_in self.old) effect) }
        ensures counts { OnOk result ((c : Counter) → count_in self.new c ≡ carried c (flows_of (state_in self.old)) (changes_done (state_in self.old) effect) (count_in self.old c)) }
        ensures kept { OnOk result (AreKept self.new) }
        ensures stays { OnErr result ((self.new ≡ self.old) × (changes.new ≡ changes.old)) }
    {
        match effect {
            Effect::Nothing => Ok(()),
            Effect::Rules(effect) => {
                let change = self.change_rules(limits, effect);
                changes.add(change);
                Ok(())
            }
            Effect::Templates(effect) => self.change_templates(effect),
            Effect::Queues(effect) => self.change_queues(alloc, limits, effect, changes),
        }
    }

    /// Rules, or the actions that they share, change; the answer is what packets see of it.
    fn change_rules(&mut self, limits: &Limits, effect: RuleEffect) -> Change
        requires port { limits.now.rxq ≡ (state_in self.old).rxq }
        requires room { 1 ≤ self.old.room }
        requires shared_room { 1 ≤ self.old.shared_room }
        requires due { AreRulesDue (state_in self.old) effect }
        requires kept { AreKept self.old }
        requires apart { AreApart (state_in self.old) }
        ensures state { (state_in self.new) ≡ rules_done (state_in self.old) effect }
        ensures change { result ≡ change_by effect }
        ensures few { HasFewActions result }
        ensures counts { (c : Counter) → count_in self.new c ≡ while_there (is_there c (flows_of (state_in self.new))) (count_in self.old c) }
        ensures kept { AreKept self.new }
    {
        // The list tells that no id stands twice.
        let _number = self.shared.len();
        match effect {
            RuleEffect::Created(rule, told) => self.create(rule, told),
            RuleEffect::Destroyed(id) => self.destroy(id),
            RuleEffect::Flushed => self.flush(),
            RuleEffect::Isolated(on) => self.isolate(on),
            RuleEffect::SharedCreated(id, action) => self.share(id, action),
            RuleEffect::SharedUpdated(id, action) => self.replace(limits, id, action),
            RuleEffect::SharedDestroyed(id) => self.unshare(id),
        }
    }

    /// Templates or tables change.
    fn change_templates(&mut self, effect: TemplateEffect) -> Result<(), AllocError>
        requires due { AreTemplatesDue (state_in self.old) effect }
        requires kept { AreKept self.old }
        ensures state { OnOk result ((state_in self.new) ≡ with_templates (templates_done effect) (state_in self.old)) }
        ensures counts { OnOk result ((c : Counter) → count_in self.new c ≡ count_in self.old c) }
        ensures kept { OnOk result (AreKept self.new) }
        ensures stays { OnErr result (self.new ≡ self.old) }
    {
        match effect {
            TemplateEffect::PatternGone(id) => self.end_pattern(id),
            TemplateEffect::ActionsGone(id) => self.end_actions(id),
            TemplateEffect::TableGone(id) => self.end_table(id),
            TemplateEffect::PatternMade { id, attr, pattern } => {
                return self.make_pattern(id, &attr, pattern.get());
            }
            TemplateEffect::ActionsMade { id, attr, lists } => {
                return self.make_actions(id, &attr, lists.get());
            }
            TemplateEffect::TableMade {
                id,
                attr,
                rules_number,
                templates,
            } => return self.make_table(id, &attr, rules_number, templates.get()),
        }
        Ok(())
    }

    /// Flow queues change, and rules with what they let take effect.
    fn change_queues(
        &mut self,
        alloc: Global,
        limits: &Limits,
        effect: QueueEffect,
        changes: &mut ChangeList,
    ) -> Result<(), AllocError>
        requires port { limits.now.rxq ≡ (state_in self.old).rxq }
        requires room { queue_operations (state_in self.old) effect ≤ self.old.room }
        requires changes_room { queue_operations (state_in self.old) effect ≤ changes.old.room }
        requires shared_room { 1 ≤ self.old.shared_room }
        requires due { AreQueuesDue (state_in self.old) effect }
        requires kept { AreKept self.old }
        requires apart { AreApart (state_in self.old) }
        ensures state { OnOk result ((state_in self.new) ≡ queues_done (state_in self.old) effect) }
        ensures changes { OnOk result (changes.new.list ≡ changes.old.list ++ queue_changes (state_in self.old) effect) }
        ensures counts { OnOk result ((c : Counter) → count_in self.new c ≡ carried c (flows_of (state_in self.old)) (queue_changes (state_in self.old) effect) (count_in self.old c)) }
        ensures kept { OnOk result (AreKept self.new) }
        ensures stays { OnErr result ((self.new ≡ self.old) × (changes.new ≡ changes.old)) }
    {
        match effect {
            QueueEffect::Configured(queues, size) => return self.configure(alloc, queues, size),
            QueueEffect::Enqueued {
                queue,
                postpone,
                op,
            } => {
                self.hold(queue, op);
                if !postpone {
                    self.push(limits, queue, changes);
                }
            }
            QueueEffect::Pushed(queue) => self.push(limits, queue, changes),
            QueueEffect::Pulled(queue) => self.pull(queue),
        }
        Ok(())
    }

    /// A rule takes effect, behind all others, and an id is given. `told` is the same rule, for those who follow the changes.
    fn create(&mut self, rule: Shared<Rule>, told: Shared<Rule>) -> Change
        requires room { 1 ≤ self.old.room }
        requires numbers { (state_in self.old).ids < 2 ^ 32 - 1 }
        requires fresh { rule_at rule.id (map rule_in (state_in self.old).rules) ≡ None }
        ensures change { result ≡ seen.Added told }
        ensures few { length told.actions ≤ 16 }
        ensures state { (state_in self.new) ≡ created rule (state_in self.old) }
        ensures counts { (c : Counter) → count_in self.new c ≡ while_there (is_there c (flows_of (state_in self.new))) (count_in self.old c) }
        ensures kept { AreKept self.old → AreKept self.new }
    {
        // The list tells that no id stands twice.
        let _number = self.shared.len();
        // The rule tells that it has at most 16 actions.
        let _actions = told.get().actions();
        self.rules.push(rule, None);
        self.ids += 1;
        Change::Added(told)
    }

    /// A rule that a queue held takes effect in its table, behind all others; the answer is the same rule for those who follow the changes.
    pub(crate) fn take_rule(&mut self, rule: HeldRule, table: u16) -> Shared<Rule>
        requires room { 1 ≤ self.old.room }
        requires fresh { rule_at rule.id (map rule_in (state_in self.old).rules) ≡ None }
        requires reserved { IsReserved rule.id (table_of table self.old.templates) }
        ensures rule { result ≡ rule }
        ensures few { length result.actions ≤ 16 }
        ensures state { (state_in self.new) ≡ took_effect (record { rule = rule; table = Some table }) (state_in self.old) }
        ensures counts { (c : Counter) → count_in self.new c ≡ while_there (is_there c (flows_of (state_in self.new))) (count_in self.old c) }
        ensures room { self.old.room ≤ self.new.room + 1 }
        ensures kept { (others : List Held) → count_by (is_held_rule rule.id) others ≡ 0
            → AreKeptFor self.old.ids self.old.templates self.old.shared (held.RuleCreated rule table ∷ others)
            → AreKeptFor self.new.ids self.new.templates self.new.shared others }
    {
        // The list tells that no id stands twice.
        let _number = self.shared.len();
        let (in_effect, in_slot, told) = rule.into_parts();
        self.rules.push(in_effect, Some(table));
        self.templates.settle(table, in_slot);
        told
    }

    /// The rule of this id goes, and its slot is free, if it has one.
    pub(crate) fn destroy(&mut self, id: u32) -> Change
        ensures change { result ≡ seen.Removed id }
        ensures state { (state_in self.new) ≡ destroyed id (state_in self.old) }
        ensures counts { (c : Counter) → count_in self.new c ≡ while_there (is_there c (flows_of (state_in self.new))) (count_in self.old c) }
        ensures room { self.old.room ≤ self.new.room }
        ensures kept { (others : List Held) → count_by (is_held_rule id) others ≡ 0 → AreKeptFor self.old.ids self.old.templates self.old.shared others
            → AreKeptFor self.new.ids self.new.templates self.new.shared others }
    {
        // The lists tell that no id stands twice.
        let _number = self.shared.len();
        let _rules = self.rules.len();
        let gone = self.rules.remove(id);
        free_slot_of(&mut self.templates, gone);
        Change::Removed(id)
    }

    /// All rules go, and their slots are free. Creations that are held stay.
    fn flush(&mut self) -> Change
        ensures change { result ≡ seen.Flushed }
        ensures state { (state_in self.new) ≡ flushed (state_in self.old) }
        ensures counts { (c : Counter) → count_in self.new c ≡ while_there (is_there c (flows_of (state_in self.new))) (count_in self.old c) }
        ensures kept { (others : List Held) → AreOthers (state_in self.old).rules others → AreKeptFor self.old.ids self.old.templates self.old.shared others
            → AreKeptFor self.new.ids self.new.templates self.new.shared others }
    {
        // The lists tell that no id stands twice.
        let _number = self.shared.len();
        let _rules = self.rules.len();
        clear_rules(&mut self.rules, &mut self.templates);
        Change::Flushed
    }

    /// Whether frames that no rule takes are dropped.
    fn isolate(&mut self, on: bool) -> Change
        ensures change { result ≡ seen.Isolated on }
        ensures state { (state_in self.new) ≡ isolated on (state_in self.old) }
        ensures counts { (c : Counter) → count_in self.new c ≡ while_there (is_there c (flows_of (state_in self.new))) (count_in self.old c) }
        ensures kept { AreKept self.old → AreKept self.new }
    {
        // The list tells that no id stands twice.
        let _number = self.shared.len();
        self.isolated = on;
        Change::Isolated(on)
    }

    /// An action that rules can share takes effect.
    fn share(&mut self, id: u16, action: Action) -> Change
        requires room { 1 ≤ self.old.shared_room }
        requires free { CanAdd id action self.old.shared }
        requires lawful { IsSharedOn (state_in self.old).rxq action }
        ensures change { result ≡ seen.IndirectSet id action }
        ensures state { (state_in self.new) ≡ shared_set id action (state_in self.old) }
        ensures counts { (c : Counter) → count_in self.new c ≡ while_there (is_there c (flows_of (state_in self.new))) (count_in self.old c) }
        ensures kept { AreKept self.old → AreKept self.new }
    {
        // The list tells that no id stands twice, before and behind.
        let _before = self.shared.len();
        self.shared.add(id, &action, false);
        let _behind = self.shared.len();
        Change::IndirectSet(id as u32, action)
    }

    /// A shared action whose creation a queue held takes effect.
    pub(crate) fn activate(&mut self, id: u16, action: Action) -> Change
        requires held { entry_at id self.old.shared ≡ Some (created_shared action true) }
        ensures change { result ≡ seen.IndirectSet id action }
        ensures state { (state_in self.new) ≡ shared_set id action (state_in self.old) }
        ensures counts { (c : Counter) → count_in self.new c ≡ while_there (is_there c (flows_of (state_in self.new))) (count_in self.old c) }
        ensures room { self.old.room ≤ self.new.room }
        ensures kept { (others : List Held) → count_by (is_held_shared id) others ≡ 0
            → AreKeptFor self.old.ids self.old.templates self.old.shared (held.SharedCreated id action ∷ others)
            → AreKeptFor self.new.ids self.new.templates self.new.shared others }
    {
        // The list tells that no id stands twice, before and behind.
        let _before = self.shared.len();
        self.shared.activate(id);
        let _behind = self.shared.len();
        Change::IndirectSet(id as u32, action)
    }

    /// A shared action has this value from here on.
    pub(crate) fn replace(&mut self, limits: &Limits, id: u16, action: Action) -> Change
        requires port { limits.now.rxq ≡ (state_in self.old).rxq }
        requires due { shared_calls.update_fault self.old.rxq self.old.shared id action ≡ None }
        ensures change { result ≡ seen.IndirectSet id action }
        ensures state { (state_in self.new) ≡ shared_set id action (state_in self.old) }
        ensures counts { (c : Counter) → count_in self.new c ≡ while_there (is_there c (flows_of (state_in self.new))) (count_in self.old c) }
        ensures room { self.old.room ≤ self.new.room }
        ensures kept { (others : List Held) → count_by (is_held_shared id) others ≡ 0 → AreKeptFor self.old.ids self.old.templates self.old.shared others
            → AreKeptFor self.new.ids self.new.templates self.new.shared others }
    {
        // The list tells that no id stands twice, before and behind.
        let _before = self.shared.len();
        let _ = self.shared.update(id, &action, limits);
        let _behind = self.shared.len();
        Change::IndirectSet(id as u32, action)
    }

    /// A shared action goes.
    pub(crate) fn unshare(&mut self, id: u16) -> Change
        requires there { IsSome (in_effect_at id self.old.shared) }
        ensures change { result ≡ seen.IndirectGone id }
        ensures state { (state_in self.new) ≡ shared_gone id (state_in self.old) }
        ensures counts { (c : Counter) → count_in self.new c ≡ while_there (is_there c (flows_of (state_in self.new))) (count_in self.old c) }
        ensures room { self.old.room ≤ self.new.room }
        ensures kept { (others : List Held) → count_by (is_held_shared id) others ≡ 0 → AreKeptFor self.old.ids self.old.templates self.old.shared others
            → AreKeptFor self.new.ids self.new.templates self.new.shared others }
    {
        // The list tells that no id stands twice, before and behind.
        let _before = self.shared.len();
        self.shared.remove(id);
        let _behind = self.shared.len();
        Change::IndirectGone(id as u32)
    }
}

/// The slot of a rule that is gone is free, if it stood in a table.
fn free_slot_of(templates: &mut Templates, gone: Option<InEffect>)
    ensures { templates.new ≡ freed_by gone templates.old }
{
    let Some(entry) = gone else {
        return;
    };
    let Some(table) = entry.table else {
        return;
    };
    let _ = templates.free_slot(table, entry.rule.get().id());
}

/// All rules go, and their slots are free.
fn clear_rules(rules: &mut RulesInEffect, templates: &mut Templates)
    ensures none { rules.new.list ≡ [] }
    ensures freed { templates.new ≡ freed_all rules.old.list templates.old }
    ensures room { rules.old.room ≤ rules.new.room }
{
    while let Some(entry) = rules.pop_first() {
        free_slot_of(templates, Some(entry));
    }
}
