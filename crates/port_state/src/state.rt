//! The state: the rules in effect and the actions that they share, templates and tables, and what calls do to them.
ghost use Rattle.std.specs.Prelude.{◌≡◌, ◌||◌, ℕ, ◌+◌, ◌<◌, ◌≤◌, ◌^◌, [], map, flat_map, length, count_by, None, Some, IfOk, IfSome, OnOk, OnErr};
ghost use Rattle.std.specs.List.{list_any};
ghost use Rattle.std.specs.Option.{option_copied};
ghost use Rattle.flow_rules.specs.declared.counter.Counter.{Counter};
ghost use Rattle.flow_rules.specs.declared.counter.Counter.TheVariants as counters;
ghost use Rattle.flow_rules.specs.Faults.{is_count};
ghost use Rattle.flow_rules.specs.Naming.{rule_at, namings_at, HaveOwnIds};
ghost use Rattle.flow_rules.specs.Shared.{shared_at, IsSharedOn};
ghost use Rattle.object_ids.specs.Ids.{id_for};
ghost use Rattle.rules_in_effect.specs.Entries.{is_user};
ghost use Rattle.indirect_counters.specs.Entries.{values_in_effect};
ghost use Rattle.indirect_counters.specs.Sound.{AreOn, CanAdd};
ghost use Rattle.indirect_counters.specs.Refusals as shared_calls;
ghost use Rattle.port_state.specs.Counters.{counted_more, is_counter, is_there, while_there, zero_count};
ghost use Rattle.port_state.specs.KeptState.{state_in, count_in};
ghost use Rattle.port_state.specs.Raising.{HasRoomFor, IsSharedThere};
ghost use Rattle.port_state.specs.Reply.{row_in, reply_of_count, reply_to_query, reply_to_shared_query};
ghost use Rattle.port_state.specs.State.{opening, flows_of, rule_in, kinds_in, all_held, is_held_user, objects, is_in_effect, room_fault, created, destroyed, flushed, isolated, shared_set, shared_gone};
ghost use Rattle.port_state.specs.Effect.{operations, IsDue};
ghost use Rattle.port_state.specs.Kept.{AreKept};

use crate::effect::Effect;
use crate::held::Held;
use crate::listing::list_of;
use crate::performing::is_held_used;
use crate::raising::raise_all;
use flow_actions::{Action, ActionKind};
use flow_calls::{Reply, RuleList};
use flow_rules::{
    Attr, Cause, Count, Fault, FlowsInEffect, Known, Limits, Rule, has_count, is_count,
};
use indirect_counters::Indirects;
use op_queues::OpQueue;
use packet_headers::Key;
use rules_in_effect::RulesInEffect;
use shared_value::Shared;
use std::alloc::{AllocError, Global};
use std::marker::Model;
use template_tables::Templates;

/// The rules in effect with the actions that they share, what these have counted, templates and tables, and the ids that were
/// given.
#[derive(Drop)]
pub struct State {
    pub(crate) rules: RulesInEffect,
    pub(crate) shared: Indirects,
    pub(crate) templates: Templates,
    /// The flow queues, none before they are configured.
    pub(crate) queues: Vec<OpQueue<Held>>,
    /// For how many operations in flight each of them is.
    pub(crate) queue_size: u16,
    /// Whether a frame that no rule takes is dropped.
    pub(crate) isolated: bool,
    /// How many rule ids were given.
    pub(crate) ids: u32,
    /// How many Rx queues the port has.
    pub(crate) rxq: u8,
}

impl Model for State {
    ghost use Rattle.port_state.specs.KeptState.{KeptState, state_in};

    ghost Value = { KeptState };

    ghost use Rattle.port_state.specs.StateInside.{state_kept, IsSound};

    ghost view = { state_kept };

    ghost invariant = { IsSound };
}

impl FlowsInEffect for State {
    ghost use Rattle.port_state.specs.State.{flows_of};
    ghost use Rattle.port_state.specs.KeptState.{KeptState, state_in};

    ghost flows = { λ (s : KeptState). flows_of (state_in s) };

    fn best(&self, group: u32, key: &Key) -> Option<&Rule> {
        self.rules.best(group, key)
    }

    fn shared(&self, id: u32) -> Option<&Action> {
        value_of(&self.shared, id)
    }

    fn is_isolated(&self) -> bool {
        self.isolated
    }

    fn rxq(&self) -> u8 {
        self.rxq
    }
}

impl Known for State {
    ghost use Rattle.port_state.specs.State.{kinds_in};
    ghost use Rattle.port_state.specs.KeptState.{KeptState, state_in};

    ghost kinds = { λ (s : KeptState). kinds_in (state_in s) };

    fn kind_of(&self, id: u32) -> Option<ActionKind> {
        // The list tells that no id stands twice.
        let _number = self.shared.len();
        self.shared.kind_of(id)
    }
}

impl State {
    /// No rules, under these limits.
    pub fn new(alloc: Global, limits: &Limits) -> State
        ensures state { state_in result ≡ opening limits.now }
        ensures counts { (c : Counter) → count_in result c ≡ zero_count }
        ensures kept { AreKept result }
    {
        State {
            rules: RulesInEffect::new(alloc),
            shared: Indirects::new(alloc),
            templates: Templates::new(alloc),
            queues: Vec::new(alloc),
            queue_size: 0,
            isolated: false,
            ids: 0,
            rxq: limits.rxq,
        }
    }

    /// How many operations an effect may let take effect.
    pub fn operations(&self, effect: &Effect) -> u32
        requires { IsDue (state_in self.now) effect.now }
        ensures { result ≡ operations (state_in self.now) effect.now }
    {
        match effect {
            Effect::Nothing | Effect::Templates(_) => 0,
            Effect::Rules(_) => 1,
            Effect::Queues(effect) => self.queue_operations(effect),
        }
    }

    /// Takes memory for so many more rules, and for one more shared action.
    pub fn reserve(&mut self, more: u32) -> Result<(), AllocError>
        ensures state { (state_in self.new) ≡ (state_in self.old) }
        ensures counts { (c : Counter) → count_in self.new c ≡ count_in self.old c }
        ensures kept { AreKept self.old → AreKept self.new }
        ensures room { OnOk result (more ≤ self.new.room) }
        ensures shared_room { OnOk result (1 ≤ self.new.shared_room) }
    {
        self.rules.reserve(more)?;
        self.shared.reserve()
    }

    /// The id that the next rule gets.
    pub(crate) fn next_id(&self) -> u32
        ensures { result ≡ (state_in self.now).ids }
    {
        self.ids
    }

    /// Why there is no room for one more rule, if there is none.
    pub(crate) fn room_fault(&self, limits: &Limits) -> Option<Fault>
        ensures { result ≡ room_fault limits.now (state_in self.now) }
    {
        if self.rules.plain_len() >= limits.flow_max as usize {
            return Some(plain(Cause::StoreFull));
        }
        self.ids_fault()
    }

    /// Whether a rule of this id is in effect, outside tables.
    pub(crate) fn is_in_effect(&self, id: u32) -> bool
        ensures { result ≡ is_in_effect id (state_in self.now) }
    {
        // The list tells that no id stands twice.
        let _number = self.rules.len();
        let Some(entry) = self.rules.get(id) else {
            return false;
        };
        !entry.table.is_some()
    }

    /// The rows of all rules.
    pub(crate) fn list(&self, alloc: Global) -> Result<RuleList, AllocError>
        ensures { IfOk result (λ list. list ≡ map row_in (state_in self.now).rules) }
    {
        let rules = self.rules.rows(alloc)?;
        list_of(alloc, rules.as_slice())
    }

    /// What the COUNT of a rule has counted, or why that can't be told.
    pub(crate) fn query(&self, id: u32) -> Reply
        ensures { result ≡ reply_to_query (rule_at id (map rule_in (state_in self.now).rules)) (count_in self.now (counters.Rule id)) }
    {
        let Some(entry) = self.rules.get(id) else {
            return Reply::Fault(plain(Cause::NoRule));
        };
        counted(
            has_count(entry.rule.get().actions().list.as_slice()),
            entry.count,
        )
    }

    /// What a shared COUNT has counted, or why that can't be told.
    pub(crate) fn query_shared(&self, id: u16) -> Reply
        ensures { result ≡ reply_to_shared_query (shared_at id (state_in self.now).shared) (count_in self.now (counters.Shared id)) }
    {
        // The list tells that no id stands twice.
        let _number = self.shared.len();
        let Some(value) = self.shared.value(id) else {
            return Reply::Fault(plain(Cause::NoObject));
        };
        let Some(count) = self.shared.count(id) else {
            return Reply::Fault(plain(Cause::NoObject));
        };
        counted(is_count(value), count)
    }

    /// Why a shared action isn't created, if it isn't.
    pub(crate) fn create_fault(
        &self,
        limits: &Limits,
        id: Option<u16>,
        attr: &Attr,
        action: &Action,
    ) -> Option<Fault>
        requires { AreKept self.now }
        ensures fault { result ≡ shared_calls.create_fault limits.now.rxq (objects (state_in self.now)) id attr.now action.now }
        ensures free { result ≡ None → CanAdd (id_for id (objects (state_in self.now))) action.now (objects (state_in self.now)) }
    {
        self.shared.create_fault(id, attr, action, limits)
    }

    /// The id of a new shared action: the one that is asked for, or the least that isn't in use.
    pub(crate) fn new_id(&self, id: Option<u16>) -> u16
        requires { AreKept self.now }
        ensures { result ≡ id_for id (objects (state_in self.now)) }
    {
        self.shared.id_for(id)
    }

    /// Why a shared action doesn't get a new value, if it doesn't.
    pub(crate) fn update_fault(&self, limits: &Limits, id: u16, action: &Action) -> Option<Fault>
        ensures { result ≡ shared_calls.update_fault limits.now.rxq (objects (state_in self.now)) id action.now }
    {
        // The list tells that no id stands twice.
        let _number = self.shared.len();
        self.shared.update_fault(id, action, limits)
    }

    /// Why a shared action doesn't go, if it doesn't.
    pub(crate) fn destroy_fault(&self, id: u16) -> Option<Fault>
        ensures { result ≡ shared_calls.destroy_fault (objects (state_in self.now)) id }
    {
        // The list tells that no id stands twice.
        let _number = self.shared.len();
        let Some(_) = self.shared.value(id) else {
            return Some(plain(Cause::NoObject));
        };
        if self.has_users(id) {
            return Some(plain(Cause::Busy));
        }
        None
    }

    /// Whether a rule uses a shared action, in effect or as its creation is held.
    fn has_users(&self, id: u16) -> bool
        ensures { result ≡ (list_any (is_user id) self.now.rules || list_any (is_held_user id) (all_held (state_in self.now))) }
    {
        if self.rules.is_used(id as u32) {
            return true;
        }
        is_held_used(self.queues.as_slice(), id)
    }

    /// Counts a frame of so many bytes for the rules of these ids, in order.
    pub(crate) fn raise(&mut self, path: &[u32], bytes: u32)
        requires few { length path.now ≤ 16 }
        requires room { (c : Counter) → HasRoomFor 256 (count_in self.old c) }
        ensures state { (state_in self.new) ≡ (state_in self.old) }
        ensures kept { AreKept self.old → AreKept self.new }
        ensures counts { (c : Counter) → count_in self.new c ≡ counted_more (count_in self.old c)
            (count_by (is_counter c) (flat_map (namings_at (flows_of (state_in self.old))) path.now)) bytes }
        ensures few { length (flat_map (namings_at (flows_of (state_in self.old))) path.now) ≤ 256 }
        ensures own { HaveOwnIds (map rule_in (state_in self.old).rules) }
        ensures short { bytes < 2 ^ 32 }
    {
        // The list tells that no id stands twice.
        let _number = self.rules.len();
        raise_all(&mut self.rules, &mut self.shared, path, bytes);
    }
}

/// What a counter stands at, if it is there.
fn counted(there: bool, count: Count) -> Reply
    ensures { result ≡ reply_of_count there count }
{
    if there {
        return Reply::Counted(count.hits, count.bytes);
    }
    Reply::Fault(plain(Cause::NoCounter))
}

/// A fault that names no place.
pub(crate) fn plain(cause: Cause) -> Fault
    ensures { result ≡ record { cause = cause; at = 0 } }
{
    Fault { cause, at: 0 }
}

/// The value in effect of a shared action.
pub(crate) fn value_of(shared: &Indirects, id: u32) -> Option<&Action>
    ensures value { option_copied result ≡ shared_at id (values_in_effect shared.now.entries) }
    ensures lawful { (rxq : ℕ) → AreOn rxq shared.now.entries → IfSome result (λ action. IsSharedOn rxq action.now) }
    ensures there { IfSome result (λ _. IsSharedThere id shared.now.entries) }
{
    // The list tells that ids have 16 bits, and that none stands twice.
    let _number = shared.len();
    if id > u16::MAX as u32 {
        return None;
    }
    shared.value(id as u16)
}
