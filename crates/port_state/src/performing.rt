//! What held operations do as they take effect.
ghost use Rattle.std.specs.Prelude.{◌≡◌, ◌+◌, ◌<◌, ◌≤◌, ◌∷◌, [], ◌++◌, List, All, drop, length, slice_set};
ghost use Rattle.std.specs.List.{list_any};
ghost use Rattle.flow_rules.specs.declared.counter.Counter.{Counter};
ghost use Rattle.op_queues.specs.OpQueue.{Queue};
ghost use Rattle.port_state.specs.declared.held.Held.{Held};
ghost use Rattle.port_state.specs.Apart.{AreApart, IsAlone, IsFit};
ghost use Rattle.port_state.specs.Changes.{change_of, changes_first, changes_pushed, step_first};
ghost use Rattle.port_state.specs.Counters.{carried, is_there, while_there};
ghost use Rattle.port_state.specs.Kept.{AreKept, AreKeptFor};
ghost use Rattle.port_state.specs.KeptState.{state_in, count_in};
ghost use Rattle.port_state.specs.Ready.{IsReady};
ghost use Rattle.port_state.specs.State.{flows_of, is_held_user, is_table_rule_of, pushed, queue_at, succeeds, taken};

use crate::change_list::ChangeList;
use crate::held::Held;
use crate::state::State;
use flow_rules::{Change, Limits, has_shared};
use op_queues::OpQueue;

impl State {
    /// All operations that a queue holds take effect, in order, and leave their results.
    pub(crate) fn push(&mut self, limits: &Limits, queue: u16, changes: &mut ChangeList)
        requires port { limits.now.rxq ≡ (state_in self.old).rxq }
        requires there { queue < length self.old.queues }
        requires kept { AreKept self.old }
        requires apart { AreApart (state_in self.old) }
        requires room { length (queue_at queue (state_in self.old)).held ≤ self.old.room }
        requires changes_room { length (queue_at queue (state_in self.old)).held ≤ changes.old.room }
        ensures state { (state_in self.new) ≡ pushed queue (state_in self.old) }
        ensures changes { changes.new.list ≡ changes.old.list ++ changes_pushed queue (state_in self.old) }
        ensures counts { (c : Counter) → count_in self.new c ≡ carried c (flows_of (state_in self.old)) (changes_pushed queue (state_in self.old)) (count_in self.old c) }
        ensures kept { AreKept self.new }
    {
        for _ in 0..self.held_number(queue) {
            self.step_queue(limits, queue, changes);
        }
    }

    /// How many operations a queue holds.
    pub(crate) fn held_number(&self, queue: u16) -> u16
        requires { queue < length self.now.queues }
        ensures { result ≡ length (queue_at queue (state_in self.now)).held }
    {
        self.queues[queue as usize].held_len()
    }

    /// The oldest operation of a queue takes effect, or fails, and leaves its result.
    fn step_queue(&mut self, limits: &Limits, queue: u16, changes: &mut ChangeList)
        requires port { limits.now.rxq ≡ (state_in self.old).rxq }
        requires there { queue < length self.old.queues }
        requires kept { AreKept self.old }
        requires apart { AreApart (state_in self.old) }
        requires waits { 1 ≤ length (queue_at queue (state_in self.old)).held }
        requires room { 1 ≤ self.old.room }
        requires changes_room { 1 ≤ changes.old.room }
        ensures state { (state_in self.new) ≡ step_first queue (state_in self.old) (queue_at queue (state_in self.old)).held }
        ensures changes { changes.new.list ≡ changes.old.list ++ changes_first (state_in self.old) (queue_at queue (state_in self.old)).held }
        ensures counts { (c : Counter) → count_in self.new c
            ≡ carried c (flows_of (state_in self.old)) (changes_first (state_in self.old) (queue_at queue (state_in self.old)).held) (count_in self.old c) }
        ensures kept { AreKept self.new }
        ensures room { self.old.room ≤ self.new.room + 1 }
        ensures changes_room { changes.old.room ≤ changes.new.room + 1 }
    {
        // The list tells that no id stands twice.
        let _number = self.shared.len();
        let ok = self.first_succeeds(limits, queue);
        let op = self.finish_first(queue, ok);
        if ok {
            self.take(limits, op, changes);
        }
    }

    /// Whether the oldest operation of a queue succeeds.
    fn first_succeeds(&self, limits: &Limits, queue: u16) -> bool
        requires port { limits.now.rxq ≡ (state_in self.now).rxq }
        requires there { queue < length self.now.queues }
        requires fit { All (IsFit (state_in self.now).rxq) (queue_at queue (state_in self.now)).held }
        ensures { (op : Held) (ops : List Held) → (queue_at queue (state_in self.now)).held ≡ op ∷ ops → result ≡ succeeds (state_in self.now) op }
    {
        match self.queues[queue as usize].oldest() {
            Some(oldest) => self.succeeds(limits, oldest),
            None => false,
        }
    }

    /// The oldest operation of a queue leaves its result.
    fn finish_first(&mut self, queue: u16, ok: bool) -> Held
        requires there { queue < length self.old.queues }
        requires waits { 1 ≤ length (queue_at queue (state_in self.old)).held }
        ensures first { (queue_at queue (state_in self.old)).held ≡ result ∷ drop 1 (queue_at queue (state_in self.old)).held }
        ensures others { self.new ≡ record self.old {
          queues = slice_set self.old.queues queue
              (record { held = drop 1 (queue_at queue (state_in self.old)).held; results = (queue_at queue (state_in self.old)).results ++ ok ∷ [] });
        } }
    {
        let op = self.queues[queue as usize].pop_held().unwrap();
        self.queues[queue as usize].finish(ok);
        op
    }

    /// Whether an operation succeeds.
    fn succeeds(&self, limits: &Limits, op: &Held) -> bool
        requires port { limits.now.rxq ≡ (state_in self.now).rxq }
        requires fit { IsFit (state_in self.now).rxq op.now }
        ensures { result ≡ succeeds (state_in self.now) op.now }
    {
        match op {
            Held::RuleCreated(..) | Held::SharedCreated(..) => true,
            Held::RuleDestroyed(id) => self.is_in_table(*id),
            Held::SharedUpdated(id, action) => self.update_fault(limits, *id, action).is_none(),
            Held::SharedDestroyed(id) => self.destroy_fault(*id).is_none(),
        }
    }

    /// Whether a rule of this id stands in a table.
    fn is_in_table(&self, id: u32) -> bool
        ensures { result ≡ list_any (is_table_rule_of id) (state_in self.now).rules }
    {
        // The list tells that no id stands twice.
        let _number = self.rules.len();
        match self.rules.get(id) {
            Some(entry) => entry.table.is_some(),
            None => false,
        }
    }

    /// An operation that succeeds takes effect.
    fn take(&mut self, limits: &Limits, op: Held, changes: &mut ChangeList)
        requires port { limits.now.rxq ≡ (state_in self.old).rxq }
        requires ready { IsReady self.old op }
        requires room { 1 ≤ self.old.room }
        requires changes_room { 1 ≤ changes.old.room }
        ensures state { (state_in self.new) ≡ taken (state_in self.old) op }
        ensures changes { changes.new.list ≡ changes.old.list ++ change_of op ∷ [] }
        ensures counts { (c : Counter) → count_in self.new c ≡ while_there (is_there c (flows_of (state_in self.new))) (count_in self.old c) }
        ensures room { self.old.room ≤ self.new.room + 1 }
        ensures changes_room { changes.old.room ≤ changes.new.room + 1 }
        ensures kept { (others : List Held) → IsAlone op others → AreKeptFor self.old.ids self.old.templates self.old.shared (op ∷ others)
            → AreKeptFor self.new.ids self.new.templates self.new.shared others }
    {
        let change = match op {
            Held::RuleCreated(rule, table) => Change::Added(self.take_rule(rule, table)),
            Held::RuleDestroyed(id) => self.destroy(id),
            Held::SharedCreated(id, action) => self.activate(id, action),
            Held::SharedUpdated(id, action) => self.replace(limits, id, action),
            Held::SharedDestroyed(id) => self.unshare(id),
        };
        changes.add(change);
    }
}

/// Whether a rule whose creation is held uses a shared action.
pub(crate) fn is_held_used(queues: &[OpQueue<Held>], id: u16) -> bool
    ensures { result ≡ list_any (λ (queue : Queue Held). list_any (is_held_user id) queue.held) queues.now }
{
    queues.iter().any(|queue| holds_user(queue, id))
}

/// Whether one of the operations of a queue is the creation of a rule that uses a shared action.
fn holds_user(queue: &OpQueue<Held>, id: u16) -> bool
    ensures { result ≡ list_any (is_held_user id) queue.now.held }
{
    let halves = queue.held();
    if uses_any(halves.0, id) {
        return true;
    }
    uses_any(halves.1, id)
}

fn uses_any(ops: &[Held], id: u16) -> bool
    ensures { result ≡ list_any (is_held_user id) ops.now }
{
    ops.iter().any(|op| uses(op, id))
}

fn uses(op: &Held, id: u16) -> bool
    ensures { result ≡ is_held_user id op.now }
{
    match op {
        Held::RuleCreated(rule, _) => has_shared(id as u32, rule.get().actions().list.as_slice()),
        Held::RuleDestroyed(_)
        | Held::SharedCreated(..)
        | Held::SharedUpdated(..)
        | Held::SharedDestroyed(_) => false,
    }
}
