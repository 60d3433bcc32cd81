//! The flow queues of a state.
ghost use Rattle.std.specs.Prelude.{◌≡◌, ◌||◌, ◌+◌, ◌-◌, ◌^◌, ◌≤◌, ◌<◌, ◌∷◌, nat_eq, nat_lt, length, replicate, None, IfOk, IsSome, OnOk, OnErr};
ghost use Rattle.flow_rules.specs.RuleView.{RuleView};
ghost use Rattle.flow_rules.specs.Shared.{IsSharedOn};
ghost use Rattle.indirect_counters.specs.Sound.{CanAdd};
ghost use Rattle.template_tables.specs.Slots.{slot_refusals};
ghost use Rattle.template_tables.specs.TemplatesView.{table_of};
ghost use Rattle.port_state.specs.declared.held.Held.TheVariants as held;
ghost use Rattle.flow_rules.specs.Faults.{first};
ghost use Rattle.flow_rules.specs.declared.counter.Counter.{Counter};
ghost use Rattle.op_queues.specs.OpQueue.{empty_queue};
ghost use Rattle.port_state.specs.Apart.{AreApart};
ghost use Rattle.port_state.specs.Effect.{AreQueuesDue, CanHold, queue_operations};
ghost use Rattle.port_state.specs.Kept.{AreKept, AreKeptFor};
ghost use Rattle.port_state.specs.KeptState.{state_in, count_in};
ghost use Rattle.port_state.specs.State.{admitted, all_held, id_taken, configure_refusals, configured, full_fault, pulled, queue_at, queue_fault, waiting};

use crate::effect::QueueEffect;
use crate::held::Held;
use crate::state::{State, plain};
use flow_actions::Action;
use flow_rules::{Cause, Fault};
use op_queues::{MAX_SIZE, OpQueue, Outcomes};
use std::alloc::{AllocError, Global};

/// The most flow queues.
const MAX_QUEUES: u32 = 8;

impl State {
    /// Why flow queues aren't configured so, if they aren't.
    pub(crate) fn configure_fault(&self, queues: u32, size: u32) -> Option<Fault>
        ensures { result ≡ first (configure_refusals (state_in self.now) queues size) }
    {
        if self.queues.len() > 0 {
            return Some(plain(Cause::AlreadyConfigured));
        }
        if is_out_of_range(queues, size) {
            return Some(plain(Cause::QueueRange));
        }
        None
    }

    /// Why nothing can be asked of a flow queue, if it can't: there is none of this number.
    pub(crate) fn queue_fault(&self, queue: u16) -> Option<Fault>
        ensures { result ≡ queue_fault (state_in self.now) queue }
    {
        if queue as usize >= self.queues.len() {
            return Some(plain(Cause::NoQueue));
        }
        None
    }

    /// Why a flow queue doesn't hold one more operation, if it doesn't.
    pub(crate) fn full_fault(&self, queue: u16) -> Option<Fault>
        ensures { result ≡ full_fault (state_in self.now) queue }
    {
        if let Some(fault) = self.queue_fault(queue) {
            return Some(fault);
        }
        if self.queues[queue as usize].in_flight() == self.queue_size {
            return Some(plain(Cause::QueueFull));
        }
        None
    }

    /// The results that wait in a flow queue.
    pub(crate) fn results(&self, queue: u16) -> Outcomes
        requires { queue_fault (state_in self.now) queue ≡ None }
        ensures { result ≡ (queue_at queue (state_in self.now)).results }
    {
        self.queues[queue as usize].results()
    }

    /// How many operations an effect on flow queues may let take effect.
    pub(crate) fn queue_operations(&self, effect: &QueueEffect) -> u32
        requires { AreQueuesDue (state_in self.now) effect.now }
        ensures { result ≡ queue_operations (state_in self.now) effect.now }
    {
        match effect {
            QueueEffect::Enqueued {
                queue,
                postpone,
                ..
            } => {
                if *postpone {
                    0
                } else {
                    self.held_number(*queue) as u32 + 1
                }
            }
            QueueEffect::Pushed(queue) => self.held_number(*queue) as u32,
            QueueEffect::Configured(..) | QueueEffect::Pulled(_) => 0,
        }
    }

    /// So many flow queues are there, all empty. Want of memory leaves all as it was.
    pub(crate) fn configure(
        &mut self,
        alloc: Global,
        queues: u32,
        size: u32,
    ) -> Result<(), AllocError>
        requires due { first (configure_refusals (state_in self.old) queues size) ≡ None }
        requires kept { AreKept self.old }
        ensures state { OnOk result ((state_in self.new) ≡ configured queues size (state_in self.old)) }
        ensures counts { OnOk result ((c : Counter) → count_in self.new c ≡ count_in self.old c) }
        ensures kept { OnOk result (AreKept self.new) }
        ensures stays { OnErr result (self.new ≡ self.old) }
    {
        self.queues = empty_queues(alloc, queues, size as u16)?;
        self.queue_size = size as u16;
        Ok(())
    }

    /// A flow queue holds an operation, behind the others. The creation of a rule takes an id and a slot of its table, and that of a
    /// shared action takes its id.
    pub(crate) fn hold(&mut self, queue: u16, op: Held)
        requires room { full_fault (state_in self.old) queue ≡ None }
        requires can { CanHold (state_in self.old) op }
        requires shared_room { 1 ≤ self.old.shared_room }
        requires kept { AreKept self.old }
        requires apart { AreApart (state_in self.old) }
        ensures state { (state_in self.new) ≡ waiting queue op (state_in self.old) }
        ensures counts { (c : Counter) → count_in self.new c ≡ count_in self.old c }
        ensures kept { AreKept self.new }
        ensures room { self.old.room ≤ self.new.room }
    {
        self.admit(&op);
        let _ = self.queues[queue as usize].hold(op);
    }

    /// What an operation needs is taken for it: an id and a slot of its table for a rule, its id for a shared action.
    fn admit(&mut self, op: &Held)
        requires can { CanHold (state_in self.old) op.now }
        requires shared_room { 1 ≤ self.old.shared_room }
        requires kept { AreKept self.old }
        ensures state { (state_in self.new) ≡ admitted op.now (state_in self.old) }
        ensures counts { (c : Counter) → count_in self.new c ≡ count_in self.old c }
        ensures kept { AreKeptFor self.new.ids self.new.templates self.new.shared (op.now ∷ all_held (state_in self.old)) }
        ensures room { self.old.room ≤ self.new.room }
    {
        // What is reserved for rules of tables is known of a state.
        let _templates = &self.templates;
        match op {
            Held::RuleCreated(rule, table) => self.take_slot(*table, rule.get().id()),
            Held::SharedCreated(id, action) => self.hold_shared(*id, action),
            Held::RuleDestroyed(_) | Held::SharedUpdated(..) | Held::SharedDestroyed(_) => {}
        }
    }

    /// A slot of a table is reserved for the id that is given next, and the id is given.
    fn take_slot(&mut self, table: u16, id: u32)
        requires id { id ≡ self.old.ids }
        requires more { self.old.ids < 2 ^ 32 - 1 }
        requires there { IsSome (table_of table self.old.templates) }
        requires free { first (slot_refusals (table_of table self.old.templates)) ≡ None }
        requires kept { AreKept self.old }
        ensures state { (state_in self.new) ≡ id_taken (state_in self.old) }
        ensures counts { (c : Counter) → count_in self.new c ≡ count_in self.old c }
        ensures kept { (rule : RuleView) → rule.id ≡ id
            → AreKeptFor self.new.ids self.new.templates self.new.shared (held.RuleCreated rule table ∷ all_held (state_in self.old)) }
        ensures room { self.old.room ≤ self.new.room }
    {
        let _ = self.templates.reserve_slot(table, id);
        self.ids += 1;
    }

    /// An id is taken for a shared action whose creation is held.
    fn hold_shared(&mut self, id: u16, action: &Action)
        requires free { CanAdd id action.now self.old.shared }
        requires lawful { IsSharedOn self.old.rxq action.now }
        requires room { 1 ≤ self.old.shared_room }
        requires kept { AreKept self.old }
        ensures state { (state_in self.new) ≡ (state_in self.old) }
        ensures counts { (c : Counter) → count_in self.new c ≡ count_in self.old c }
        ensures kept { AreKeptFor self.new.ids self.new.templates self.new.shared (held.SharedCreated id action.now ∷ all_held (state_in self.old)) }
        ensures room { self.old.room ≤ self.new.room }
    {
        // The list tells that no id stands twice, before and behind.
        let _before = self.shared.len();
        self.shared.add(id, action, true);
        let _behind = self.shared.len();
    }

    /// The results that wait in a flow queue are removed.
    pub(crate) fn pull(&mut self, queue: u16)
        requires there { queue_fault (state_in self.old) queue ≡ None }
        ensures state { (state_in self.new) ≡ pulled queue (state_in self.old) }
        ensures counts { (c : Counter) → count_in self.new c ≡ count_in self.old c }
        ensures kept { AreKept self.old → AreKept self.new }
        ensures room { self.old.room ≤ self.new.room }
    {
        let _ = self.queues[queue as usize].pull(MAX_SIZE);
    }
}

/// Whether a port can't have so many flow queues, each for so many operations in flight.
fn is_out_of_range(queues: u32, size: u32) -> bool
    ensures { result ≡ (nat_eq queues 0 || nat_lt 8 queues || nat_eq size 0 || nat_lt 1024 size) }
{
    queues == 0 || queues > MAX_QUEUES || size == 0 || size > MAX_SIZE as u32
}

/// So many queues for so many operations each, all empty.
fn empty_queues(alloc: Global, number: u32, size: u16) -> Result<Vec<OpQueue<Held>>, AllocError>
    requires { (1 ≤ size) × (size ≤ 1024) }
    ensures { IfOk result (λ queues. queues.items ≡ replicate number (empty_queue size)) }
{
    let mut queues = Vec::new(alloc);
    for _ in 0..number {
        queues.push(OpQueue::new(alloc, size)?)?;
    }
    Ok(queues)
}
