//! What the calls on flow queues come to.
ghost use Rattle.std.specs.Prelude.{◌≡◌, [], None, IfOk};
ghost use Rattle.flow_rules.specs.Faults.{first};
ghost use Rattle.object_ids.specs.Ids.{id_for};
ghost use Rattle.indirect_counters.specs.Refusals as shared_calls;
ghost use Rattle.flow_calls.specs.declared.call.Op.TheVariants as ops;
ghost use Rattle.flow_calls.specs.declared.reply.OpKind.TheVariants as kinds;
ghost use Rattle.flow_calls.specs.declared.reply.Reply.TheVariants as replies;
ghost use Rattle.port_state.specs.Changes.{changes_by, changes_enqueued, changes_pushed, unless_refused_changes};
ghost use Rattle.port_state.specs.Effect.{CanHold, changes_done, done, IsDue};
ghost use Rattle.port_state.specs.Kept.{AreKept};
ghost use Rattle.port_state.specs.KeptState.{state_in};
ghost use Rattle.port_state.specs.Reply.{unless};
ghost use Rattle.port_state.specs.State.{configure_refusals, configured, enqueued, first_of, full_fault, next_state, objects, pulled, pushed, queue_at, queue_fault, table_rule_fault, unless_refused};
ghost use Rattle.port_state.specs.declared.effect.Effect.TheVariants as effects;
ghost use Rattle.port_state.specs.declared.effect.QueueEffect.TheVariants as queues;
ghost use Rattle.port_state.specs.declared.held.Held.TheVariants as operations;

use crate::effect::{Effect, QueueEffect};
use crate::held::{Held, HeldRule};
use crate::outcome::{Judged, refuses};
use crate::state::State;
use flow_actions::Action;
use flow_calls::{OpKind, Reply, RuleLists};
use flow_rules::{Attr, Limits, Rule};
use indirect_counters::queued_update_fault;
use shared_value::Shared;
use std::alloc::{AllocError, Global};

/// The flow queue that holds an operation, and whether its turn waits for a push.
#[derive(Clone, Copy)]
pub(crate) struct QueuePlace {
    queue: u16,
    postpone: bool,
}

impl QueuePlace {
    pub(crate) fn new(queue: u16, postpone: bool) -> QueuePlace
        ensures { result ≡ record { queue = queue; postpone = postpone } }
    {
        QueuePlace { queue, postpone }
    }
}

/// A reply, and what is done to flow queues.
fn changes_queues(reply: Reply, effect: QueueEffect) -> Judged
    ensures { result ≡ record { reply = reply; effect = effects.Queues effect } }
{
    Judged {
        reply,
        effect: Effect::Queues(effect),
    }
}

/// What holding an operation comes to that has no fault of its own.
fn held(state: &State, place: QueuePlace, kind: OpKind, id: u32, op: Held) -> Judged
    requires room { full_fault (state_in state.now) place.queue ≡ None }
    requires can { CanHold (state_in state.now) op }
    ensures reply { result.reply ≡ replies.Enqueued kind id }
    ensures effect { done (state_in state.now) result.effect ≡ enqueued place.queue place.postpone op (state_in state.now) }
    ensures due { IsDue (state_in state.now) result.effect }
    ensures changes { changes_done (state_in state.now) result.effect ≡ changes_enqueued place.queue place.postpone op (state_in state.now) }
{
    let _state = state;
    changes_queues(
        Reply::Enqueued(kind, id),
        QueueEffect::Enqueued {
            queue: place.queue,
            postpone: place.postpone,
            op,
        },
    )
}

/// What holding an operation comes to that is refused where its queue is full, and for nothing else.
pub(crate) fn held_unless_full(
    state: &State,
    place: QueuePlace,
    kind: OpKind,
    id: u32,
    op: Held,
) -> Judged
    requires { CanHold (state_in state.now) op }
    ensures reply { result.reply ≡ unless (full_fault (state_in state.now) place.queue) (replies.Enqueued kind id) }
    ensures effect { done (state_in state.now) result.effect
        ≡ unless_refused (full_fault (state_in state.now) place.queue) (enqueued place.queue place.postpone op (state_in state.now)) (state_in state.now) }
    ensures due { IsDue (state_in state.now) result.effect }
    ensures changes { changes_done (state_in state.now) result.effect
        ≡ unless_refused_changes (full_fault (state_in state.now) place.queue) (changes_enqueued place.queue place.postpone op (state_in state.now)) }
{
    match state.full_fault(place.queue) {
        Some(fault) => refuses(fault),
        None => held(state, place, kind, id, op),
    }
}

/// What configuring flow queues comes to.
pub(crate) fn configured(state: &State, number: u32, size: u32) -> Judged
    ensures reply { result.reply ≡ unless (first (configure_refusals (state_in state.now) number size)) (replies.Configured number size) }
    ensures effect { done (state_in state.now) result.effect
        ≡ unless_refused (first (configure_refusals (state_in state.now) number size)) (configured number size (state_in state.now)) (state_in state.now) }
    ensures due { IsDue (state_in state.now) result.effect }
    ensures changes { changes_done (state_in state.now) result.effect ≡ [] }
{
    match state.configure_fault(number, size) {
        Some(fault) => refuses(fault),
        None => changes_queues(
            Reply::Configured(number, size),
            QueueEffect::Configured(number, size),
        ),
    }
}

/// What holding the creation of a rule of a table comes to.
pub(crate) fn rule_held(
    alloc: Global,
    limits: &Limits,
    state: &State,
    place: QueuePlace,
    table: u16,
    pt: u16,
    act: u16,
    lists: &RuleLists,
) -> Result<Judged, AllocError>
    requires kept { AreKept state.now }
    ensures reply { IfOk result (λ j. j.reply
        ≡ unless (first_of (full_fault (state_in state.now) place.queue) (table_rule_fault limits.now (state_in state.now) table pt act lists.now)) (replies.Enqueued kinds.RuleCreate (state_in state.now).ids)) }
    ensures effect { IfOk result (λ j. done (state_in state.now) j.effect
        ≡ next_state limits.now (state_in state.now) (ops.QueueCreate place.queue place.postpone table pt act lists.now)) }
    ensures due { IfOk result (λ j. IsDue (state_in state.now) j.effect) }
    ensures changes { IfOk result (λ j. changes_done (state_in state.now) j.effect
        ≡ changes_by limits.now (state_in state.now) (ops.QueueCreate place.queue place.postpone table pt act lists.now)) }
{
    if let Some(fault) = state.full_fault(place.queue) {
        return Ok(refuses(fault));
    }
    match state.table_rule(limits, table, pt, act, lists) {
        Ok(rule) => creation_held(alloc, state, place, table, rule),
        Err(fault) => Ok(refuses(fault)),
    }
}

/// What holding the creation of this rule comes to. From here on the rule is shared by all who keep it.
fn creation_held(
    alloc: Global,
    state: &State,
    place: QueuePlace,
    table: u16,
    rule: Rule,
) -> Result<Judged, AllocError>
    requires room { full_fault (state_in state.now) place.queue ≡ None }
    requires can { CanHold (state_in state.now) (operations.RuleCreated rule table) }
    ensures reply { IfOk result (λ j. j.reply ≡ replies.Enqueued kinds.RuleCreate (state_in state.now).ids) }
    ensures effect { IfOk result (λ j. done (state_in state.now) j.effect ≡ enqueued place.queue place.postpone (operations.RuleCreated rule table) (state_in state.now)) }
    ensures due { IfOk result (λ j. IsDue (state_in state.now) j.effect) }
    ensures changes { IfOk result (λ j. changes_done (state_in state.now) j.effect
        ≡ changes_enqueued place.queue place.postpone (operations.RuleCreated rule table) (state_in state.now)) }
{
    let id = rule.id();
    let rule = HeldRule::new(Shared::new(alloc, rule)?)?;
    let op = Held::RuleCreated(rule, table);
    Ok(held(state, place, OpKind::RuleCreate, id, op))
}

/// What holding the creation of a shared action comes to.
pub(crate) fn shared_held(
    limits: &Limits,
    state: &State,
    place: QueuePlace,
    id: Option<u16>,
    attr: &Attr,
    action: &Action,
) -> Judged
    requires port { limits.now.rxq ≡ (state_in state.now).rxq }
    requires kept { AreKept state.now }
    ensures reply { result.reply
        ≡ unless (first_of (full_fault (state_in state.now) place.queue) (shared_calls.create_fault (state_in state.now).rxq (objects (state_in state.now)) id attr.now action.now))
        (replies.Enqueued kinds.IndirectCreate (id_for id (objects (state_in state.now)))) }
    ensures effect { done (state_in state.now) result.effect
        ≡ unless_refused (first_of (full_fault (state_in state.now) place.queue) (shared_calls.create_fault (state_in state.now).rxq (objects (state_in state.now)) id attr.now action.now))
        (enqueued place.queue place.postpone (operations.SharedCreated (id_for id (objects (state_in state.now))) action.now) (state_in state.now)) (state_in state.now) }
    ensures due { IsDue (state_in state.now) result.effect }
    ensures changes { changes_done (state_in state.now) result.effect
        ≡ unless_refused_changes (first_of (full_fault (state_in state.now) place.queue) (shared_calls.create_fault (state_in state.now).rxq (objects (state_in state.now)) id attr.now action.now))
        (changes_enqueued place.queue place.postpone (operations.SharedCreated (id_for id (objects (state_in state.now))) action.now) (state_in state.now)) }
{
    if let Some(fault) = state.full_fault(place.queue) {
        return refuses(fault);
    }
    if let Some(fault) = state.create_fault(limits, id, attr, action) {
        return refuses(fault);
    }
    let new = state.new_id(id);
    held(
        state,
        place,
        OpKind::IndirectCreate,
        new as u32,
        Held::SharedCreated(new, action.copied()),
    )
}

/// What holding a new value of a shared action comes to.
pub(crate) fn shared_update_held(
    limits: &Limits,
    state: &State,
    place: QueuePlace,
    id: u16,
    action: &Action,
) -> Judged
    requires port { limits.now.rxq ≡ (state_in state.now).rxq }
    ensures reply { result.reply
        ≡ unless (first_of (full_fault (state_in state.now) place.queue) (shared_calls.queued_update_fault (state_in state.now).rxq action.now)) (replies.Enqueued kinds.IndirectUpdate id) }
    ensures effect { done (state_in state.now) result.effect
        ≡ unless_refused (first_of (full_fault (state_in state.now) place.queue) (shared_calls.queued_update_fault (state_in state.now).rxq action.now))
        (enqueued place.queue place.postpone (operations.SharedUpdated id action.now) (state_in state.now)) (state_in state.now) }
    ensures due { IsDue (state_in state.now) result.effect }
    ensures changes { changes_done (state_in state.now) result.effect
        ≡ unless_refused_changes (first_of (full_fault (state_in state.now) place.queue) (shared_calls.queued_update_fault (state_in state.now).rxq action.now))
        (changes_enqueued place.queue place.postpone (operations.SharedUpdated id action.now) (state_in state.now)) }
{
    if let Some(fault) = state.full_fault(place.queue) {
        return refuses(fault);
    }
    match queued_update_fault(action, limits) {
        Some(fault) => refuses(fault),
        None => held(
            state,
            place,
            OpKind::IndirectUpdate,
            id as u32,
            Held::SharedUpdated(id, action.copied()),
        ),
    }
}

/// What a push comes to.
pub(crate) fn pushed(state: &State, queue: u16) -> Judged
    ensures reply { result.reply ≡ unless (queue_fault (state_in state.now) queue) (replies.Pushed queue) }
    ensures effect { done (state_in state.now) result.effect ≡ unless_refused (queue_fault (state_in state.now) queue) (pushed queue (state_in state.now)) (state_in state.now) }
    ensures due { IsDue (state_in state.now) result.effect }
    ensures changes { changes_done (state_in state.now) result.effect ≡ unless_refused_changes (queue_fault (state_in state.now) queue) (changes_pushed queue (state_in state.now)) }
{
    match state.queue_fault(queue) {
        Some(fault) => refuses(fault),
        None => changes_queues(Reply::Pushed(queue), QueueEffect::Pushed(queue)),
    }
}

/// What a pull comes to.
pub(crate) fn pulled(alloc: Global, state: &State, queue: u16) -> Result<Judged, AllocError>
    ensures reply { IfOk result (λ j. j.reply ≡ unless (queue_fault (state_in state.now) queue) (replies.Pulled queue (queue_at queue (state_in state.now)).results)) }
    ensures effect { IfOk result (λ j. done (state_in state.now) j.effect ≡ unless_refused (queue_fault (state_in state.now) queue) (pulled queue (state_in state.now)) (state_in state.now)) }
    ensures due { IfOk result (λ j. IsDue (state_in state.now) j.effect) }
    ensures changes { IfOk result (λ j. changes_done (state_in state.now) j.effect ≡ []) }
{
    if let Some(fault) = state.queue_fault(queue) {
        return Ok(refuses(fault));
    }
    let results = Shared::new(alloc, state.results(queue))?;
    Ok(changes_queues(Reply::Pulled(queue, results), QueueEffect::Pulled(queue)))
}
