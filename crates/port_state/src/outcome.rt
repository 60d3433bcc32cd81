//! The reply to a call, and what the call does.
ghost use Rattle.std.specs.Prelude.{◌≡◌, [], ◌∷◌, IfOk, if◌then◌else◌};
ghost use Rattle.std.specs.Result.{result_err};
ghost use Rattle.flow_rules.specs.Faults.{first_fault, rule_of};
ghost use Rattle.object_ids.specs.Ids.{id_for};
ghost use Rattle.indirect_counters.specs.Refusals as shared_calls;
ghost use Rattle.port_state.specs.State.{create_fault, destroyed, is_in_effect, kinds_in, next_state, objects, shared_gone, unless_refused};
ghost use Rattle.port_state.specs.KeptState.{state_in};
ghost use Rattle.port_state.specs.Standing.{standing_kept};
ghost use Rattle.flow_rules.specs.declared.change.Change.TheVariants as changes;
ghost use Rattle.port_state.specs.Changes.{change_unless_refused, changes_by};
ghost use Rattle.port_state.specs.Effect.{changes_done, done, IsDue};
ghost use Rattle.port_state.specs.Kept.{AreKept};
ghost use Rattle.port_state.specs.Reply.{answer_of, reply_to_destroy, unless};
ghost use Rattle.flow_calls.specs.declared.call.Op.TheVariants as ops;
ghost use Rattle.port_state.specs.declared.effect.Effect.TheVariants as effects;
ghost use Rattle.port_state.specs.declared.effect.RuleEffect.TheVariants as rules;
ghost use Rattle.flow_calls.specs.declared.reply.Reply.TheVariants as replies;

use crate::effect::{Effect, RuleEffect, TemplateEffect};
use crate::held::Held;
use crate::queue_calls::{
    QueuePlace, configured, held_unless_full, pulled, pushed, rule_held, shared_held,
    shared_update_held,
};
use crate::standing::Standing;
use crate::state::{State, plain};
use crate::template_calls::templates_called;
use flow_actions::Action;
use flow_calls::{Op, OpKind, Reply};
use flow_rules::{Attr, Cause, Fault, Limits, Rule, RuleSpec, validate};
use shared_value::Shared;
use std::alloc::{AllocError, Global};

/// The reply to a call, and what the call does.
#[derive(Drop)]
pub struct Judged {
    pub reply: Reply,
    pub effect: Effect,
}

/// What a call comes to.
pub fn judge(
    alloc: Global,
    limits: &Limits,
    standing: &Standing,
    op: &Op,
) -> Result<Judged, AllocError>
    requires port { limits.now.rxq ≡ (state_in standing.now.state).rxq }
    requires kept { AreKept standing.now.state }
    ensures reply { IfOk result (λ j. j.reply ≡ answer_of limits.now (standing_kept standing.now) op.now) }
    ensures effect { IfOk result (λ j. done (state_in standing.now.state) j.effect ≡ next_state limits.now (state_in standing.now.state) op.now) }
    ensures due { IfOk result (λ j. IsDue (state_in standing.now.state) j.effect) }
    ensures changes { IfOk result (λ j. changes_done (state_in standing.now.state) j.effect ≡ changes_by limits.now (state_in standing.now.state) op.now) }
{
    let state = &standing.state;
    match op {
        Op::Validate(spec) => Ok(replies(validated(limits, state, spec.get()))),
        Op::Create(spec) => created(alloc, limits, state, spec.get()),
        Op::Destroy(id) => Ok(destroyed(state, *id)),
        Op::Flush => Ok(changes_rules(Reply::Flushed, RuleEffect::Flushed)),
        Op::Query(id) => Ok(replies(state.query(*id))),
        Op::List => Ok(replies(Reply::Listed(state.list(alloc)?))),
        Op::Isolate(on) => Ok(changes_rules(Reply::Isolated(*on), RuleEffect::Isolated(*on))),
        Op::IndirectCreate { id, attr, action } => Ok(shared_created(
            limits,
            state,
            *id,
            attr,
            action.get(),
        )),
        Op::IndirectUpdate { id, action } => {
            Ok(shared_updated(limits, state, *id, action.get()))
        }
        Op::IndirectDestroy(id) => Ok(shared_destroyed(state, *id)),
        Op::IndirectQuery(id) => Ok(replies(state.query_shared(*id))),
        Op::PatternTemplateCreate { id, attr, pattern } => {
            let effect = TemplateEffect::PatternMade {
                id: *id,
                attr: *attr,
                pattern: pattern.clone()?,
            };
            Ok(templates_called(state, effect))
        }
        Op::PatternTemplateDestroy(id) => Ok(templates_called(
            state,
            TemplateEffect::PatternGone(*id),
        )),
        Op::ActionsTemplateCreate { id, attr, lists } => {
            let effect = TemplateEffect::ActionsMade {
                id: *id,
                attr: *attr,
                lists: lists.clone()?,
            };
            Ok(templates_called(state, effect))
        }
        Op::ActionsTemplateDestroy(id) => Ok(templates_called(
            state,
            TemplateEffect::ActionsGone(*id),
        )),
        Op::TableCreate {
            id,
            attr,
            rules_number,
            templates,
        } => {
            let effect = TemplateEffect::TableMade {
                id: *id,
                attr: *attr,
                rules_number: *rules_number,
                templates: templates.clone()?,
            };
            Ok(templates_called(state, effect))
        }
        Op::TableDestroy(id) => Ok(templates_called(state, TemplateEffect::TableGone(*id))),
        Op::Configure { queues, size } => Ok(configured(state, *queues, *size)),
        Op::QueueCreate {
            queue,
            postpone,
            table,
            pt,
            act,
            lists,
        } => {
            let place = QueuePlace::new(*queue, *postpone);
            rule_held(alloc, limits, state, place, *table, *pt, *act, lists.get())
        }
        Op::QueueDestroy {
            queue,
            postpone,
            rule,
        } => {
            let place = QueuePlace::new(*queue, *postpone);
            let op = Held::RuleDestroyed(*rule);
            Ok(held_unless_full(state, place, OpKind::RuleDestroy, *rule, op))
        }
        Op::QueueIndirectCreate {
            queue,
            postpone,
            id,
            attr,
            action,
        } => {
            let place = QueuePlace::new(*queue, *postpone);
            Ok(shared_held(limits, state, place, *id, attr, action.get()))
        }
        Op::QueueIndirectUpdate {
            queue,
            postpone,
            id,
            action,
        } => {
            let place = QueuePlace::new(*queue, *postpone);
            Ok(shared_update_held(limits, state, place, *id, action.get()))
        }
        Op::QueueIndirectDestroy {
            queue,
            postpone,
            id,
        } => {
            let place = QueuePlace::new(*queue, *postpone);
            let op = Held::SharedDestroyed(*id);
            Ok(held_unless_full(state, place, OpKind::IndirectDestroy, *id as u32, op))
        }
        Op::Push(queue) => Ok(pushed(state, *queue)),
        Op::Pull(queue) => pulled(alloc, state, *queue),
        Op::Start(_) => Ok(replies(Reply::Started)),
        Op::Stop => Ok(replies(Reply::Stopped(Shared::new(alloc, standing.totals)?))),
        Op::Quit => Ok(replies(Reply::Bye)),
        Op::Bad(kind) => Ok(replies(Reply::Bad(*kind))),
    }
}

/// A reply alone.
pub(crate) fn replies(reply: Reply) -> Judged
    ensures { result ≡ record { reply = reply; effect = effects.Nothing } }
{
    Judged {
        reply,
        effect: Effect::Nothing,
    }
}

/// A fault.
pub(crate) fn refuses(fault: Fault) -> Judged
    ensures { result ≡ record { reply = replies.Fault fault; effect = effects.Nothing } }
{
    replies(Reply::Fault(fault))
}

/// A reply, and what is done to rules.
fn changes_rules(reply: Reply, effect: RuleEffect) -> Judged
    ensures { result ≡ record { reply = reply; effect = effects.Rules effect } }
{
    Judged {
        reply,
        effect: Effect::Rules(effect),
    }
}

/// Whether a rule would be taken.
fn validated(limits: &Limits, state: &State, spec: &RuleSpec) -> Reply
    ensures { result ≡ unless (first_fault limits.now (kinds_in (state_in state.now)) spec.now) replies.Validated }
{
    match validate(spec, limits, state, 0) {
        Ok(_) => Reply::Validated,
        Err(fault) => Reply::Fault(fault),
    }
}

/// The rule that takes effect, or the first fault.
fn new_rule(limits: &Limits, state: &State, spec: &RuleSpec) -> Result<Rule, Fault>
    ensures rule { IfOk result (λ rule. rule ≡ rule_of (state_in state.now).ids spec.now) }
    ensures fault { result_err result ≡ create_fault limits.now (state_in state.now) spec.now }
{
    let rule = match validate(spec, limits, state, state.next_id()) {
        Ok(rule) => rule,
        Err(fault) => return Err(fault),
    };
    match state.room_fault(limits) {
        Some(fault) => Err(fault),
        None => Ok(rule),
    }
}

fn created(
    alloc: Global,
    limits: &Limits,
    state: &State,
    spec: &RuleSpec,
) -> Result<Judged, AllocError>
    ensures reply { IfOk result (λ o. o.reply ≡ unless (create_fault limits.now (state_in state.now) spec.now) (replies.Created (state_in state.now).ids)) }
    ensures effect { IfOk result (λ o. done (state_in state.now) o.effect ≡ next_state limits.now (state_in state.now) (ops.Create spec.now)) }
    ensures due { IfOk result (λ o. IsDue (state_in state.now) o.effect) }
    ensures change { IfOk result (λ o. changes_done (state_in state.now) o.effect ≡ changes_by limits.now (state_in state.now) (ops.Create spec.now)) }
{
    match new_rule(limits, state, spec) {
        Ok(rule) => takes_effect(alloc, rule),
        Err(fault) => Ok(refuses(fault)),
    }
}

/// A rule takes effect. From here on it is shared by all who keep it.
fn takes_effect(alloc: Global, rule: Rule) -> Result<Judged, AllocError>
    ensures { IfOk result (λ o. o ≡ record { reply = replies.Created rule.id; effect = effects.Rules (rules.Created rule rule) }) }
{
    let id = rule.id();
    let rule = Shared::new(alloc, rule)?;
    let told = rule.clone()?;
    Ok(changes_rules(Reply::Created(id), RuleEffect::Created(rule, told)))
}

fn destroyed(state: &State, id: u32) -> Judged
    ensures reply { result.reply ≡ reply_to_destroy id (is_in_effect id (state_in state.now)) }
    ensures effect { done (state_in state.now) result.effect ≡ if is_in_effect id (state_in state.now) then destroyed id (state_in state.now) else (state_in state.now) }
    ensures due { IsDue (state_in state.now) result.effect }
    ensures change { changes_done (state_in state.now) result.effect ≡ if is_in_effect id (state_in state.now) then changes.Removed id ∷ [] else [] }
{
    if state.is_in_effect(id) {
        return changes_rules(Reply::Destroyed(id), RuleEffect::Destroyed(id));
    }
    refuses(plain(Cause::NoRule))
}

fn shared_created(
    limits: &Limits,
    state: &State,
    id: Option<u16>,
    attr: &Attr,
    action: &Action,
) -> Judged
    requires kept { AreKept state.now }
    requires port { limits.now.rxq ≡ (state_in state.now).rxq }
    ensures reply { result.reply ≡ unless (shared_calls.create_fault (state_in state.now).rxq (objects (state_in state.now)) id attr.now action.now)
        (replies.IndirectCreated (id_for id (objects (state_in state.now)))) }
    ensures effect { done (state_in state.now) result.effect ≡ next_state limits.now (state_in state.now) (ops.IndirectCreate id attr.now action.now) }
    ensures due { IsDue (state_in state.now) result.effect }
    ensures change { changes_done (state_in state.now) result.effect ≡ changes_by limits.now (state_in state.now) (ops.IndirectCreate id attr.now action.now) }
{
    if let Some(fault) = state.create_fault(limits, id, attr, action) {
        return refuses(fault);
    }
    let new = state.new_id(id);
    changes_rules(
        Reply::IndirectCreated(new),
        RuleEffect::SharedCreated(new, action.copied()),
    )
}

fn shared_updated(limits: &Limits, state: &State, id: u16, action: &Action) -> Judged
    requires port { limits.now.rxq ≡ (state_in state.now).rxq }
    ensures reply { result.reply ≡ unless (shared_calls.update_fault (state_in state.now).rxq (objects (state_in state.now)) id action.now) (replies.IndirectUpdated id) }
    ensures effect { done (state_in state.now) result.effect ≡ next_state limits.now (state_in state.now) (ops.IndirectUpdate id action.now) }
    ensures due { IsDue (state_in state.now) result.effect }
    ensures change { changes_done (state_in state.now) result.effect ≡ changes_by limits.now (state_in state.now) (ops.IndirectUpdate id action.now) }
{
    match state.update_fault(limits, id, action) {
        Some(fault) => refuses(fault),
        None => changes_rules(
            Reply::IndirectUpdated(id),
            RuleEffect::SharedUpdated(id, action.copied()),
        ),
    }
}

fn shared_destroyed(state: &State, id: u16) -> Judged
    ensures reply { result.reply ≡ unless (shared_calls.destroy_fault (objects (state_in state.now)) id) (replies.IndirectDestroyed id) }
    ensures effect { done (state_in state.now) result.effect
        ≡ unless_refused (shared_calls.destroy_fault (objects (state_in state.now)) id) (shared_gone id (state_in state.now)) (state_in state.now) }
    ensures due { IsDue (state_in state.now) result.effect }
    ensures change { changes_done (state_in state.now) result.effect
        ≡ change_unless_refused (shared_calls.destroy_fault (objects (state_in state.now)) id) (changes.IndirectGone id) }
{
    match state.destroy_fault(id) {
        Some(fault) => refuses(fault),
        None => changes_rules(
            Reply::IndirectDestroyed(id),
            RuleEffect::SharedDestroyed(id),
        ),
    }
}
