//! What the calls on templates and tables come to.
ghost use Rattle.std.specs.Prelude.{◌≡◌, []};
ghost use Rattle.flow_rules.specs.Faults.{first};
ghost use Rattle.port_state.specs.State.{with_templates, unless_refused};
ghost use Rattle.port_state.specs.Kept.{AreKept};
ghost use Rattle.port_state.specs.KeptState.{state_in};
ghost use Rattle.port_state.specs.Effect.{changes_done, done, templates_done, IsDue};
ghost use Rattle.port_state.specs.Reply.{unless};
ghost use Rattle.port_state.specs.TemplateCalls.{template_refusals, template_reply};

use crate::effect::{Effect, TemplateEffect};
use crate::outcome::{Judged, refuses};
use crate::state::State;
use flow_calls::Reply;
use flow_rules::Fault;

/// What a call comes to that changes templates or tables so.
pub(crate) fn templates_called(state: &State, effect: TemplateEffect) -> Judged
    requires { AreKept state.now }
    ensures reply { result.reply ≡ unless (first (template_refusals (state_in state.now) effect)) (template_reply (state_in state.now) effect) }
    ensures effect { done (state_in state.now) result.effect
        ≡ unless_refused (first (template_refusals (state_in state.now) effect)) (with_templates (templates_done effect) (state_in state.now)) (state_in state.now) }
    ensures due { IsDue (state_in state.now) result.effect }
    ensures changes { changes_done (state_in state.now) result.effect ≡ [] }
{
    match template_fault(state, &effect) {
        Some(fault) => refuses(fault),
        None => Judged {
            reply: template_reply(state, &effect),
            effect: Effect::Templates(effect),
        },
    }
}

/// Why templates and tables don't change so, if they don't.
fn template_fault(state: &State, effect: &TemplateEffect) -> Option<Fault>
    requires { AreKept state.now }
    ensures { result ≡ first (template_refusals (state_in state.now) effect.now) }
{
    match effect {
        TemplateEffect::PatternMade { id, attr, pattern } => {
            state.pattern_fault(*id, attr, pattern.get())
        }
        TemplateEffect::PatternGone(id) => state.pattern_end_fault(*id),
        TemplateEffect::ActionsMade { id, attr, lists } => {
            state.actions_fault(*id, attr, lists.get())
        }
        TemplateEffect::ActionsGone(id) => state.actions_end_fault(*id),
        TemplateEffect::TableMade {
            id,
            attr,
            rules_number,
            templates,
        } => state.table_fault(*id, attr, *rules_number, templates.get()),
        TemplateEffect::TableGone(id) => state.table_end_fault(*id),
    }
}

/// The reply where they do.
fn template_reply(state: &State, effect: &TemplateEffect) -> Reply
    ensures { result ≡ template_reply (state_in state.now) effect.now }
{
    match effect {
        TemplateEffect::PatternMade { id, .. } => {
            Reply::PatternTemplateCreated(state.pattern_id(*id))
        }
        TemplateEffect::PatternGone(id) => Reply::PatternTemplateDestroyed(*id),
        TemplateEffect::ActionsMade { id, .. } => {
            Reply::ActionsTemplateCreated(state.actions_id(*id))
        }
        TemplateEffect::ActionsGone(id) => Reply::ActionsTemplateDestroyed(*id),
        TemplateEffect::TableMade { id, .. } => Reply::TableCreated(state.table_id(*id)),
        TemplateEffect::TableGone(id) => Reply::TableDestroyed(*id),
    }
}
