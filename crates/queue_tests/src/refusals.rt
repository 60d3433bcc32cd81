//! When the plain model refuses: an id, an action, a rule.
use crate::plain::PlainPort;
use flow_actions::Action;
use flow_rules::{Cause, Fault, RuleSpec};
use std::alloc::AllocError;

/// Why there is no other reply.
#[derive(Clone, Copy)]
pub(crate) enum Refused {
    For(Fault),
    NoMemory,
}

impl From<AllocError> for Refused {
    ghost use Rattle.std.specs.Prelude.{◌≡◌};
    ghost use Rattle.queue_tests.specs.declared.refusals.Refused.TheVariants.{NoMemory};

    ghost from_gives = { λ _ refused. refused ≡ NoMemory };

    fn from(_value: AllocError) -> Refused {
        Refused::NoMemory
    }
}

pub(crate) fn refuse_at(is_so: bool, cause: Cause, at: u16) -> Result<(), Refused> {
    if is_so {
        return Err(Refused::For(Fault { cause, at }));
    }
    Ok(())
}

pub(crate) fn refuse_if(is_so: bool, cause: Cause) -> Result<(), Refused> {
    refuse_at(is_so, cause, 0)
}

/// What is there, or a refusal.
pub(crate) fn wanted<T>(found: Option<T>, cause: Cause) -> Result<T, Refused> {
    match found {
        Some(value) => Ok(value),
        None => Err(Refused::For(Fault { cause, at: 0 })),
    }
}

fn least_unused(ids: &[u16]) -> Option<u16> {
    for id in 0..=u16::MAX {
        if !ids.contains(&id) {
            return Some(id);
        }
    }
    None
}

/// The id of a new object where these ids are in use: the one that is asked for, or the least one that isn't in use. At most so
/// many objects may be there.
pub(crate) fn id_for(ids: &[u16], asked: Option<u16>, most: usize) -> Result<u16, Refused> {
    if let Some(id) = asked {
        refuse_if(ids.contains(&id), Cause::IdInUse)?;
    }
    refuse_if(ids.len() >= most, Cause::TooMany)?;
    wanted(asked.or(least_unused(ids)), Cause::TooMany)
}

/// Of the values of generated actions a queue alone may be out of range.
pub(crate) fn is_out_of_range(port: &PlainPort, action: &Action) -> bool {
    match action {
        Action::Queue(queue) => *queue >= port.limits.rxq as u16,
        _ => false,
    }
}

/// An action's own value, or the one that rules share where it names one that is in effect.
fn value_of<'a>(port: &'a PlainPort, action: &'a Action) -> Option<&'a Action> {
    match action {
        Action::Indirect(id) => port.object(u16::try_from(*id).ok()?),
        _ => Some(action),
    }
}

/// Whether an action says where a frame goes.
fn is_fate(port: &PlainPort, action: &Action) -> bool {
    match value_of(port, action) {
        Some(Action::Queue(_)) | Some(Action::Drop) => true,
        _ => false,
    }
}

fn has_fate(port: &PlainPort, list: &[Action]) -> bool {
    for action in list {
        if is_fate(port, action) {
            return true;
        }
    }
    false
}

/// Whether an action may be named only once in a list.
fn is_single(action: &Action) -> bool {
    match action {
        Action::Count | Action::Indirect(_) => true,
        _ => false,
    }
}

/// The action at a place of a list.
fn judge_action(port: &PlainPort, list: &[Action], at: u16) -> Result<(), Refused> {
    let Some(action) = list.get(at as usize) else {
        return Ok(());
    };
    let before = &list[..at as usize];
    let is_missing = value_of(port, action).is_none();
    refuse_at(is_missing, Cause::NoIndirect, at)?;
    refuse_at(is_out_of_range(port, action), Cause::ActionConf, at)?;
    let is_second = is_fate(port, action) && has_fate(port, before);
    refuse_at(is_second, Cause::SecondFate, at)?;
    let is_again = is_single(action) && before.contains(action);
    refuse_at(is_again, Cause::SecondCount, at)
}

/// Generated rules have no faults but `egress` and those of actions.
pub(crate) fn judge_rule(port: &PlainPort, spec: &RuleSpec) -> Result<(), Refused> {
    refuse_if(spec.attr.egress, Cause::Egress)?;
    for at in 0..16 {
        judge_action(port, spec.actions.list.as_slice(), at)?;
    }
    Ok(())
}

/// What may be shared, of the generated actions.
pub(crate) fn judge_shareable(action: &Action) -> Result<(), Refused> {
    let is_shareable = match action {
        Action::Count | Action::Queue(_) | Action::Mark(_) => true,
        _ => false,
    };
    refuse_if(!is_shareable, Cause::KindNotIndirect)
}
