//! Rules and replicas as the tests ask for them.
ghost use Rattle.std.specs.Prelude.{◌≡◌, Bool, [], ◌∷◌};
ghost use Rattle.std.specs.List.{list_any};
ghost use Rattle.flow_rules.specs.Faults.{is_unknown};
ghost use Rattle.flow_rules.specs.Lawful.{kinds_in, MayBeInEffect};

use arrayvec::ArrayVec;
use flow_actions::{Action, Actions, MAX_ACTIONS};
use flow_rules::{Limits, Rule, RuleSpec, validate};
use packet_headers::{Edit, ItemKind};
use std::process::Abort;
use test_rules::{NoneShared, ingress, pattern_of_kinds};

pub const LIMITS: Limits = Limits {
    rxq: 4,
    flow_max: 8,
};

/// The id of the rules.
pub const ID: u32 = 7;

/// A rule on frames of UDP over IPv4, which does these edits.
fn spec(rt: &impl Abort, edits: &[Edit]) -> RuleSpec {
    let mut list = ArrayVec::new();
    for edit in edits {
        assert!(rt; list.len() < MAX_ACTIONS);
        list.push(Action::Set(*edit));
    }
    RuleSpec {
        attr: ingress(0, 0),
        pattern: pattern_of_kinds(&[ItemKind::Ipv4, ItemKind::Udp]),
        actions: Actions { list, more: 0 },
    }
}

/// Whether one of the actions is a shared one.
fn names_shared(actions: &[Action]) -> bool
    ensures { result ≡ list_any (is_unknown (kinds_in [])) actions.now }
{
    actions.iter().any(|action| is_shared(action))
}

fn is_shared(action: &Action) -> bool
    ensures { result ≡ is_unknown (kinds_in []) action.now }
{
    let Action::Indirect(_) = action else {
        return false;
    };
    true
}

/// The rule that does these edits, alone.
pub fn rule(rt: &impl Abort, edits: &[Edit]) -> Rule
    ensures { (isolated : Bool) → MayBeInEffect 4 (record { rules = result ∷ []; shared = []; isolated = isolated; rxq = 4 }) }
{
    let Ok(rule) = validate(&spec(rt, edits), &LIMITS, &NoneShared, ID) else {
        panic!(rt; "the rule has a fault")
    };
    let shared = names_shared(rule.actions().list.as_slice());
    assert!(rt; !shared);
    rule
}
