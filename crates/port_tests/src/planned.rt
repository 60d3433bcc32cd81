//! What generated rounds do: the headers of their frames, the rules and the calls.
ghost use Rattle.std.specs.Prelude.{◌≤◌, IfOk, length};

use flow_actions::{Action, Actions};
use flow_calls::{At, Call, Op};
use flow_rules::{Limits, RuleSpec};
use packet_headers::{ItemKind, Key, parse};
use shared_value::Shared;
use std::alloc::{AllocError, Global};
use test_addresses::{asks_for, key_to};
use test_frames::{RUNT_FRAME, UDP_FRAME};
use test_rules::{actions_of, any, ingress, pattern_of};

/// Few rules fit, so that some are refused.
pub(crate) const LIMITS: Limits = Limits {
    rxq: 4,
    flow_max: 8,
};

/// Frames go to so many addresses, and rules ask for them.
const ADDRESSES: u32 = 5;

const FIRST_ADDRESS: u32 = 0x0a01_0204;

/// Rules stand in groups below this.
const GROUPS: u32 = 3;

/// And have priorities below this.
const PRIORITIES: u32 = 3;

/// The calls before the port is made.
const FIRST_CALLS: u32 = 12;

/// All calls of a round.
const CALLS: u32 = 600;

/// What a crew does in a round.
#[derive(Drop)]
pub(crate) struct Round {
    pub(crate) keys: Vec<Key>,
    pub(crate) first: Vec<Call>,
    pub(crate) calls: Vec<Call>,
}

/// A number of the call of a line.
fn word(seed: u32, line: u32, place: u32) -> u32 {
    let mixed = seed
        .wrapping_mul(2_654_435_761)
        .wrapping_add(line.wrapping_mul(2_246_822_519))
        .wrapping_add(place.wrapping_mul(3_266_489_917));
    let folded = (mixed ^ (mixed >> 15)).wrapping_mul(668_265_263);
    folded ^ (folded >> 13)
}

/// The headers of frames to each address, and of one that is too short for any.
fn keys(alloc: Global) -> Result<Vec<Key>, AllocError> {
    let mut keys = Vec::new(alloc);
    for place in 0..ADDRESSES {
        keys.push(key_to(&UDP_FRAME, FIRST_ADDRESS + place))?;
    }
    keys.push(parse(&RUNT_FRAME))?;
    Ok(keys)
}

/// What a rule ends with: a queue, nothing, a drop, or a later group.
fn end_of(seed: u32, line: u32, group: u32) -> Action {
    match word(seed, line, 4) % 8 {
        0 => Action::Drop,
        1 => Action::Void,
        2 | 3 | 4 => Action::Jump(group.saturating_add(1)),
        n => Action::Queue((n % 4) as u16),
    }
}

/// An action, or none.
fn given(there: bool, action: Action) -> Action {
    if there {
        return action;
    }
    Action::Void
}

/// The actions of a rule: it may mark, and it may count.
fn actions(seed: u32, line: u32, group: u32) -> Actions {
    let mark = given(word(seed, line, 5) % 2 == 0, Action::Mark(line));
    let count = given(word(seed, line, 6) % 4 != 0, Action::Count);
    actions_of(&[mark, count, end_of(seed, line, group)])
}

/// A rule for the frames to one of the addresses, or for all.
fn rule(seed: u32, line: u32) -> RuleSpec {
    let group = word(seed, line, 1) % GROUPS;
    let priority = word(seed, line, 2) % PRIORITIES;
    let place = word(seed, line, 3) % (ADDRESSES + 2);
    let eth = any(ItemKind::Eth);
    let pattern = if place < ADDRESSES {
        pattern_of(&[eth, asks_for(FIRST_ADDRESS + place)])
    } else {
        pattern_of(&[eth])
    };
    RuleSpec {
        attr: ingress(group, priority),
        pattern,
        actions: actions(seed, line, group),
    }
}

/// What the line asks. Ids are those of rules that may be in effect.
fn op(alloc: Global, seed: u32, line: u32) -> Result<Op, AllocError> {
    let id = word(seed, line, 8) % (line / 2 + 1);
    Ok(match word(seed, line, 7) % 16 {
        0 => Op::Flush,
        1 => Op::Isolate(word(seed, line, 9) % 2 == 0),
        2 => Op::Validate(Shared::new(alloc, rule(seed, line))?),
        3 | 4 => Op::Query(id),
        5 | 6 | 7 | 8 => Op::Destroy(id),
        _ => Op::Create(Shared::new(alloc, rule(seed, line))?),
    })
}

/// The calls of these lines.
fn calls(alloc: Global, seed: u32, from: u32, to: u32) -> Result<Vec<Call>, AllocError>
    requires { from ≤ to }
    ensures { IfOk result (λ calls. length calls.items ≤ to) }
{
    let mut calls = Vec::new(alloc);
    for line in from..to {
        calls.push(Call {
            at: At { line, part: 1 },
            op: op(alloc, seed, line)?,
        })?;
    }
    Ok(calls)
}

/// The round of a seed.
pub(crate) fn make_round(alloc: Global, seed: u32) -> Result<Round, AllocError>
    ensures { IfOk result (λ round. length round.calls.items ≤ 600) }
{
    Ok(Round {
        keys: keys(alloc)?,
        first: calls(alloc, seed, 0, FIRST_CALLS)?,
        calls: calls(alloc, seed, FIRST_CALLS, CALLS)?,
    })
}
