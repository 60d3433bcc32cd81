//! What all runs do.
ghost use Rattle.std.specs.Prelude.{◌≤◌, IfOk, length};

use flow_actions::Action;
use flow_calls::{At, Call, Op};
use flow_rules::{Limits, RuleSpec};
use packet_headers::{ItemKind, Key};
use shared_value::Shared;
use std::alloc::{AllocError, Global};
use test_addresses::{asks_for, key_to};
use test_frames::UDP_FRAME;
use test_rules::{actions_of, any, ingress, pattern_of};

pub(crate) const LIMITS: Limits = Limits {
    rxq: 4,
    flow_max: 128,
};

/// The rules that are there all the time, each for the frames to one address.
const RULES: u32 = 64;

/// The most changes of a run: those of two seconds.
const CHANGES: u32 = 4_000;

const FIRST_ADDRESS: u32 = 0x0a01_0000;

/// Frames, rules and changes of the runs.
#[derive(Drop)]
pub(crate) struct Work {
    /// The headers of frames to the rules' addresses.
    pub(crate) keys: Vec<Key>,
    /// The rules.
    pub(crate) first: Vec<Call>,
    /// A rule to another address comes, and goes.
    pub(crate) changes: Vec<Call>,
    /// How many frames pass.
    pub(crate) frames: u32,
}

fn keys(alloc: Global) -> Result<Vec<Key>, AllocError> {
    let mut keys = Vec::new(alloc);
    for place in 0..RULES {
        keys.push(key_to(&UDP_FRAME, FIRST_ADDRESS + place))?;
    }
    Ok(keys)
}

/// The rule for frames to an address.
fn rule_to(address: u32) -> RuleSpec {
    RuleSpec {
        attr: ingress(0, 0),
        pattern: pattern_of(&[any(ItemKind::Eth), asks_for(address)]),
        actions: actions_of(&[Action::Queue((address % 4) as u16)]),
    }
}

fn create(alloc: Global, address: u32) -> Result<Op, AllocError> {
    Ok(Op::Create(Shared::new(alloc, rule_to(address))?))
}

fn call(line: u32, op: Op) -> Call {
    Call {
        at: At { line, part: 1 },
        op,
    }
}

fn rules(alloc: Global) -> Result<Vec<Call>, AllocError> {
    let mut calls = Vec::new(alloc);
    for place in 0..RULES {
        calls.push(call(place, create(alloc, FIRST_ADDRESS + place)?))?;
    }
    Ok(calls)
}

/// Each even change makes a rule, and the next one destroys it.
fn change(alloc: Global, place: u32) -> Result<Op, AllocError> {
    if place % 2 == 0 {
        return create(alloc, FIRST_ADDRESS + RULES);
    }
    Ok(Op::Destroy(RULES + place / 2))
}

fn changes(alloc: Global) -> Result<Vec<Call>, AllocError>
    ensures { IfOk result (λ calls. length calls.items ≤ 4000) }
{
    let mut calls = Vec::new(alloc);
    for place in 0..CHANGES {
        calls.push(call(RULES + place, change(alloc, place)?))?;
    }
    Ok(calls)
}

/// The work of runs with so many frames.
pub(crate) fn make_work(alloc: Global, frames: u32) -> Result<Work, AllocError>
    ensures { IfOk result (λ work. length work.changes.items ≤ 4000) }
{
    Ok(Work {
        keys: keys(alloc)?,
        first: rules(alloc)?,
        changes: changes(alloc)?,
        frames,
    })
}
