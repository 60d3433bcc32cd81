//! An adapter and the plain model, driven by the same generated calls.
use crate::dice::Dice;
use crate::generated::{call, first_call};
use crate::met::Met;
use crate::plain::PlainPort;
use crate::replies::answer;
use crate::told::is_told;
use adapter::Adapter;
use flow_calls::{At, Call, Caller, Op};
use flow_rules::Limits;
use std::alloc::{AllocError, Global};
use std::process::Abort;

const SEEDS: u32 = 32;

/// Calls of one seed, besides the looks at all rules.
const STEPS: u32 = 400;

/// So many of them make what others need.
const FIRST_STEPS: u32 = 40;

/// The list of all rules in effect is asked for behind so many calls.
const LOOKS: u32 = 5;

const LIMITS: Limits = Limits {
    rxq: 4,
    flow_max: 3,
};

/// An adapter, and what is compared with it.
#[derive(Drop)]
struct Beside {
    adapter: Adapter,
    port: PlainPort,
    dice: Dice,
}

/// Both get this call, and the reply is the one that is due.
fn ask(rt: &impl Abort, beside: &mut Beside, met: &mut Met, op: Op) -> Result<(), AllocError> {
    let mut outcomes = Vec::new(beside.port.alloc);
    let due = answer(&mut beside.port, &op, &mut outcomes)?;
    met.call(&op, &due)?;
    met.outcomes(outcomes.as_slice())?;
    let call = Call {
        at: At { line: 1, part: 1 },
        op,
    };
    let reply = beside.adapter.step(Caller::SHELL, &call)?;
    let is_told = is_told(&beside.port, &due, &reply)?;
    assert!(rt; is_told, "{call:?} is answered by {reply:?}");
    Ok(())
}

fn chosen(beside: &mut Beside, step: u32) -> Result<Op, AllocError> {
    let alloc = beside.port.alloc;
    if step < FIRST_STEPS {
        return first_call(alloc, &mut beside.dice);
    }
    call(alloc, &mut beside.dice, beside.port.given)
}

fn take_step(
    rt: &impl Abort,
    beside: &mut Beside,
    met: &mut Met,
    step: u32,
) -> Result<(), AllocError> {
    let op = chosen(beside, step)?;
    ask(rt, beside, met, op)?;
    if step % LOOKS == 0 {
        ask(rt, beside, met, Op::List)?;
    }
    Ok(())
}

fn take_steps(rt: &impl Abort, beside: &mut Beside, met: &mut Met) -> Result<(), AllocError> {
    for step in 0..STEPS {
        take_step(rt, beside, met, step)?;
    }
    Ok(())
}

/// Nothing was asked of either yet.
fn both_of(alloc: Global, seed: u32) -> Result<Beside, AllocError> {
    let adapter = Adapter::new(alloc, LIMITS)?;
    Ok(Beside {
        adapter,
        port: PlainPort::new(alloc, LIMITS),
        dice: Dice::new(seed),
    })
}

fn go_through(rt: &impl Abort, alloc: Global, met: &mut Met, seed: u32) -> Result<(), AllocError> {
    let mut both = both_of(alloc, seed)?;
    take_steps(rt, &mut both, met)
}

#[test]
fn replies_are_those_of_a_plain_model(rt: HostRuntime) -> Result<(), AllocError> {
    let mut met = Met::new(rt.alloc());
    for seed in 0..SEEDS {
        go_through(&rt, rt.alloc(), &mut met, seed)?;
    }
    met.expect_all(&rt);
    Ok(())
}
