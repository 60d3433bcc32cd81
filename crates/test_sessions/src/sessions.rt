//! Runs of sessions, and what comes of them.
ghost use Rattle.std.specs.Prelude.{◌≡◌, map, None, IfOk};
ghost use Rattle.testpmd_shell.specs.Options.{options_of};

use crate::edges::{Inputs, shelf_of, sink_of};
use io_edges::{Gate, MemShelf, MemSink};
use std::alloc::{AllocError, Global};
use std::sync::Wait;
use std::thread::Threads;
use testpmd_shell::{Status, session, session_serial};

/// What came of a session: its status, and what was written to the sink and to the transmit file.
#[derive(Drop)]
pub struct Outcome {
    pub status: Status,
    pub written: Vec<u8>,
    pub transmitted: Vec<u8>,
}

/// What comes of a session in the serial order. `Err` is want of memory for its edges or for what came of it.
pub fn run_serial(alloc: Global, inputs: &Inputs<'_>) -> Result<Outcome, AllocError>
    ensures usage { IfOk result (λ outcome. outcome.status ≡ Status.Usage → options_of (map (λ w. w.now) inputs.now.words.now) ≡ None) }
{
    let mut shelf = shelf_of(alloc, inputs)?;
    let mut out = sink_of(alloc, inputs)?;
    let status = session_serial(alloc, inputs.words, &mut shelf, &mut out);
    outcome_of(alloc, status, &shelf, &out)
}

/// What comes of a session with this gate. `Err` is want of memory for its edges or for what came of it.
pub fn run_with<R: Threads + Wait + Sync, G: Gate + Sync>(
    rt: &R,
    gate: &G,
    alloc: Global,
    inputs: &Inputs<'_>,
) -> Result<Outcome, AllocError>
    ensures usage { IfOk result (λ outcome. outcome.status ≡ Status.Usage → options_of (map (λ w. w.now) inputs.now.words.now) ≡ None) }
{
    let mut shelf = shelf_of(alloc, inputs)?;
    let mut out = sink_of(alloc, inputs)?;
    let status = session(rt, alloc, inputs.words, &mut shelf, &mut out, gate);
    outcome_of(alloc, status, &shelf, &out)
}

fn outcome_of(
    alloc: Global,
    status: Status,
    shelf: &MemShelf,
    out: &MemSink,
) -> Result<Outcome, AllocError>
    ensures { IfOk result (λ outcome. outcome.status ≡ status) }
{
    let written = Vec::from_slice(alloc, out.taken())?;
    let transmitted = Vec::from_slice(alloc, shelf.written())?;
    Ok(Outcome {
        status,
        written,
        transmitted,
    })
}
