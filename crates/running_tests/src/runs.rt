//! Runs of cases, and what is expected of them.
use crate::judge::{Case, is_lawful};
use crate::steps::script_of;
use io_edges::Gate;
use std::alloc::{AllocError, Global};
use std::process::Abort;
use std::sync::Wait;
use std::thread::Threads;
use test_sessions::{Capture, Fails, Inputs, run_with};
use testpmd_shell::Status;

/// Whether a case's session is done, and its transcript is a lawful one. `Err` is want of memory.
fn is_right<R: Threads + Wait + Sync, G: Gate + Sync>(
    rt: &R,
    gate: &G,
    alloc: Global,
    words: &[&str],
    case: &Case<'_>,
) -> Result<bool, AllocError> {
    let script = script_of(alloc, case.steps)?;
    let inputs = Inputs {
        words: &*words,
        script: script.as_bytes(),
        capture: Capture::Of(case.frames),
        fails: Fails::Nowhere,
    };
    let outcome = run_with(rt, gate, alloc, &inputs)?;
    if outcome.status != Status::Done {
        return Ok(false);
    }
    is_lawful(alloc, case, &outcome.written)
}

/// Runs a case with a gate, and judges its transcript.
pub(crate) fn expect_lawful<R: Abort + Threads + Wait + Sync, G: Gate + Sync>(
    rt: &R,
    gate: &G,
    alloc: Global,
    words: &[&str],
    case: &Case<'_>,
) {
    let right = is_right(rt, gate, alloc, words, case);
    let workers = case.workers;
    assert!(rt; right.is_ok(), "{workers} workers: memory");
    assert!(rt; right == Ok(true), "{workers} workers: a lawful transcript");
}
