//! Runs side by side, and what they took.
ghost use Rattle.std.specs.Prelude.{◌≡◌, ◌≤◌, ℕ, [], length};
ghost use Rattle.flow_calls.specs.Entries.{numbers_by};
ghost use Rattle.test_crews.specs.Members.{IsPlan};

use crate::locked::run_locked;
use crate::planned::{LIMITS, Work};
use adapter::Adapter;
use flow_calls::Call;
use std::alloc::{AllocError, Global};
use std::io;
use std::sync::Wait;
use std::thread::Threads;
use std::time::{Clock, Duration, Instant};
use test_crews::{MAX_BURST, Plan, Run, open_adapter, run_crew};

/// A change comes each half millisecond.
const PAUSE_IN_MICROS: u64 = 500;

/// How a crew shares its adapter.
#[derive(Clone, Copy)]
enum Way {
    Port,
    Mutex,
}

/// A run: how long it took, and the frames that passed.
#[derive(Clone, Copy)]
pub(crate) struct Timed {
    pub(crate) nanos: u128,
    pub(crate) frames: u64,
}

/// Two runs of the same work.
#[derive(Clone, Copy)]
pub(crate) struct Row {
    pub(crate) workers: u8,
    pub(crate) changes: bool,
    pub(crate) port: Timed,
    pub(crate) mutex: Timed,
}

impl Timed {
    /// Bursts of 32 frames in a second.
    pub(crate) fn bursts(&self) -> u128 {
        let bursts = u128::from(self.frames / MAX_BURST as u64);
        bursts.saturating_mul(1_000_000_000) / self.nanos.max(1)
    }
}

/// Lets a crew work over an adapter in one of the ways. The adapter has the history.
fn run<R: Threads + Wait + Clock + Sync>(
    rt: &R,
    way: Way,
    adapter: Adapter,
    plan: &Plan<'_>,
) -> Result<Adapter, AllocError>
    requires plan { IsPlan plan.now }
    requires frames { (who : ℕ) → numbers_by who adapter.history ≡ [] }
{
    match way {
        Way::Port => run_at_port(rt, adapter, plan),
        Way::Mutex => run_locked(rt, adapter, plan),
    }
}

/// Lets a crew work at a port over an adapter.
fn run_at_port<R: Threads + Wait + Clock + Sync>(
    rt: &R,
    adapter: Adapter,
    plan: &Plan<'_>,
) -> Result<Adapter, AllocError>
    requires plan { IsPlan plan.now }
    requires frames { (who : ℕ) → numbers_by who adapter.history ≡ [] }
{
    let Run { adapter, .. } = run_crew(rt, adapter, plan)?;
    Ok(adapter)
}

/// Times the work in one of the ways.
fn time_run<R: Threads + Wait + Clock + Sync>(
    rt: &R,
    way: Way,
    work: &Work,
    plan: &Plan<'_>,
) -> io::Result<Timed>
    requires { IsPlan plan.now }
{
    let adapter = open_adapter(plan.alloc, LIMITS, work.first.as_slice())?;
    let start = Instant::now(rt)?;
    let adapter = run(rt, way, adapter, plan)?;
    let nanos = start.elapsed(rt)?.as_nanos();
    let frames = adapter.totals().received;
    Ok(Timed { nanos, frames })
}

/// What the shell asks.
fn asked(work: &Work, changes: bool) -> &[Call]
    requires { length work.now.changes.items ≤ 4000 }
    ensures { length result.now ≤ 4000 }
{
    if changes {
        return work.changes.as_slice();
    }
    &[]
}

/// Times the work over a port and under a mutex.
pub(crate) fn time_row<R: Threads + Wait + Clock + Sync>(
    rt: &R,
    alloc: Global,
    work: &Work,
    workers: u8,
    changes: bool,
) -> io::Result<Row>
    requires workers { (1 ≤ workers) × (workers ≤ 16) }
    requires calls { length work.now.changes.items ≤ 4000 }
{
    let plan = Plan {
        alloc,
        workers,
        frames: work.frames,
        keys: work.keys.as_slice(),
        burst: MAX_BURST,
        calls: asked(work, changes),
        pause: Some(Duration::from_micros(PAUSE_IN_MICROS)),
    };
    let port = time_run(rt, Way::Port, work, &plan)?;
    let mutex = time_run(rt, Way::Mutex, work, &plan)?;
    Ok(Row {
        workers,
        changes,
        port,
        mutex,
    })
}
