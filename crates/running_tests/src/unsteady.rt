//! Runs in which workers linger, for a time that differs from frame to frame and from run to run.
use crate::judge::Case;
use crate::runs::expect_lawful;
use io_edges::Gate;
use std::alloc::Global;
use std::hint::spin_loop;
use std::io;
use std::process::Abort;
use std::rt::Clock;
use std::sync::Wait;
use std::thread::Threads;
use std::time::Instant;

/// How long a case may be run again and again. On a busy machine, where each turn may wait for a processor, fewer runs come.
const MAX_SECONDS: u64 = 40;

/// A gate at which workers linger.
#[derive(Drop)]
struct Unsteady {
    run: u32,
}

impl Unsteady {
    /// Waits for up to some microseconds.
    fn linger(&self, worker: u32, number: u32) {
        let mixed = self
            .run
            .wrapping_mul(0x9e37_79b1)
            .wrapping_add(worker.wrapping_mul(0x85eb_ca6b))
            .wrapping_add(number.wrapping_mul(0xc2b2_ae35));
        for _ in 0..mixed >> 23 {
            spin_loop();
        }
    }
}

impl Gate for Unsteady {
    fn before_classify(&self, worker: u32, number: u32) {
        self.linger(worker, number);
    }

    fn after_commit(&self, worker: u32, number: u32) {
        self.linger(number, worker);
    }
}

/// Runs a case so often, if there is time, and judges each transcript.
pub(crate) fn expect_often<R: Abort + Clock + Threads + Wait + Sync>(
    rt: &R,
    alloc: Global,
    words: &[&str],
    case: &Case<'_>,
    runs: u32,
) -> io::Result<()> {
    let start = Instant::now(rt)?;
    for run in 0..runs {
        if start.elapsed(rt)?.as_secs() >= MAX_SECONDS {
            return Ok(());
        }
        expect_lawful(rt, &Unsteady { run }, alloc, words, case);
    }
    Ok(())
}
