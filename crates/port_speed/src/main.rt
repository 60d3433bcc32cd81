//! The speed of the shared port: bursts of 32 frames by 1, 2 and 4 workers over a port, and over a mutex around the same adapter.
//!
//! Both do the same: the workers let as many frames pass, 64 rules judge them, and where rules change the shell creates a rule and
//! destroys it, a change each half millisecond. Over a port a worker judges its frames on a replica of its own before its turn; under
//! the mutex it judges and enters them while it holds the lock.
//!
//! Without a word few frames pass, and each row tells how many frames passed, which no schedule changes. With a number of frames
//! (1 to 10,000,000) each row tells how many bursts passed in a second.
#![tactic(auto)]

ghost use Rattle.std.specs.Prelude.{◌≤◌, length};

mod locked;
mod planned;
mod timing;

use crate::planned::{Work, make_work};
use crate::timing::{Row, time_row};
use std::alloc::Global;
use std::process::ExitCode;
use std::sync::Wait;
use std::thread::Threads;
use std::time::Clock;
use std::{env, io};

/// The frames of a run where nothing is said of them.
const FEW_FRAMES: u32 = 4_096;

/// The most frames of a run.
const MAX_FRAMES: u32 = 10_000_000;

fn main(rt: HostRuntime) -> io::Result<ExitCode> {
    let frames = frames_of(&rt)?;
    let work = make_work(rt.alloc(), frames.unwrap_or(FEW_FRAMES))?;
    print_rows(&rt, rt.alloc(), &work, false, frames.is_some())?;
    print_rows(&rt, rt.alloc(), &work, true, frames.is_some())?;
    Ok(ExitCode::from(0))
}

/// The rows of 1, 2 and 4 workers.
fn print_rows<R: Threads + Wait + Clock + Sync + Print>(
    rt: &R,
    alloc: Global,
    work: &Work,
    changes: bool,
    is_timed: bool,
) -> io::Result<()>
    requires { length work.now.changes.items ≤ 4000 }
{
    print_row(rt, &time_row(rt, alloc, work, 1, changes)?, is_timed)?;
    print_row(rt, &time_row(rt, alloc, work, 2, changes)?, is_timed)?;
    print_row(rt, &time_row(rt, alloc, work, 4, changes)?, is_timed)
}

/// A row of the table: how many workers, whether rules change, and what is told of the port and of the mutex.
fn print_row(rt: &impl Print, row: &Row, is_timed: bool) -> io::Result<()> {
    let workers = row.workers;
    let rules = if row.changes { "change" } else { "stay" };
    if is_timed {
        let (port, mutex) = (row.port.bursts(), row.mutex.bursts());
        return println!(rt;
            "workers {workers}, rules {rules}: port {port}, mutex {mutex} bursts a second"
        );
    }
    let (port, mutex) = (row.port.frames, row.mutex.frames);
    println!(rt; "workers {workers}, rules {rules}: port {port}, mutex {mutex} frames")
}

/// The number of the first word behind the program's name, where it is one.
fn frames_of(rt: &HostRuntime) -> io::Result<Option<u32>> {
    let Some(word) = env::args(rt)?.nth(1) else {
        return Ok(None);
    };
    match word.parse::<u32>() {
        Ok(frames) => Ok(Some(frames.clamp(1, MAX_FRAMES))),
        Err(_) => Ok(None),
    }
}
