//! Workers that burst over a port while the shell changes rules, and the closed history entry by entry.
ghost use Rattle.std.specs.Prelude.{◌≤◌, length};

use crate::judging::Plain;
use crate::planned::{LIMITS, Round, make_round};
use adapter::Adapter;
use flow_actions::Verdict;
use flow_calls::{Call, Caller, EntryView, Parcel, Reply};
use packet_headers::Key;
use std::alloc::Global;
use std::process::Abort;
use std::sync::Wait;
use std::test::Fail;
use std::thread::Threads;
use std::time::Clock;
use test_crews::{MAX_BURST, Plan, Run, frame, open_adapter, run_crew};

/// Rounds for each number of workers.
const ROUNDS: u32 = 20;

/// The frames of a round.
const FRAMES: u32 = 1500;

/// What is to come of a round, and what the entries so far tell.
#[derive(Drop)]
struct Judge<'a> {
    plain: Plain,
    round: &'a Round,
    workers: u32,
    /// The line of the next call.
    line: u32,
    /// The number of each worker's next frame.
    next: Vec<u32>,
}

fn same_keys(shown: &Key, made: &Key) -> bool {
    if shown.len() != made.len() {
        return false;
    }
    for i in 0..made.len() {
        if shown.layer(i) != made.layer(i) || shown.offset(i) != made.offset(i) {
            return false;
        }
    }
    true
}

fn same_verdicts(shown: &Verdict, due: &Verdict) -> bool {
    if shown.fate != due.fate || shown.mark != due.mark || shown.hash != due.hash {
        return false;
    }
    shown.path.as_slice() == due.path.as_slice()
}

/// A call is the next one, and has the reply that is due.
fn judge_call(rt: &impl Abort, judge: &mut Judge<'_>, caller: Caller, call: &Call, reply: &Reply) {
    assert!(rt; caller == Caller::SHELL && call.at.line == judge.line);
    assert!(rt; judge.plain.is_due(&call.op, reply), "line {}", judge.line);
    judge.plain.carry_out(&call.op).expect(rt, "memory");
    judge.line = judge.line.wrapping_add(1);
}

/// A frame is its worker's next one.
fn is_next(judge: &mut Judge<'_>, worker: usize, parcel: &Parcel) -> bool {
    let Some(next) = judge.next.get_mut(worker) else {
        return false;
    };
    let made = frame(judge.round.keys.as_slice(), *next);
    *next = next.wrapping_add(judge.workers);
    parcel.number == made.number && parcel.len == made.len && same_keys(&parcel.key, &made.key)
}

/// A frame is its worker's next one, and has the verdict of a scan.
fn judge_frame(
    rt: &impl Abort,
    judge: &mut Judge<'_>,
    caller: Caller,
    parcel: &Parcel,
    verdict: &Verdict,
) {
    assert!(rt; caller.0 >= Caller::LEAD.0);
    let worker = usize::from(caller.0.wrapping_sub(Caller::LEAD.0));
    assert!(rt; is_next(judge, worker, parcel), "frame {}", parcel.number);
    let due = judge.plain.verdict(&parcel.key);
    assert!(rt; same_verdicts(verdict, &due), "frame {}", parcel.number);
    judge.plain.count(due.path.as_slice(), parcel.len);
}

/// Goes over all entries.
fn judge_all(rt: &impl Abort, judge: &mut Judge<'_>, adapter: &Adapter) {
    for place in 0..adapter.entries() {
        match adapter.entry(place) {
            EntryView::Asked {
                caller,
                call,
                reply,
            } => judge_call(rt, judge, caller, call, reply),
            EntryView::Passed {
                caller,
                parcel,
                verdict,
            } => judge_frame(rt, judge, caller, &parcel, &verdict),
        }
    }
}

/// All that the round asks and lets pass was there.
fn is_whole(judge: &Judge<'_>, asked: usize) -> bool {
    for next in judge.next.as_slice() {
        if *next <= FRAMES {
            return false;
        }
    }
    judge.line as usize == judge.round.first.len().wrapping_add(asked)
}

/// The first frame of each worker.
fn first_frames(rt: &impl Abort, alloc: Global, workers: u8) -> Vec<u32> {
    let mut next = Vec::new(alloc);
    for worker in 0..workers {
        next.push(u32::from(worker) + 1).expect(rt, "memory");
    }
    next
}

/// Bursts have from 1 to 32 frames, by the round.
fn burst_of(seed: u32) -> usize
    ensures { (1 ≤ result) × (result ≤ 32) }
{
    1 + seed as usize * 7 % MAX_BURST
}

/// What a crew of so many workers leaves of a round.
fn run_round<R: Threads + Wait + Clock + Sync + Abort>(
    rt: &R,
    alloc: Global,
    round: &Round,
    workers: u8,
    burst: usize,
) -> Run
    requires workers { (1 ≤ workers) × (workers ≤ 16) }
    requires burst { (1 ≤ burst) × (burst ≤ 32) }
    requires calls { length round.now.calls.items ≤ 600 }
{
    let Ok(adapter) = open_adapter(alloc, LIMITS, round.first.as_slice()) else {
        panic!(rt; "there was no memory")
    };
    let plan = Plan {
        alloc,
        workers,
        frames: FRAMES,
        keys: round.keys.as_slice(),
        burst,
        calls: round.calls.as_slice(),
        pause: None,
    };
    run_crew(rt, adapter, &plan).expect(rt, "memory")
}

/// Runs a round with so many workers, and judges its history.
fn judge_round<R: Threads + Wait + Clock + Sync + Abort>(
    rt: &R,
    alloc: Global,
    workers: u8,
    seed: u32,
)
    requires { (1 ≤ workers) × (workers ≤ 16) }
{
    let Ok(round) = make_round(alloc, seed) else {
        panic!(rt; "there was no memory")
    };
    let run = run_round(rt, alloc, &round, workers, burst_of(seed));
    let mut judge = Judge {
        plain: Plain::new(alloc),
        round: &round,
        workers: u32::from(workers),
        line: 0,
        next: first_frames(rt, alloc, workers),
    };
    judge_all(rt, &mut judge, &run.adapter);
    assert!(rt; is_whole(&judge, run.asked));
}

/// Runs all rounds with so many workers.
fn judge_rounds<R: Threads + Wait + Clock + Sync + Abort>(rt: &R, alloc: Global, workers: u8)
    requires { (1 ≤ workers) × (workers ≤ 16) }
{
    for seed in 0..ROUNDS {
        judge_round(rt, alloc, workers, seed);
    }
}

#[test]
fn bursts_of_one_worker_are_judged_as_a_scan_of_the_history_does(
    rt: HostRuntime,
) -> Result<(), Fail> {
    judge_rounds(&rt, rt.alloc(), 1);
    Ok(())
}

#[test]
fn bursts_of_two_workers_are_judged_as_a_scan_of_the_history_does(
    rt: HostRuntime,
) -> Result<(), Fail> {
    judge_rounds(&rt, rt.alloc(), 2);
    Ok(())
}

#[test]
fn bursts_of_four_workers_are_judged_as_a_scan_of_the_history_does(
    rt: HostRuntime,
) -> Result<(), Fail> {
    judge_rounds(&rt, rt.alloc(), 4);
    Ok(())
}
