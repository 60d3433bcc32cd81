//! A session: from the words to the transcript.
ghost use Rattle.std.specs.Prelude.{◌≡◌, ◌<◌, ◌≤◌, ◌-◌, ◌^◌, ◌⊎◌, map, None, Some, is_some, true, OnOk, OnErr};
ghost use Rattle.io_edges.specs.ShelfState.{ShelfState};
ghost use Rattle.testpmd_shell.specs.Options.{options_of, given_of};
ghost use Rattle.testpmd_shell.specs.Run.{edges_of, run_of};
ghost use Rattle.testpmd_shell.specs.Session.{IsFresh, Allows, Says, SaysBy, Completes, IsReadByPhases, IsReadBy, IsTooLargeFirst, IsSerial, IsLegalAndWhole};
ghost use Rattle.testpmd_shell.specs.Fetch.{IsTold, IsSent, TakesAll, TakesSome, status_of_stop};
ghost use Rattle.testpmd_shell.specs.Sending.{records_kept};
ghost use Rattle.testpmd_shell.specs.Found.{limits_of, status_at};
ghost use Rattle.flow_rules.specs.Limits.{AreLimits};

use crate::fetch::{Stopped, fetch, fetch_on_threads};
use crate::options::Options;
use crate::run::Ran;
use crate::status::Status;
use crate::transmit::write_sent;
use crate::words::{options, options_with_workers};
use history_text::{Ending, print_history};
use io_edges::{Gate, Shelf, Sink, WriteFault};
use running_phase::FrameCopy;
use std::alloc::Global;
use std::sync::Wait;
use std::thread::Threads;

/// Runs a session in the serial order: in each phase the shell's calls, then the agents', and then the frames by worker 0.
///
/// It waits for nobody, and opens no name but those that the words give, each once.
pub fn session_serial<S: Shelf, K: Sink>(
    alloc: Global,
    words: &[&str],
    shelf: &mut S,
    out: &mut K,
) -> Status
    requires fresh { IsFresh (S.state shelf.old) }
    requires sink { K.faults out.old < 2 ^ 64 - 1 }
    requires allowed { Allows (options_of (map (λ w. w.now) words.now)) (S.state shelf.old) }

    // Usage just where the words give no options, unless there was no memory to tell
    ensures usage { result ≡ Status.Usage → options_of (map (λ w. w.now) words.now) ≡ None }
    ensures refused { options_of (map (λ w. w.now) words.now) ≡ None → (result ≡ Status.Usage) ⊎ (result ≡ Status.NoMemory) }

    // each status with its cause, and what was written
    ensures says { Says IsSerial (run_of (map (λ w. w.now) words.now)
        (edges_of S.state K.taken K.faults shelf.old out.old) (edges_of S.state K.taken K.faults shelf.new out.new)) result }

    // with no failed call the status is the one that the files owe, or there was no memory
    ensures complete { Completes (run_of (map (λ w. w.now) words.now)
        (edges_of S.state K.taken K.faults shelf.old out.old) (edges_of S.state K.taken K.faults shelf.new out.new)) result }
    ensures reads { IsReadByPhases (run_of (map (λ w. w.now) words.now)
        (edges_of S.state K.taken K.faults shelf.old out.old) (edges_of S.state K.taken K.faults shelf.new out.new)) }

    // the script's size is told before the capture is asked for
    ensures large { IsTooLargeFirst (run_of (map (λ w. w.now) words.now)
        (edges_of S.state K.taken K.faults shelf.old out.old) (edges_of S.state K.taken K.faults shelf.new out.new)) result }
{
    let Ok(options) = options(alloc, words) else {
        return Status::NoMemory;
    };
    let Some(options) = options else {
        return Status::Usage;
    };
    answer(alloc, &options, shelf, out)
}

/// Runs a session: with `--nb-cores=0` in the serial order, and else each phase on threads, with so many workers.
///
/// In a phase the shell, the agents that have calls and the workers take turns in any order, and the transcript is that of the
/// order which came. Frame k is passed by worker k mod workers, which tells `gate` before it classifies and behind the entry. Where no
/// thread can be made, the callers of a phase come one after the other.
pub fn session<R: Threads + Wait + Sync, S: Shelf + Send, K: Sink, G: Gate + Sync>(
    rt: &R,
    alloc: Global,
    words: &[&str],
    shelf: &mut S,
    out: &mut K,
    gate: &G,
) -> Status
    requires fresh { IsFresh (S.state shelf.old) }
    requires sink { K.faults out.old < 2 ^ 64 - 1 }
    requires allowed { Allows (options_of (map (λ w. w.now) words.now)) (S.state shelf.old) }

    // Usage just where the words give no options, unless there was no memory to tell
    ensures usage { result ≡ Status.Usage → options_of (map (λ w. w.now) words.now) ≡ None }
    ensures refused { options_of (map (λ w. w.now) words.now) ≡ None → (result ≡ Status.Usage) ⊎ (result ≡ Status.NoMemory) }

    // each status with its cause, and what was written
    ensures says { Says IsLegalAndWhole (run_of (map (λ w. w.now) words.now)
        (edges_of S.state K.taken K.faults shelf.old out.old) (edges_of S.state K.taken K.faults shelf.new out.new)) result }

    // with no failed call the status is the one that the files owe, or there was no memory
    ensures complete { Completes (run_of (map (λ w. w.now) words.now)
        (edges_of S.state K.taken K.faults shelf.old out.old) (edges_of S.state K.taken K.faults shelf.new out.new)) result }
    ensures reads { IsReadByPhases (run_of (map (λ w. w.now) words.now)
        (edges_of S.state K.taken K.faults shelf.old out.old) (edges_of S.state K.taken K.faults shelf.new out.new)) }

    // the script's size is told before the capture is asked for
    ensures large { IsTooLargeFirst (run_of (map (λ w. w.now) words.now)
        (edges_of S.state K.taken K.faults shelf.old out.old) (edges_of S.state K.taken K.faults shelf.new out.new)) result }
{
    match options_with_workers(alloc, words) {
        Some(options) => answer_on_threads(rt, gate, alloc, &options, shelf, out),
        None => session_serial(alloc, words, shelf, out),
    }
}

/// Runs a session of these options in the serial order.
fn answer<S: Shelf, K: Sink>(
    alloc: Global,
    options: &Options<'_>,
    shelf: &mut S,
    out: &mut K,
) -> Status
    requires fresh { IsFresh (S.state shelf.old) }
    requires sink { K.faults out.old < 2 ^ 64 - 1 }
    requires allowed { Allows (Some (given_of options.now)) (S.state shelf.old) }
    requires limits { AreLimits (limits_of (given_of options.now)) }
    ensures says { SaysBy IsSerial (Some (given_of options.now))
        (edges_of S.state K.taken K.faults shelf.old out.old) (edges_of S.state K.taken K.faults shelf.new out.new) result }
    ensures reads { IsReadBy (Some (given_of options.now)) (S.state shelf.old) (S.state shelf.new) }
{
    match fetch(alloc, options, shelf) {
        Ok(ran) => tell(&ran, shelf, out),
        Err(why) => status_of_stop(why),
    }
}

/// Runs a session of these options with workers.
fn answer_on_threads<R: Threads + Wait + Sync, S: Shelf, K: Sink, G: Gate + Sync>(
    rt: &R,
    gate: &G,
    alloc: Global,
    options: &Options<'_>,
    shelf: &mut S,
    out: &mut K,
) -> Status
    requires fresh { IsFresh (S.state shelf.old) }
    requires sink { K.faults out.old < 2 ^ 64 - 1 }
    requires allowed { Allows (Some (given_of options.now)) (S.state shelf.old) }
    requires limits { AreLimits (limits_of (given_of options.now)) }
    requires workers { (1 ≤ options.now.cores) × (options.now.cores ≤ 16) }
    ensures says { SaysBy IsLegalAndWhole (Some (given_of options.now))
        (edges_of S.state K.taken K.faults shelf.old out.old) (edges_of S.state K.taken K.faults shelf.new out.new) result }
    ensures reads { IsReadBy (Some (given_of options.now)) (S.state shelf.old) (S.state shelf.new) }
{
    match fetch_on_threads(rt, gate, alloc, options, shelf) {
        Ok(ran) => tell(&ran, shelf, out),
        Err(why) => status_of_stop(why),
    }
}

/// Writes the transcript of a script that was run, and then the transmit file.
fn tell<S: Shelf, K: Sink>(ran: &Ran, shelf: &mut S, out: &mut K) -> Status
    requires sink { K.faults out.old < 2 ^ 64 - 1 }
    requires writes { (S.state shelf.old).written.faults < 2 ^ 64 - 1 }
    requires opened { is_some ran.now.kept ≡ true → (S.state shelf.old).written.opened ≡ true }
    ensures told { IsTold ran.now.adapter (records_kept ran.now.kept) ran.now.ending (K.taken out.old) (K.taken out.new) (K.faults out.old) (K.faults out.new)
        (S.state shelf.old).written (S.state shelf.new).written result }
    ensures others { S.state shelf.new ≡ record (S.state shelf.old) { written = (S.state shelf.new).written } }
{
    match print_history(&ran.adapter, ran.ending, out) {
        Ok(()) => send_behind(ran, shelf),
        Err(_) => Status::WriteFault,
    }
}

/// Writes the transmit file behind the transcript.
fn send_behind<S: Shelf>(ran: &Ran, shelf: &mut S) -> Status
    requires writes { (S.state shelf.old).written.faults < 2 ^ 64 - 1 }
    requires opened { is_some ran.now.kept ≡ true → (S.state shelf.old).written.opened ≡ true }
    ensures sent { IsSent (records_kept ran.now.kept) ran.now.ending (S.state shelf.old).written (S.state shelf.new).written result }
    ensures others { S.state shelf.new ≡ record (S.state shelf.old) { written = (S.state shelf.new).written } }
{
    match send(shelf, &ran.kept) {
        Ok(()) => status_of(ran.ending),
        Err(_) => Status::WriteFault,
    }
}

/// Writes the transmit file, where frames were kept for it.
fn send<S: Shelf>(shelf: &mut S, kept: &Option<Vec<FrameCopy>>) -> Result<(), WriteFault>
    requires writes { (S.state shelf.old).written.faults < 2 ^ 64 - 1 }
    requires opened { is_some kept.now ≡ true → (S.state shelf.old).written.opened ≡ true }
    ensures all { OnOk result (TakesAll (records_kept kept.now) (S.state shelf.old).written (S.state shelf.new).written) }
    ensures front { OnErr result (TakesSome (records_kept kept.now) (S.state shelf.old).written (S.state shelf.new).written) }
    ensures others { S.state shelf.new ≡ record (S.state shelf.old) { written = (S.state shelf.new).written } }
{
    let Some(kept) = kept else {
        return Ok(());
    };
    write_sent(shelf, kept.as_slice())
}

/// The status where the transcript was written.
fn status_of(ending: Ending) -> Status
    ensures { result ≡ status_at ending }
{
    match ending {
        Ending::Whole => Status::Done,
        Ending::Bad { .. } => Status::BadCapture,
        Ending::Large { .. } => Status::TooLarge,
        Ending::ReadFault => Status::ReadFault,
    }
}

/// The status where no history came.
fn status_of_stop(why: Stopped) -> Status
    ensures { result ≡ status_of_stop why }
{
    match why {
        Stopped::ReadFault => Status::ReadFault,
        Stopped::WriteFault => Status::WriteFault,
        Stopped::TooLarge => Status::TooLarge,
        Stopped::NoMemory => Status::NoMemory,
    }
}
