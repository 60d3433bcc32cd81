//! The run of a script's parts, from the files that were opened to the history.
ghost use Rattle.std.specs.Prelude.{◌≡◌, ◌≤◌, List, option_copied, is_some, false, IfOk, IfErr};
ghost use Rattle.io_edges.specs.ShelfState.{ShelfState};
ghost use Rattle.io_edges.specs.Lent.{KeepsSlot};
ghost use Rattle.flow_rules.specs.Limits.{AreLimits};
ghost use Rattle.flow_grammar.specs.Limits.{calls_in};
ghost use Rattle.whole_history.specs.Reach.{has_phase};
ghost use Rattle.testpmd_shell.specs.Options.{given_of};
ghost use Rattle.testpmd_shell.specs.Found.{limits_of};
ghost use Rattle.testpmd_shell.specs.Sending.{records_kept};
ghost use Rattle.testpmd_shell.specs.Parts.{IsOpen, ending_in};
ghost use Rattle.testpmd_shell.specs.Ways.{serially, in_any_turns};
ghost use Rattle.testpmd_shell.specs.Fetch.{HasFinished};

use crate::feed::Feed;
use crate::lead::Lead;
use crate::options::Options;
use crate::parts::run_parts;
use crate::threads::{Workers, run_parts_on_threads};
use adapter::Adapter;
use flow_grammar::Part;
use flow_rules::Limits;
use history_text::Ending;
use io_edges::{Gate, Shelf, Slot};
use running_phase::FrameCopy;
use std::alloc::{AllocError, Global};
use std::sync::Wait;
use std::thread::Threads;

/// A script that was run to its end: the adapter with the history, the frames that go out, where they are kept, and how the capture
/// ended.
#[derive(Drop)]
pub(crate) struct Ran {
    pub(crate) adapter: Adapter,
    pub(crate) kept: Option<Vec<FrameCopy>>,
    pub(crate) ending: Ending,
}

/// The limits of the adapter.
fn limits_of(options: &Options<'_>) -> Limits
    ensures { result ≡ limits_of (given_of options.now) }
{
    Limits {
        rxq: options.rxq,
        flow_max: options.flow_max,
    }
}

fn is_named(name: Option<&str>) -> bool
    ensures { result ≡ is_some (option_copied name.entry) }
{
    name.is_some()
}

/// How the capture ended. A session without one has the end of an empty capture.
fn ending_of(feed: &Option<Feed>) -> Ending
    ensures { result ≡ ending_in feed.now }
{
    match feed {
        Some(feed) => feed.ending,
        None => Ending::Whole,
    }
}

/// Runs the parts of a program in the serial order. `Err` is want of memory.
pub(crate) fn run<S: Shelf>(
    alloc: Global,
    options: &Options<'_>,
    program: &[Part],
    shelf: &mut S,
    feed: Option<Feed>,
) -> Result<Ran, AllocError>
    requires open { IsOpen feed (S.state shelf.old) }
    requires limits { AreLimits (limits_of (given_of options.now)) }
    ensures finished { IfOk result (λ ran. HasFinished serially (given_of options.now) program.now feed (S.state shelf.old) (S.state shelf.new) ran.adapter (records_kept ran.kept) ran.ending) }
    ensures keeps { KeepsSlot Slot.Capture (S.state shelf.old) (S.state shelf.new) }
    ensures unread { has_phase program.now ≡ false → S.state shelf.new ≡ S.state shelf.old }
{
    let mut feed = feed;
    let mut lead = Lead::new(alloc, limits_of(options), is_named(options.transmit))?;
    run_parts(&mut lead, program, shelf, &mut feed)?;
    let Lead { adapter, kept, .. } = lead;
    Ok(Ran {
        adapter,
        kept,
        ending: ending_of(&feed),
    })
}

/// Runs the parts of a program, each phase on threads. `Err` is want of memory.
pub(crate) fn run_on_threads<R: Threads + Wait + Sync, S: Shelf, G: Gate + Sync>(
    rt: &R,
    gate: &G,
    alloc: Global,
    options: &Options<'_>,
    program: &[Part],
    shelf: &mut S,
    feed: Option<Feed>,
) -> Result<Ran, AllocError>
    requires open { IsOpen feed (S.state shelf.old) }
    requires limits { AreLimits (limits_of (given_of options.now)) }
    requires workers { (1 ≤ options.now.cores) × (options.now.cores ≤ 16) }
    requires few { calls_in program.now ≤ 65536 }
    ensures finished { IfOk result (λ ran. HasFinished (in_any_turns options.now.cores) (given_of options.now) program.now feed (S.state shelf.old) (S.state shelf.new) ran.adapter (records_kept ran.kept) ran.ending) }
    ensures keeps { KeepsSlot Slot.Capture (S.state shelf.old) (S.state shelf.new) }
    ensures unread { has_phase program.now ≡ false → S.state shelf.new ≡ S.state shelf.old }
{
    let mut feed = feed;
    let adapter = Adapter::new(alloc, limits_of(options))?;
    let mut workers = Workers::new(
        alloc,
        limits_of(options),
        options.cores,
        is_named(options.transmit),
    )?;
    let adapter = run_parts_on_threads(rt, gate, &mut workers, adapter, program, shelf, &mut feed)?;
    let Workers { kept, .. } = workers;
    Ok(Ran {
        adapter,
        kept,
        ending: ending_of(&feed),
    })
}
