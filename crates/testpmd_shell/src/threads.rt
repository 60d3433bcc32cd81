//! The parts of a program on threads: in each phase the shell, the agents that have calls and the workers take turns.
ghost use Rattle.std.specs.Prelude.{◌≡◌, ◌≤◌, ◌<◌, ◌+◌, ◌++◌, ◌^◌, ℕ, [], ◌∷◌, List, Option, Some, None, All, IfOk, OnOk, false, is_some, length, if◌then◌else◌};
ghost use Rattle.std.specs.List.Sorted.{IsStrictlyIncreasing};
ghost use Rattle.capture_files.specs.Record.{Frame};
ghost use Rattle.io_edges.specs.ShelfState.{ShelfState};
ghost use Rattle.io_edges.specs.Lent.{KeepsSlot};
ghost use Rattle.io_edges.specs.LentLaws.{KeepsSlot-none};
ghost use Rattle.flow_rules.specs.Limits.{AreLimits};
ghost use Rattle.flow_calls.specs.declared.call.Call.{Call};
ghost use Rattle.flow_calls.specs.declared.entry.Entry.{Entry};
ghost use Rattle.flow_calls.specs.Entries.{numbers_by};
ghost use Rattle.adapter.specs.History.{IsLegal};
ghost use Rattle.adapter.specs.Seen.{Grows};
ghost use Rattle.flow_grammar.specs.declared.part.Part.TheVariants as parts;
ghost use Rattle.flow_grammar.specs.Limits.{calls_in};
ghost use Rattle.flow_port.specs.Standing.{Stands};
ghost use Rattle.running_phase.specs.Copies.{numbers, parcels};
ghost use Rattle.whole_history.specs.Reach.{is_phase, has_phase};
ghost use Rattle.whole_history.specs.Serial.{asks_of};
ghost use Rattle.whole_history.specs.Whole.{IsMiddle};
ghost use Rattle.testpmd_shell.specs.Feed.{CarriesFault};
ghost use Rattle.testpmd_shell.specs.Parts.{IsOpen, WasRead, RunsPart, RunsParts, ending_in, taken_in};
ghost use Rattle.testpmd_shell.specs.Phase.{AreNumbered};
ghost use Rattle.testpmd_shell.specs.Sending.{AreKept, records_kept, records_of};
ghost use Rattle.testpmd_shell.specs.Ways.{in_any_turns};
ghost use Rattle.testpmd_shell.specs.Workers.{AddsPhase, AreReady};

use crate::ask::ask_all;
use crate::feed::Feed;
use crate::frames::frames_of_phase;
use crate::parts::ask;
use adapter::Adapter;
use flow_calls::{Call, Caller};
use flow_grammar::Part;
use flow_rules::Limits;
use io_edges::{Gate, Shelf, Slot};
use replica::Replica;
use running_phase::{FrameCopy, Middle, Phase, run_middle};
use std::alloc::{AllocError, Global};
use std::sync::Wait;
use std::thread::Threads;

/// The workers of a session: a copy of what packets see for each, and the frames that go out, where a transmit file was asked for.
#[derive(Drop)]
pub(crate) struct Workers {
    pub(crate) replicas: Vec<Replica>,
    pub(crate) kept: Option<Vec<FrameCopy>>,
    alloc: Global,
}

/// So many copies of what packets see before the run.
fn new_replicas(alloc: Global, limits: Limits, workers: u8) -> Result<Vec<Replica>, AllocError>
    requires { AreLimits limits }
    ensures stand { IfOk result (λ replicas. All (λ r. Stands limits [] r) replicas.items) }
    ensures count { IfOk result (λ replicas. length replicas.items ≡ workers) }
{
    let mut replicas = Vec::new(alloc);
    for _ in 0..workers {
        replicas.push(Replica::new(alloc, limits)?)?;
    }
    Ok(replicas)
}

impl Workers {
    /// So many workers before the run, who keep frames or don't.
    pub(crate) fn new(
        alloc: Global,
        limits: Limits,
        workers: u8,
        keeps: bool,
    ) -> Result<Workers, AllocError>
        requires { AreLimits limits }
        ensures stand { IfOk result (λ made. All (λ r. Stands limits [] r) made.replicas.items) }
        ensures count { IfOk result (λ made. length made.replicas.items ≡ workers) }
        ensures kept { IfOk result (λ made. records_kept made.kept ≡ (if keeps then Some [] else None)) }
    {
        let replicas = new_replicas(alloc, limits, workers)?;
        let kept = if keeps { Some(Vec::new(alloc)) } else { None };
        Ok(Workers {
            replicas,
            kept,
            alloc,
        })
    }
}

/// Keeps what a phase sent behind what earlier ones did, where frames are kept.
fn keep(kept: &mut Option<Vec<FrameCopy>>, sent: Option<Vec<FrameCopy>>) -> Result<(), AllocError>
    ensures still { is_some kept.new ≡ is_some kept.old }
    ensures more { OnOk result ((records : List ℕ) → (kept_records : List ℕ) → records_kept kept.old ≡ Some kept_records
        → records_kept sent ≡ Some records → records_kept kept.new ≡ Some (kept_records ++ records)) }
{
    let Some(kept) = kept else {
        return Ok(());
    };
    let Some(sent) = sent else {
        return Ok(());
    };
    keep_all(kept, sent)
}

/// Puts frames behind others.
fn keep_all(kept: &mut Vec<FrameCopy>, sent: Vec<FrameCopy>) -> Result<(), AllocError>
    ensures { OnOk result (kept.new.items ≡ kept.old.items ++ sent.items) }
{
    for copy in sent {
        kept.push(copy)?;
    }
    Ok(())
}

/// Runs a phase's middle, and keeps what goes out of it.
fn pass_middle<R: Threads + Wait + Sync, G: Gate + Sync>(
    rt: &R,
    gate: &G,
    workers: &mut Workers,
    adapter: Adapter,
    phase: &Phase<'_>,
) -> Result<Adapter, AllocError>
    requires workers { (1 ≤ length workers.old.replicas.items) × (length workers.old.replicas.items ≤ 16) }
    requires stands { All (λ r. Stands adapter.limits adapter.history r) workers.old.replicas.items }
    requires few { (length phase.now.shell.now ≤ 2 ^ 32) × All (λ calls. length calls ≤ 2 ^ 32) phase.now.agents.now × (length phase.now.frames.now ≤ 2 ^ 32) }
    requires rising { IsStrictlyIncreasing (numbers phase.now.frames.now) }
    requires behind { (who : ℕ) → All (λ n. All (λ c. n < c.number) phase.now.frames.now) (numbers_by who adapter.history) }
    requires keeps { phase.now.keeps ≡ is_some workers.old.kept }
    ensures limits { IfOk result (λ made. made.limits ≡ adapter.limits) }
    ensures legal { IfOk result (λ made. IsLegal made.limits made.history) }
    ensures middle { IfOk result (λ made. (middle : List Entry) × (made.history ≡ adapter.history ++ middle)
        × ((opening closing : Call) → (count : Option ℕ) → IsMiddle (length workers.old.replicas.items)
        (parts.Phase opening count phase.now.shell.now phase.now.agents.now closing) (parcels phase.now.frames.now) middle)) }
    ensures stands { IfOk result (λ made. All (λ r. Stands made.limits made.history r) workers.new.replicas.items) }
    ensures count { OnOk result (length workers.new.replicas.items ≡ length workers.old.replicas.items) }
    ensures keeps { OnOk result (is_some workers.new.kept ≡ is_some workers.old.kept) }
    ensures sent { IfOk result (λ made. (taken : ℕ) → (frames more : List Frame) → AreNumbered (taken + 1) more phase.now.frames.now
        → AreKept (records_kept workers.old.kept) taken frames adapter → AreKept (records_kept workers.new.kept) (taken + length more) (frames ++ more) made) }
{
    let made = run_middle(
        rt,
        gate,
        workers.alloc,
        adapter,
        &mut workers.replicas,
        phase,
    )?;
    let Middle { adapter, sent } = made;
    keep(&mut workers.kept, sent)?;
    Ok(adapter)
}

/// Runs a phase of these frames on threads, from its opening to its closing.
fn run_phase<R: Threads + Wait + Sync, G: Gate + Sync>(
    rt: &R,
    gate: &G,
    workers: &mut Workers,
    adapter: Adapter,
    opening: &Call,
    closing: &Call,
    phase: &Phase<'_>,
) -> Result<Adapter, AllocError>
    requires ready { (taken : ℕ) × (more : List Frame) × AreNumbered (taken + 1) more phase.now.frames.now × AreReady taken adapter workers.old.replicas.items }
    requires few { (length phase.now.shell.now ≤ 2 ^ 32) × All (λ calls. length calls ≤ 2 ^ 32) phase.now.agents.now × (length phase.now.frames.now ≤ 2 ^ 32) }
    requires keeps { phase.now.keeps ≡ is_some workers.old.kept }
    ensures adds { IfOk result (λ made. AddsPhase (length workers.old.replicas.items) opening.now closing.now phase.now.shell.now phase.now.agents.now (parcels phase.now.frames.now) adapter made) }
    ensures sent { IfOk result (λ made. (taken : ℕ) → (frames more : List Frame) → AreNumbered (taken + 1) more phase.now.frames.now
        → AreKept (records_kept workers.old.kept) taken frames adapter → AreKept (records_kept workers.new.kept) (taken + length more) (frames ++ more) made) }
    ensures ready { IfOk result (λ made. (taken : ℕ) → (more : List Frame) → AreNumbered (taken + 1) more phase.now.frames.now
        → AreReady taken adapter workers.old.replicas.items → AreReady (taken + length more) made workers.new.replicas.items) }
    ensures count { OnOk result (length workers.new.replicas.items ≡ length workers.old.replicas.items) }
    ensures kept { OnOk result (is_some workers.new.kept ≡ is_some workers.old.kept) }
{
    let mut adapter = adapter;
    ask(&mut adapter, opening)?;
    let mut passed = pass_middle(rt, gate, workers, adapter, phase)?;
    ask(&mut passed, closing)?;
    Ok(passed)
}

/// Asks the calls of a section.
fn run_section(adapter: Adapter, calls: &[Call]) -> Result<Adapter, AllocError>
    ensures asks { IfOk result (λ made. Grows adapter made (asks_of adapter.limits 0 calls.now adapter.history)) }
{
    let mut adapter = adapter;
    ask_all(&mut adapter, Caller::SHELL, calls)?;
    Ok(adapter)
}

/// Runs a part of a program: a section's calls, or a phase on threads.
fn run_part<R: Threads + Wait + Sync, S: Shelf, G: Gate + Sync>(
    rt: &R,
    gate: &G,
    workers: &mut Workers,
    adapter: Adapter,
    part: &Part,
    shelf: &mut S,
    feed: &mut Option<Feed>,
) -> Result<Adapter, AllocError>
    requires open { IsOpen feed.old (S.state shelf.old) }
    requires ready { AreReady (taken_in feed.old) adapter workers.old.replicas.items }
    requires few { calls_in (part.now ∷ []) ≤ 65536 }
    ensures open { IsOpen feed.new (S.state shelf.new) }
    ensures runs { IfOk result (λ made. (content : List ℕ) → (frames : List Frame) → WasRead feed.old (S.state shelf.old) content frames
        → RunsPart (in_any_turns (length workers.old.replicas.items)) part.now feed.old feed.new (S.state shelf.new) content frames adapter made (records_kept workers.old.kept) (records_kept workers.new.kept)) }
    ensures ready { IfOk result (λ made. AreReady (taken_in feed.new) made workers.new.replicas.items) }
    ensures count { OnOk result (length workers.new.replicas.items ≡ length workers.old.replicas.items) }
    ensures fault { CarriesFault (ending_in feed.old) (ending_in feed.new) (S.state shelf.old).capture.faults (S.state shelf.new).capture.faults }
    ensures kept { OnOk result (is_some workers.new.kept ≡ is_some workers.old.kept) }
    ensures limits { IfOk result (λ made. made.limits ≡ adapter.limits) }
    ensures keeps { KeepsSlot Slot.Capture (S.state shelf.old) (S.state shelf.new) }
    ensures unread { is_phase part.now ≡ false → S.state shelf.new ≡ S.state shelf.old }
{
    match part {
        Part::Section(calls) => run_section(adapter, calls.as_slice()),
        Part::Phase {
            opening,
            count,
            shell,
            agents,
            closing,
        } => {
            let frames = frames_of_phase(workers.alloc, shelf, feed, *count)?;
            let phase = Phase {
                shell: shell.as_slice(),
                agents,
                frames: frames.as_slice(),
                keeps: workers.kept.is_some(),
            };
            run_phase(rt, gate, workers, adapter, opening, closing, &phase)
        }
    }
}

/// Runs the parts of a program, each phase on threads.
pub(crate) fn run_parts_on_threads<R: Threads + Wait + Sync, S: Shelf, G: Gate + Sync>(
    rt: &R,
    gate: &G,
    workers: &mut Workers,
    adapter: Adapter,
    program: &[Part],
    shelf: &mut S,
    feed: &mut Option<Feed>,
) -> Result<Adapter, AllocError>
    requires open { IsOpen feed.old (S.state shelf.old) }
    requires ready { AreReady (taken_in feed.old) adapter workers.old.replicas.items }
    requires few { calls_in program.now ≤ 65536 }
    ensures open { IsOpen feed.new (S.state shelf.new) }
    ensures runs { IfOk result (λ made. (content : List ℕ) → (frames : List Frame) → WasRead feed.old (S.state shelf.old) content frames
        → RunsParts (in_any_turns (length workers.old.replicas.items)) program.now feed.old feed.new (S.state shelf.new) content frames adapter made (records_kept workers.old.kept) (records_kept workers.new.kept)) }
    ensures fault { CarriesFault (ending_in feed.old) (ending_in feed.new) (S.state shelf.old).capture.faults (S.state shelf.new).capture.faults }
    ensures kept { OnOk result (is_some workers.new.kept ≡ is_some workers.old.kept) }
    ensures limits { IfOk result (λ made. made.limits ≡ adapter.limits) }
    ensures keeps { KeepsSlot Slot.Capture (S.state shelf.old) (S.state shelf.new) }
    ensures unread { has_phase program.now ≡ false → S.state shelf.new ≡ S.state shelf.old }
{
    let mut adapter = adapter;
    for part in program {
        adapter = run_part(rt, gate, workers, adapter, part, shelf, feed)?;
    }
    Ok(adapter)
}
