//! The parts of a program in the serial order.
ghost use Rattle.std.specs.Prelude.{◌≡◌, ℕ, [], ◌∷◌, false, OnOk, List, is_some};
ghost use Rattle.capture_files.specs.Record.{Frame};
ghost use Rattle.io_edges.specs.ShelfState.{ShelfState};
ghost use Rattle.io_edges.specs.Lent.{KeepsSlot};
ghost use Rattle.io_edges.specs.LentLaws.{KeepsSlot-none};
ghost use Rattle.whole_history.specs.Reach.{is_phase, has_phase};
ghost use Rattle.whole_history.specs.Serial.{asks_of};
ghost use Rattle.adapter.specs.Seen.{Grows};
ghost use Rattle.flow_port.specs.Standing.{Stands};
ghost use Rattle.testpmd_shell.specs.Feed.{CarriesFault};
ghost use Rattle.testpmd_shell.specs.Sending.{kept_in};
ghost use Rattle.testpmd_shell.specs.Parts.{IsOpen, WasRead, TakesIn, RunsPart, RunsParts, ending_in, taken_in};
ghost use Rattle.testpmd_shell.specs.Phase.{AreEntered};
ghost use Rattle.testpmd_shell.specs.Ways.{serially};

use crate::ask::{ask_agents, ask_all};
use crate::feed::Feed;
use crate::lead::Lead;
use crate::phase::pass_frames;
use adapter::Adapter;
use flow_calls::{Call, Caller};
use flow_grammar::Part;
use io_edges::{Shelf, Slot};
use std::alloc::AllocError;

/// Asks one call as the shell.
pub(crate) fn ask(adapter: &mut Adapter, call: &Call) -> Result<(), AllocError>
    ensures asks { OnOk result (Grows adapter.old adapter.new (asks_of adapter.old.limits 0 (call.now ∷ []) adapter.old.history)) }
    ensures limits { adapter.new.limits ≡ adapter.old.limits }
{
    adapter.step(Caller::SHELL, call)?;
    Ok(())
}

/// Lets the frames of a phase pass, where the session has a capture.
fn take_frames<S: Shelf>(
    lead: &mut Lead,
    shelf: &mut S,
    feed: &mut Option<Feed>,
    count: Option<u32>,
) -> Result<(), AllocError>
    requires open { IsOpen feed.old (S.state shelf.old) }
    requires stands { Stands lead.old.adapter.limits lead.old.adapter.history lead.old.replica }
    ensures open { IsOpen feed.new (S.state shelf.new) }
    ensures takes { OnOk result ((content : List ℕ) → (frames : List Frame) → WasRead feed.old (S.state shelf.old) content frames
        → TakesIn (AreEntered (taken_in feed.old) frames lead.old.adapter lead.new.adapter (kept_in lead.old) (kept_in lead.new)) count feed.old feed.new (S.state shelf.new) content frames) }
    ensures fault { CarriesFault (ending_in feed.old) (ending_in feed.new) (S.state shelf.old).capture.faults (S.state shelf.new).capture.faults }
    ensures stands { OnOk result (Stands lead.new.adapter.limits lead.new.adapter.history lead.new.replica) }
    ensures kept { OnOk result (is_some (kept_in lead.new) ≡ is_some (kept_in lead.old)) }
    ensures limits { lead.new.adapter.limits ≡ lead.old.adapter.limits }
    ensures keeps { KeepsSlot Slot.Capture (S.state shelf.old) (S.state shelf.new) }
{
    let Some(feed) = feed else {
        return Ok(());
    };
    pass_frames(lead, feed, shelf, count)
}

/// Runs a part of a program: a section's calls, or a phase's, and then its frames by worker 0.
fn run_part<S: Shelf>(
    lead: &mut Lead,
    part: &Part,
    shelf: &mut S,
    feed: &mut Option<Feed>,
) -> Result<(), AllocError>
    requires open { IsOpen feed.old (S.state shelf.old) }
    requires stands { Stands lead.old.adapter.limits lead.old.adapter.history lead.old.replica }
    ensures open { IsOpen feed.new (S.state shelf.new) }
    ensures runs { OnOk result ((content : List ℕ) → (frames : List Frame) → WasRead feed.old (S.state shelf.old) content frames
        → RunsPart serially part.now feed.old feed.new (S.state shelf.new) content frames lead.old.adapter lead.new.adapter (kept_in lead.old) (kept_in lead.new)) }
    ensures fault { CarriesFault (ending_in feed.old) (ending_in feed.new) (S.state shelf.old).capture.faults (S.state shelf.new).capture.faults }
    ensures stands { OnOk result (Stands lead.new.adapter.limits lead.new.adapter.history lead.new.replica) }
    ensures kept { OnOk result (is_some (kept_in lead.new) ≡ is_some (kept_in lead.old)) }
    ensures limits { lead.new.adapter.limits ≡ lead.old.adapter.limits }
    ensures keeps { KeepsSlot Slot.Capture (S.state shelf.old) (S.state shelf.new) }
    ensures unread { is_phase part.now ≡ false → S.state shelf.new ≡ S.state shelf.old }
{
    match part {
        Part::Section(calls) => ask_all(&mut lead.adapter, Caller::SHELL, calls.as_slice()),
        Part::Phase {
            opening,
            count,
            shell,
            agents,
            closing,
        } => {
            ask(&mut lead.adapter, opening)?;
            ask_all(&mut lead.adapter, Caller::SHELL, shell.as_slice())?;
            ask_agents(&mut lead.adapter, agents)?;
            take_frames(lead, shelf, feed, *count)?;
            ask(&mut lead.adapter, closing)
        }
    }
}

/// Runs the parts of a program: in each phase the shell's calls, the agents', and then the frames by worker 0.
pub(crate) fn run_parts<S: Shelf>(
    lead: &mut Lead,
    program: &[Part],
    shelf: &mut S,
    feed: &mut Option<Feed>,
) -> Result<(), AllocError>
    requires open { IsOpen feed.old (S.state shelf.old) }
    requires stands { Stands lead.old.adapter.limits lead.old.adapter.history lead.old.replica }
    ensures open { IsOpen feed.new (S.state shelf.new) }
    ensures runs { OnOk result ((content : List ℕ) → (frames : List Frame) → WasRead feed.old (S.state shelf.old) content frames
        → RunsParts serially program.now feed.old feed.new (S.state shelf.new) content frames lead.old.adapter lead.new.adapter (kept_in lead.old) (kept_in lead.new)) }
    ensures fault { CarriesFault (ending_in feed.old) (ending_in feed.new) (S.state shelf.old).capture.faults (S.state shelf.new).capture.faults }
    ensures stands { OnOk result (Stands lead.new.adapter.limits lead.new.adapter.history lead.new.replica) }
    ensures kept { OnOk result (is_some (kept_in lead.new) ≡ is_some (kept_in lead.old)) }
    ensures limits { lead.new.adapter.limits ≡ lead.old.adapter.limits }
    ensures keeps { KeepsSlot Slot.Capture (S.state shelf.old) (S.state shelf.new) }
    ensures unread { has_phase program.now ≡ false → S.state shelf.new ≡ S.state shelf.old }
{
    for part in program {
        run_part(lead, part, shelf, feed)?;
    }
    Ok(())
}
