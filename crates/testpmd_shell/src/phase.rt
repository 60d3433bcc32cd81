//! The frames of a phase.
ghost use Rattle.std.specs.Prelude.{◌≡◌, ℕ, List, OnOk, false, true, is_some};
ghost use Rattle.capture_files.specs.Record.{Frame};
ghost use Rattle.io_edges.specs.ShelfState.{ShelfState};
ghost use Rattle.io_edges.specs.Lent.{KeepsSlot};
ghost use Rattle.io_edges.specs.LentLaws.{KeepsSlot-none};
ghost use Rattle.flow_port.specs.Standing.{Stands};
ghost use Rattle.testpmd_shell.specs.Feed.{IsReady, HasRead, CarriesFault};
ghost use Rattle.testpmd_shell.specs.Phase.{is_spent, one_less, AreEntered, Takes};
ghost use Rattle.testpmd_shell.specs.Sending.{kept_in};

use crate::feed::{Feed, next_frame};
use crate::lead::Lead;
use io_edges::{Shelf, Slot};
use std::alloc::AllocError;

/// Whether a phase has taken all frames that it counts.
pub(crate) fn spent(left: Option<u32>) -> bool
    ensures { result ≡ is_spent left }
{
    match left {
        Some(count) => count == 0,
        None => false,
    }
}

/// The count behind one more frame.
pub(crate) fn behind_one(left: Option<u32>) -> Option<u32>
    requires { is_spent left ≡ false }
    ensures { result ≡ one_less left }
{
    match left {
        Some(count) => Some(count - 1),
        None => None,
    }
}

/// Lets `count` of the frames that remain pass, or all of them. A capture that stops early gives no further frames.
pub(crate) fn pass_frames<S: Shelf>(
    lead: &mut Lead,
    feed: &mut Feed,
    shelf: &mut S,
    count: Option<u32>,
) -> Result<(), AllocError>
    requires ready { IsReady feed.old }
    requires opened { (S.state shelf.old).capture.opened ≡ true }
    requires stands { Stands lead.old.adapter.limits lead.old.adapter.history lead.old.replica }
    ensures ready { IsReady feed.new }
    ensures takes { OnOk result ((content : List ℕ) → (frames : List Frame) → HasRead feed.old (S.state shelf.old).capture content frames
        → Takes (AreEntered feed.old.taken frames lead.old.adapter lead.new.adapter (kept_in lead.old) (kept_in lead.new)) count feed.old feed.new (S.state shelf.new).capture content frames) }
    ensures fault { CarriesFault feed.old.ending feed.new.ending (S.state shelf.old).capture.faults (S.state shelf.new).capture.faults }
    ensures stands { OnOk result (Stands lead.new.adapter.limits lead.new.adapter.history lead.new.replica) }
    ensures kept { OnOk result (is_some (kept_in lead.new) ≡ is_some (kept_in lead.old)) }
    ensures limits { lead.new.adapter.limits ≡ lead.old.adapter.limits }
    ensures keeps { KeepsSlot Slot.Capture (S.state shelf.old) (S.state shelf.new) }
{
    let mut left = count;
    while !feed.reader.ended() && !spent(left) {
        let Some(arrived) = next_frame(feed, shelf) else {
            return Ok(());
        };
        lead.pass(feed.taken, arrived, &feed.buffer[..arrived.len])?;
        left = behind_one(left);
    }
    Ok(())
}
