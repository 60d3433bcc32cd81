//! The frames of a phase, read before its workers begin.
ghost use Rattle.std.specs.Prelude.{◌≡◌, ◌≤◌, ◌+◌, ℕ, List, [], length, map, IfOk, OnOk, true, false};
ghost use Rattle.capture_files.specs.Record.{Frame};
ghost use Rattle.io_edges.specs.ShelfState.{ShelfState};
ghost use Rattle.io_edges.specs.Lent.{KeepsSlot};
ghost use Rattle.io_edges.specs.LentLaws.{KeepsSlot-none};
ghost use Rattle.running_phase.specs.Copies.{frame_of};
ghost use Rattle.testpmd_shell.specs.Feed.{IsReady, HasRead, CarriesFault, frame_in};
ghost use Rattle.testpmd_shell.specs.Phase.{Takes, AreNumbered};
ghost use Rattle.testpmd_shell.specs.Parts.{IsOpen, WasRead, TakesIn, ending_in, taken_in};

use crate::feed::{Arrived, Feed, next_frame};
use crate::phase::{behind_one, spent};
use io_edges::{Shelf, Slot};
use running_phase::FrameCopy;
use std::alloc::{AllocError, Global};

/// A copy of the frame of that number that arrived in those captured bytes.
fn copy_of(
    alloc: Global,
    number: u32,
    arrived: Arrived,
    bytes: &[u8],
) -> Result<FrameCopy, AllocError>
    requires short { length bytes.now ≤ 262_144 }
    ensures number { IfOk result (λ copy. copy.number ≡ number) }
    ensures frame { IfOk result (λ copy. frame_of copy ≡ frame_in arrived bytes.now) }
{
    Ok(FrameCopy {
        number,
        wire_len: arrived.wire_len,
        stamp: arrived.stamp,
        bytes: Vec::from_slice(alloc, bytes)?,
    })
}

/// Reads `count` of the frames that remain, or all of them. A capture that stops early gives no further frames.
fn read_frames<S: Shelf>(
    alloc: Global,
    feed: &mut Feed,
    shelf: &mut S,
    count: Option<u32>,
) -> Result<Vec<FrameCopy>, AllocError>
    requires ready { IsReady feed.old }
    requires opened { (S.state shelf.old).capture.opened ≡ true }
    ensures ready { IsReady feed.new }
    ensures takes { IfOk result (λ copies. (content : List ℕ) → (frames : List Frame) → HasRead feed.old (S.state shelf.old).capture content frames
        → Takes (λ more. AreNumbered (feed.old.taken + 1) more copies.items) count feed.old feed.new (S.state shelf.new).capture content frames) }
    ensures numbered { IfOk result (λ copies. AreNumbered (feed.old.taken + 1) (map frame_of copies.items) copies.items) }
    ensures counted { IfOk result (λ copies. feed.new.taken ≡ feed.old.taken + length copies.items) }
    ensures few { IfOk result (λ copies. length copies.items ≤ 1_048_576) }
    ensures fault { CarriesFault feed.old.ending feed.new.ending (S.state shelf.old).capture.faults (S.state shelf.new).capture.faults }
    ensures keeps { KeepsSlot Slot.Capture (S.state shelf.old) (S.state shelf.new) }
{
    let mut copies = Vec::new(alloc);
    let mut left = count;
    while !feed.reader.ended() && !spent(left) {
        let Some(arrived) = next_frame(feed, shelf) else {
            return Ok(copies);
        };
        let copy = copy_of(alloc, feed.taken, arrived, &feed.buffer[..arrived.len])?;
        copies.push(copy)?;
        left = behind_one(left);
    }
    Ok(copies)
}

/// Reads the frames of a phase, where the session has a capture.
pub(crate) fn frames_of_phase<S: Shelf>(
    alloc: Global,
    shelf: &mut S,
    feed: &mut Option<Feed>,
    count: Option<u32>,
) -> Result<Vec<FrameCopy>, AllocError>
    requires open { IsOpen feed.old (S.state shelf.old) }
    ensures open { IsOpen feed.new (S.state shelf.new) }
    ensures takes { IfOk result (λ copies. (content : List ℕ) → (frames : List Frame) → WasRead feed.old (S.state shelf.old) content frames
        → TakesIn (λ more. AreNumbered (taken_in feed.old + 1) more copies.items) count feed.old feed.new (S.state shelf.new) content frames) }
    ensures numbered { IfOk result (λ copies. AreNumbered (taken_in feed.old + 1) (map frame_of copies.items) copies.items) }
    ensures counted { IfOk result (λ copies. taken_in feed.new ≡ taken_in feed.old + length copies.items) }
    ensures few { IfOk result (λ copies. length copies.items ≤ 1_048_576) }
    ensures fault { CarriesFault (ending_in feed.old) (ending_in feed.new) (S.state shelf.old).capture.faults (S.state shelf.new).capture.faults }
    ensures keeps { KeepsSlot Slot.Capture (S.state shelf.old) (S.state shelf.new) }
{
    let Some(feed) = feed else {
        return Ok(Vec::new(alloc));
    };
    read_frames(alloc, feed, shelf, count)
}
