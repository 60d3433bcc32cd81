//! The capture, read one record at a time where a phase asks for one.
ghost use Rattle.std.specs.Prelude.{◌≡◌, ◌≤◌, ◌<◌, ◌^◌, ℕ, List, length, true, false, IfSome, IsSome, not};
ghost use Rattle.capture_files.specs.Record.{Frame};
ghost use Rattle.capture_files.specs.Reader.{rest_of, told, is_frame, TellsRest, TellsGiven, Counts, NextCause};
ghost use Rattle.io_edges.specs.ShelfState.{ShelfState};
ghost use Rattle.io_edges.specs.Lent.{KeepsSlot};
ghost use Rattle.testpmd_shell.specs.Feed.{IsReady, HasRead, ReadsOn, CountsOn, IsFaultOf};

use capture_files::{CaptureReader, Next, Stamp};
use history_text::Ending;
use io_edges::{Shelf, Slot, SlotSource};

/// The capture's reader, how many frames were taken, room for one frame, and how the capture ended for those who asked
/// for more.
#[derive(Drop)]
pub(crate) struct Feed {
    pub(crate) reader: CaptureReader,
    pub(crate) taken: u32,
    pub(crate) buffer: Vec<u8>,
    pub(crate) ending: Ending,
}

/// A frame that was read into the front of a buffer.
#[derive(Clone, Copy)]
pub(crate) struct Arrived {
    /// How many bytes were captured.
    pub(crate) len: usize,
    /// How many it had on the wire.
    pub(crate) wire_len: u32,
    pub(crate) stamp: Stamp,
}

/// Reads the next record of the capture.
fn next_record<S: Shelf>(reader: &mut CaptureReader, shelf: &mut S, buffer: &mut [u8]) -> Next
    requires running { reader.old.ended ≡ false }
    requires room { 262_144 ≤ length buffer.old }
    requires opened { (S.state shelf.old).capture.opened ≡ true }
    ensures rest { IsSome (S.state shelf.old).capture.left
        → TellsRest (rest_of reader.old (told (S.state shelf.old).capture.left)) (rest_of reader.new (told (S.state shelf.new).capture.left)) result buffer.new }
    ensures given { TellsGiven (rest_of reader.old) (rest_of reader.new) (S.state shelf.old).capture.left (S.state shelf.new).capture.left result buffer.new }
    ensures ended { reader.new.ended ≡ not (is_frame result) }
    ensures counts { Counts reader.old reader.new result }
    ensures cause { NextCause (S.state shelf.old).capture.faults (S.state shelf.new).capture.faults result }
    ensures keeps { KeepsSlot Slot.Capture (S.state shelf.old) (S.state shelf.new) }
{
    let mut source = SlotSource::new(shelf, Slot::Capture);
    reader.next(&mut source, buffer)
}

/// Reads the next frame into the front of the buffer. Where there is none the capture has ended.
pub(crate) fn next_frame<S: Shelf>(feed: &mut Feed, shelf: &mut S) -> Option<Arrived>
    requires ready { IsReady feed.old }
    requires running { feed.old.reader.ended ≡ false }
    requires opened { (S.state shelf.old).capture.opened ≡ true }
    ensures ready { IsReady feed.new }
    ensures reads { (content : List ℕ) → (frames : List Frame) → HasRead feed.old (S.state shelf.old).capture content frames
        → ReadsOn feed.new (S.state shelf.new).capture content frames result }
    ensures counts { CountsOn feed.old feed.new result }
    ensures short { IfSome result (λ arrived. arrived.len ≤ 262_144) }
    ensures fault { IsFaultOf feed.new.ending (S.state shelf.old).capture.faults (S.state shelf.new).capture.faults }
    ensures keeps { KeepsSlot Slot.Capture (S.state shelf.old) (S.state shelf.new) }
{
    match next_record(&mut feed.reader, shelf, &mut feed.buffer) {
        Next::Frame {
            len,
            wire_len,
            stamp,
        } => {
            feed.taken += 1;
            Some(Arrived {
                len: len as usize,
                wire_len,
                stamp,
            })
        }
        Next::End => None,
        Next::Bad { place, kind } => {
            feed.ending = Ending::Bad { place, kind };
            None
        }
        Next::Large { place } => {
            feed.ending = Ending::Large { place };
            None
        }
        Next::ReadFault => {
            feed.ending = Ending::ReadFault;
            None
        }
    }
}
