//! Frames that are a function of their numbers, and those of one worker.
ghost use Rattle.std.specs.Prelude.{◌≡◌, ◌+◌, ◌<◌, ◌≤◌, length, All, OnOk};
ghost use Rattle.std.specs.List.Sorted.{IsStrictlyIncreasing};
ghost use Rattle.test_crews.specs.Shares.{frame_of, key_of, numbers};

use flow_calls::Parcel;
use packet_headers::Key;
use std::alloc::AllocError;

/// The length of frame 0. Each further one is a byte longer, up to `LENGTHS`.
const LEAST_LENGTH: u32 = 60;

/// How many lengths there are.
const LENGTHS: u32 = 1000;

/// A frame without headers.
const NO_KEY: Key = Key {
    outer: None,
    tunnel: None,
};

/// The headers of the frame of that number: the keys come in turn.
fn key_at(keys: &[Key], number: u32) -> Key
    ensures { result ≡ key_of keys.now number }
{
    if keys.is_empty() {
        return NO_KEY;
    }
    keys[number as usize % keys.len()]
}

/// The frame of that number.
pub fn frame(keys: &[Key], number: u32) -> Parcel
    ensures { result ≡ frame_of keys.now number }
{
    Parcel {
        number,
        key: key_at(keys, number),
        len: LEAST_LENGTH + number % LENGTHS,
    }
}

/// The frames of one worker that didn't pass yet: their numbers from `next` on, `step` apart and below `end`.
#[derive(Clone, Copy)]
pub struct Share<'a> {
    pub keys: &'a [Key],
    pub next: u32,
    pub step: u32,
    pub end: u32,
}

impl<'a> Share<'a> {
    /// Takes the next frames, at most so many, and puts them in the place of those in `parcels`.
    pub fn take(&mut self, most: usize, parcels: &mut Vec<Parcel>) -> Result<(), AllocError>
        requires step { 1 ≤ self.old.step }
        ensures same { (self.new.step ≡ self.old.step) × (self.new.end ≡ self.old.end) }
        ensures rising { IsStrictlyIncreasing (numbers parcels.new.items) }
        ensures from { All (λ n. self.old.next ≤ n) (numbers parcels.new.items) }
        ensures below { All (λ n. n < self.new.next) (numbers parcels.new.items) }
        ensures most { length parcels.new.items ≤ most }
        ensures next { self.old.next + length parcels.new.items ≤ self.new.next }
        ensures some { OnOk result (1 ≤ most → self.old.next < self.old.end → 1 ≤ length parcels.new.items) }
    {
        parcels.clear();
        while parcels.len() < most && self.next < self.end {
            parcels.push(frame(self.keys, self.next))?;
            self.next = self.next.saturating_add(self.step);
        }
        Ok(())
    }
}
