//! A place in bytes that are read, with the fault that is planned there.
ghost use Rattle.std.specs.Prelude.{◌≡◌, ℕ, ◌+◌, ◌<◌, ◌≤◌, ◌++◌, length, take, drop, Some, MatchResult};
ghost use Rattle.io_edges.specs.Edge.{Reads};
ghost use Rattle.io_edges.specs.Faults.{HasCause};

use crate::edge::Failed;
use crate::plan::{count_allowed, count_one_more};

/// A place in bytes that stand elsewhere, the planned fault until it comes, and the count of failed reads.
#[derive(Drop)]
pub struct Cursor {
    pub place: usize,
    pub fail_at: Option<u64>,
    pub faults: u64,
}

impl Cursor {
    ghost use Rattle.io_edges.specs.Reading.{ReadsExactly, reading_of};

    /// Gives at most `most` of the bytes from its place on.
    pub fn read(&mut self, bytes: &[u8], most: usize, buf: &mut [u8]) -> Result<usize, Failed>
        requires within { self.old.place ≤ length bytes.now }
        requires fits { most ≤ length buf.old }
        requires some_byte { 0 < most }
        ensures exact { ReadsExactly (reading_of bytes.now self.old) (reading_of bytes.now self.new) most result buf.new }
        ensures given { MatchResult result
            (λ n. take self.new.place bytes.now ≡ take self.old.place bytes.now ++ take n buf.new)
            (λ _. take self.new.place bytes.now ≡ take self.old.place bytes.now) }
        ensures left { Reads (Some (drop self.old.place bytes.now)) (Some (drop self.new.place bytes.now)) result buf.new }
        ensures cause { HasCause self.old.faults self.new.faults result }
        ensures within { self.new.place ≤ length bytes.now }
    {
        let left = bytes.len() - self.place;
        let Some(count) = count_allowed(self.fail_at, self.place, most.min(left)) else {
            self.fail_at = None;
            self.faults = count_one_more(self.faults);
            return Err(Failed);
        };
        copy_from(bytes, self.place, count, buf);
        self.place += count;
        Ok(count)
    }
}

/// Copies `count` bytes from `place` on to the front of `buf`.
pub fn copy_from(bytes: &[u8], place: usize, count: usize, buf: &mut [u8])
    requires within { place + count ≤ length bytes.now }
    requires fits { count ≤ length buf.old }
    ensures { take count buf.new ≡ take count (drop place bytes.now) }
{
    buf[..count].copy_from_slice(&bytes[place..place + count]);
}
