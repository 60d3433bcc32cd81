//! A source and a sink in memory, which fail just where it was planned.
ghost use Rattle.std.specs.Prelude.{◌≡◌, ℕ, ◌<◌, ◌≤◌, min, List, [], length, IfOk, is_some, Some};
ghost use Rattle.std.proofs.Common.{refl, ◌∙◌};
ghost use Rattle.std.specs.Vec.{vec_len, vec_capacity};
ghost use Rattle.io_edges.specs.Edge.{Reads, Writes};
ghost use Rattle.io_edges.specs.Faults.{HasCause};
ghost use Rattle.io_edges.specs.MemSinkState.{MemSinkState, WritesExactly, takes_now};
ghost use Rattle.io_edges.specs.MemSourceState.{MemSourceState, KeepsBytes, KeepsBytes-none, KeepsBytes-more};

use crate::cursor::Cursor;
use crate::edge::{Failed, Sink, Source};
use crate::plan::{count_allowed, count_one_more, still_planned};
use std::alloc::{AllocError, Global};
use std::marker::Model;

/// Bytes in memory as a source, which gives at most a chunk of them in one call.
///
/// A planned fault comes once, at the first read when just so many bytes were given. Nothing else fails.
#[derive(Drop)]
pub struct MemSource {
    bytes: Vec<u8>,
    chunk: usize,
    cursor: Cursor,
}

impl Model for MemSource {
    ghost use Rattle.std.specs.Prelude.{◌<◌, ◌≤◌};
    ghost use Rattle.std.specs.Vec.{vec_len};
    ghost use Rattle.io_edges.specs.Reading.{reading_of};
    ghost use Rattle.io_edges.specs.MemSourceState.{MemSourceState};

    ghost Value = { MemSourceState };

    ghost view = { λ s. record { reading = reading_of s.bytes.items s.cursor; chunk = s.chunk } };

    ghost invariant = { λ s. (s.cursor.place ≤ vec_len s.bytes) × (0 < s.chunk) };
}

impl MemSource {
    ghost use Rattle.io_edges.specs.Reading.{Reading};

    /// A source of these bytes, which fails once `fail_at` of them were given.
    pub fn new(bytes: Vec<u8>, chunk: usize, fail_at: Option<u64>) -> MemSource
        requires { 0 < chunk }
        ensures { result ≡ record {
          reading = record { given = []; left = bytes.items; fail_at = fail_at; faults = 0 };
          chunk = chunk;
        } }
    {
        let cursor = Cursor {
            place: 0,
            fail_at,
            faults: 0,
        };
        MemSource {
            bytes,
            chunk,
            cursor,
        }
    }
}

impl Source for MemSource {
    ghost use Rattle.io_edges.specs.Reading.{ReadsExactly};

    ghost left = { λ s. Some s.reading.left };

    ghost faults = { λ s. s.reading.faults };

    ghost keeps = { KeepsBytes };

    fn read(&mut self, buf: &mut [u8]) -> Result<usize, Failed>
        requires { 0 < length buf.old }
        ensures exact { ReadsExactly self.old.reading self.new.reading (min self.old.chunk (length buf.old)) result buf.new }
        ensures reads { Reads (Some self.old.reading.left) (Some self.new.reading.left) result buf.new }
        ensures cause { HasCause self.old.reading.faults self.new.reading.faults result }
        ensures keeps { KeepsBytes self.old self.new }
    {
        let most = self.chunk.min(buf.len());
        self.cursor.read(&self.bytes, most, buf)
    }

    ghost keeps_none = { KeepsBytes-none };

    ghost keeps_more = { KeepsBytes-more };
}

/// A sink in memory, whose memory is taken at once.
///
/// It fails where its room is full. A planned fault comes once beside that, at the first write when just so many bytes
/// were taken.
#[derive(Drop)]
pub struct MemSink {
    bytes: Vec<u8>,
    room: usize,
    fail_at: Option<u64>,
    faults: u64,
}

impl Model for MemSink {
    ghost use Rattle.std.specs.Prelude.{◌≤◌};
    ghost use Rattle.std.specs.Vec.{vec_len, vec_capacity};
    ghost use Rattle.io_edges.specs.MemSinkState.{MemSinkState};

    ghost Value = { MemSinkState };

    ghost view = { λ s. record { taken = s.bytes.items; room = s.room; fail_at = s.fail_at; faults = s.faults } };

    ghost invariant = { λ s. (vec_len s.bytes ≤ s.room) × (s.room ≤ vec_capacity s.bytes) };
}

impl MemSink {
    /// A sink for at most `room` bytes, which fails once `fail_at` of them were taken.
    pub fn new(alloc: Global, room: usize, fail_at: Option<u64>) -> Result<MemSink, AllocError>
        ensures { IfOk result (λ s. s ≡ record { taken = []; room = room; fail_at = fail_at; faults = 0 }) }
    {
        let bytes = Vec::with_capacity(alloc, room)?;
        Ok(MemSink {
            bytes,
            room,
            fail_at,
            faults: 0,
        })
    }

    /// The bytes that were taken.
    pub fn taken(&self) -> &[u8]
        ensures { result.now ≡ self.now.taken }
    {
        self.bytes.as_slice()
    }

    /// Forgets the bytes that were taken. Its memory stays.
    pub(crate) fn clear(&mut self)
        ensures { self.new ≡ record self.old { taken = [] } }
    {
        self.bytes.clear();
    }

    /// How many bytes of a piece of `count` it takes now. None where it is full or its planned fault comes now.
    fn count_taken(&self, count: usize) -> Option<usize>
        ensures { result ≡ takes_now self.now count }
    {
        let place = self.bytes.len();
        if self.room <= place {
            return None;
        }
        count_allowed(self.fail_at, place, count.min(self.room - place))
    }
}

impl Sink for MemSink {
    ghost taken = { λ s. Some s.taken };

    ghost faults = { λ s. s.faults };

    ghost keeps = { λ s t. t.room ≡ s.room };

    fn write(&mut self, piece: &[u8]) -> Result<usize, Failed>
        requires { 0 < length piece.now }
        ensures exact { WritesExactly self.old self.new result piece.now }
        ensures writes { Writes (Some self.old.taken) (Some self.new.taken) result piece.now }
        ensures cause { HasCause self.old.faults self.new.faults result }
    {
        let Some(count) = self.count_taken(piece.len()) else {
            self.fail_at = still_planned(self.fail_at, self.bytes.len());
            self.faults = count_one_more(self.faults);
            return Err(Failed);
        };
        self.bytes.extend_from_slice(&piece[..count]).unwrap();
        Ok(count)
    }

    ghost keeps_none = { λ s. refl };

    ghost keeps_more = { λ s t u p q. q ∙ p };
}
