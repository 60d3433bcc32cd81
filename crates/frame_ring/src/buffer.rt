//! One frame's memory.
ghost use Rattle.std.specs.Prelude.{◌≡◌, length, IfOk};
ghost use Rattle.std.specs.Borrow.{Lends, Array, u8, sem};

use std::alloc::{AllocError, Global};
use std::marker::Model;

/// The bytes of a buffer, the most that a record of a capture may have.
pub const BUFFER_BYTES: usize = 262_144;

/// Memory for one frame, beside its number, its lengths and its stamp. Contracts see it as a
/// `Frame`, the record of all of these.
#[derive(Drop)]
pub struct Buffer {
    /// Which frame of the capture it is.
    pub number: u32,
    /// The captured bytes; the frame is the first `len` bytes.
    pub len: u32,
    /// The bytes that the frame had on the wire.
    pub wire_len: u32,
    /// The stamp's seconds.
    pub seconds: u32,
    /// The part of a second behind them, in microseconds, or in nanoseconds where `nano` holds.
    pub part: u32,
    pub nano: bool,
    memory: Vec<u8>,
}

impl Model for Buffer {
    ghost use Rattle.frame_ring.specs.Frame.{Frame};

    ghost Value = { Frame };

    ghost use Rattle.std.specs.Prelude.{◌≡◌, length};

    ghost view = { λ b. record { number = b.number; len = b.len; wire_len = b.wire_len; seconds = b.seconds; part = b.part; nano = b.nano; bytes = b.memory.items } };

    ghost invariant = { λ b. length b.memory.items ≡ 262144 };
}

impl Buffer {
    ghost use Rattle.frame_ring.specs.Frame.{with_bytes};
    ghost use Rattle.frame_ring.specs.contracts.buffer.Buffer.{the_row};

    // A buffer of zeros.
    pub(crate) fn zeroed(alloc: Global) -> Result<Buffer, AllocError> {
        let memory = Vec::from_elem(alloc, 0u8, BUFFER_BYTES)?;
        Ok(Buffer {
            number: 0,
            len: 0,
            wire_len: 0,
            seconds: 0,
            part: 0,
            nano: false,
            memory,
        })
    }

    /// All bytes of the buffer, also those behind the frame.
    pub fn bytes(&self) -> &[u8]
        ensures value { result.now ≡ self.now.bytes }
        ensures len { length result.now ≡ 262144 }
    {
        self.memory.as_slice()
    }

    /// The same, to write.
    pub fn bytes_mut(&mut self) -> &mut [u8]
        ensures* lends { sem 𝓛 (Lends the_row (Array u8 0) self.entry result (with_bytes self.old)) }
        ensures value { result.now ≡ self.old.bytes }
        ensures len { length result.now ≡ 262144 }
    {
        self.memory.as_mut_slice()
    }
}
