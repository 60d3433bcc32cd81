//! Bytes of a file that were read ahead, so that a small read costs no call of the system.
ghost use Rattle.std.specs.Prelude.{◌≡◌, ◌≤◌, ℕ, List, [], length, min, take, drop, ◌↔◌, IsTrue, OnOk, OnErr};
ghost use Rattle.std.specs.Io.KnownBytes.{Consumes, Keeps};

use crate::cursor::copy_from;
use crate::edge::Failed;
use std::io::Read;
use std::marker::Model;

/// How many bytes one call of the system reads: more gained nothing where it was measured.
const ROOM: usize = 32_768;

/// Bytes that were read and not yet given, seen as their list.
#[derive(Drop)]
pub struct Ahead {
    from: usize,
    until: usize,
    bytes: [u8; ROOM],
}

impl Model for Ahead {
    ghost Value = { List ℕ };

    ghost view = { λ a. drop a.from (take a.until a.bytes) };

    ghost invariant = { λ a. (a.from ≤ a.until) × (a.until ≤ 32768) };
}

impl Ahead {
    /// No bytes.
    pub fn new() -> Ahead
        ensures { result ≡ [] }
    {
        Ahead {
            from: 0,
            until: 0,
            bytes: [0; ROOM],
        }
    }

    pub fn is_empty(&self) -> bool
        ensures { IsTrue result ↔ (length self.now ≡ 0) }
    {
        self.from == self.until
    }

    /// Reads once from the file, in place of the bytes that it has.
    pub fn fill<F: Read>(&mut self, file: &mut F) -> Result<(), Failed>
        ensures read { OnOk result (Consumes (F.remaining file.old) (F.remaining file.new) self.new) }
        ensures err { OnErr result (Keeps (F.remaining file.old) (F.remaining file.new)) }
    {
        self.from = 0;
        self.until = 0;
        let Ok(count) = file.read(&mut self.bytes) else {
            return Err(Failed);
        };
        self.until = count;
        Ok(())
    }

    /// Gives the first of its bytes, as many as there are and fit, and says how many.
    pub fn give(&mut self, buf: &mut [u8]) -> usize
        ensures count { result ≡ min (length self.old) (length buf.old) }
        ensures given { take result buf.new ≡ take result self.old }
        ensures left { self.new ≡ drop result self.old }
    {
        let count = (self.until - self.from).min(buf.len());
        copy_from(&self.bytes, self.from, count, buf);
        self.from += count;
        count
    }
}
