//! Reading a source to its end.
ghost use Rattle.std.specs.Prelude.{◌≡◌, ◌≤◌, length, is_some, IfOk, IfErr, OnOk};
ghost use Rattle.std.specs.Io.KnownBytes.{Consumes, IsAtEnd};
ghost use Rattle.io_edges.specs.ReadAll.{IsWhyNotAll};

use crate::edge::Source;
use std::alloc::{AllocError, Global};

/// Why not all bytes of a source were read.
#[derive(Clone, Copy, Debug, PartialEq, Eq)]
pub enum ReadAll {
    /// The source failed.
    ReadFault,
    /// More bytes were read than the limit allows.
    TooLarge,
    NoMemory,
}

impl From<AllocError> for ReadAll {
    ghost use Rattle.io_edges.specs.declared.to_end.ReadAll.{ReadAll};
    ghost use Rattle.io_edges.specs.declared.to_end.ReadAll.TheVariants.{NoMemory};

    ghost from_gives = { λ _ e. e ≡ NoMemory };

    fn from(_error: AllocError) -> ReadAll {
        ReadAll::NoMemory
    }
}

/// How many bytes are asked for at once.
const PIECE: usize = 4096;

/// Reads a source to its end, and gives all of its bytes, of which there may be `limit`.
pub fn read_all<S: Source>(alloc: Global, source: &mut S, limit: usize) -> Result<Vec<u8>, ReadAll>
    ensures bytes { IfOk result (λ bytes. Consumes (S.left source.old) (S.left source.new) bytes.items) }
    ensures end { OnOk result (IsAtEnd (S.left source.new)) }
    ensures within { IfOk result (λ bytes. length bytes.items ≤ limit) }
    ensures calm { OnOk result (S.faults source.new ≡ S.faults source.old) }
    ensures refused { IfErr result (λ why. IsWhyNotAll (S.left source.old) (S.left source.new) (S.faults source.old) (S.faults source.new) limit why) }
    ensures later { S.faults source.old ≤ S.faults source.new }
    ensures told { is_some (S.left source.new) ≡ is_some (S.left source.old) }
    ensures keeps { S.keeps source.old source.new }
{
    let mut bytes = Vec::new(alloc);
    let mut buffer = [0u8; PIECE];
    loop {
        let Ok(count) = source.read(&mut buffer) else {
            return Err(ReadAll::ReadFault);
        };
        if count == 0 {
            return Ok(bytes);
        }
        if count > limit - bytes.len() {
            return Err(ReadAll::TooLarge);
        }
        bytes.extend_from_slice(&buffer[..count])?;
    }
}
