//! Writing a text whole.
ghost use Rattle.std.specs.Prelude.{◌≡◌, OnOk, IfErr, is_some};
ghost use Rattle.std.specs.Io.KnownBytes.{Appends};
ghost use Rattle.io_edges.specs.Faults.{HasCause};
ghost use Rattle.io_edges.specs.Front.{TakesFront};

use crate::edge::{Failed, Sink};

/// A text wasn't written whole: a write failed, and the sink had taken just its first `sent` bytes.
#[derive(Clone, Copy, Debug, PartialEq, Eq)]
pub struct WriteFault {
    pub sent: usize,
}

/// Writes all of `bytes`, by as many writes as it takes.
pub fn write_all<K: Sink>(sink: &mut K, bytes: &[u8]) -> Result<(), WriteFault>
    ensures whole { OnOk result (Appends (K.taken sink.old) (K.taken sink.new) bytes.now) }
    ensures front { IfErr result (λ fault. TakesFront (K.taken sink.old) (K.taken sink.new) bytes.now fault.sent) }
    ensures cause { HasCause (K.faults sink.old) (K.faults sink.new) result }
    ensures told { is_some (K.taken sink.new) ≡ is_some (K.taken sink.old) }
    ensures keeps { K.keeps sink.old sink.new }
{
    let mut sent = 0;
    while sent < bytes.len() {
        match sink.write(&bytes[sent..]) {
            Ok(taken) => sent += taken,
            Err(Failed) => return Err(WriteFault { sent }),
        }
    }
    Ok(())
}
