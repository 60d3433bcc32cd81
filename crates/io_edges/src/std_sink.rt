//! Standard output as a sink.

ghost use Rattle.std.specs.Prelude.{◌≡◌, None};

use crate::edge::{Failed, Sink};
use crate::plan::count_one_more;
use std::io::Print;

/// Standard output, which tells no bytes. A write that takes nothing is a fault.
#[derive(Drop)]
pub struct StdSink<R: Print + Drop> {
    rt: R,
    faults: u64,
}

impl<R: Print + Drop> StdSink<R> {
    pub fn new(rt: R) -> StdSink<R>
        ensures { ⟦<StdSink<R> as Sink>⟧.faults result ≡ 0 }
    {
        StdSink { rt, faults: 0 }
    }
}

impl<R: Print + Drop> Sink for StdSink<R> {
    ghost taken = { λ _. None };

    ghost faults = { λ s. s.faults };

    ghost keeps = { λ _ _. Unit {0} };

    fn write(&mut self, piece: &[u8]) -> Result<usize, Failed> {
        match self.rt.write_some(piece) {
            Ok(count) if count > 0 => Ok(count),
            _ => {
                self.faults = count_one_more(self.faults);
                Err(Failed)
            }
        }
    }

    ghost keeps_none = { λ _. tt };

    ghost keeps_more = { λ _ _ _ _ _. tt };
}
