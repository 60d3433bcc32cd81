//! Sources and sinks: where bytes come from and go to, with the meaning that every object of this crate meets.
ghost use Rattle.std.specs.Prelude.{◌≡◌, ℕ, ◌<◌, List, Option, length};
ghost use Rattle.io_edges.specs.Edge.{Reads, Writes};
ghost use Rattle.io_edges.specs.Faults.{HasCause};

/// A call on an edge failed. It gave and took nothing, and the count of faults rose.
#[derive(Clone, Copy, Debug, PartialEq, Eq)]
pub struct Failed;

/// Where bytes are read from.
///
/// Contracts see of a source the bytes that it has `left`, where it can tell them, and its count of `faults`, which
/// never falls and ends at 2^64 - 1. Whether the bytes are told never changes. `keeps` says what a source that borrows
/// leaves alone, so that its lender is known again behind the loan.
pub trait Source {
    ghost left: { Self → Option (List ℕ) };

    ghost faults: { Self → ℕ };

    ghost keeps: { Self → Self → Type 0 };

    /// Reads the first of the bytes left into the front of `buf` and says how many. `Ok(0)` is the end of the input.
    fn read(&mut self, buf: &mut [u8]) -> Result<usize, Failed>
        requires { 0 < length buf.old }
        ensures reads { Reads (left self.old) (left self.new) result buf.new }
        ensures cause { HasCause (faults self.old) (faults self.new) result }
        ensures keeps { keeps self.old self.new };

    ghost keeps_none: { (s : Self) → keeps s s };

    ghost keeps_more: { (s t u : Self) → keeps s t → keeps t u → keeps s u };
}

/// Where bytes are written to.
///
/// Contracts see of a sink the bytes that it has `taken`, where it can tell them, and its count of `faults`, as of a
/// [`Source`].
pub trait Sink {
    ghost taken: { Self → Option (List ℕ) };

    ghost faults: { Self → ℕ };

    ghost keeps: { Self → Self → Type 0 };

    /// Takes the first bytes of `piece`, at least one, and says how many.
    fn write(&mut self, piece: &[u8]) -> Result<usize, Failed>
        requires { 0 < length piece.now }
        ensures writes { Writes (taken self.old) (taken self.new) result piece.now }
        ensures cause { HasCause (faults self.old) (faults self.new) result }
        ensures keeps { keeps self.old self.new };

    ghost keeps_none: { (s : Self) → keeps s s };

    ghost keeps_more: { (s t u : Self) → keeps s t → keeps t u → keeps s u };
}
