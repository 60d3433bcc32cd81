//! Filling a buffer from a source that may give single bytes.
ghost use Rattle.std.specs.Prelude.{length};
ghost use Rattle.capture_files.specs.Fill.{Fills};

use io_edges::Source;

/// How the filling of a buffer ended.
#[derive(Clone, Copy)]
pub enum Filled {
    /// Each byte of the buffer was given.
    Whole,
    /// The input ended behind the first `got` bytes, fewer than the buffer has.
    Cut { got: usize },
    /// The source failed.
    Fault,
}

/// Reads until `buf` is full, the input ends or the source fails.
pub fn fill<S: Source>(source: &mut S, buf: &mut [u8]) -> Filled
    ensures fills { Fills (S.left source.old) (S.left source.new) (S.faults source.old) (S.faults source.new) result buf.new }
    ensures keeps { S.keeps source.old source.new }
{
    let mut got = 0;
    while got < buf.len() {
        match source.read(&mut buf[got..]) {
            Ok(0) => return Filled::Cut { got },
            Ok(count) => got += count,
            Err(_) => return Filled::Fault,
        }
    }
    Filled::Whole
}
