//! Sources and sinks in memory.
ghost use Rattle.std.specs.Prelude.{◌<◌};

use io_edges::{Failed, MemSink, MemSource, Sink, Source};
use std::process::Abort;
use std::test::Fail;

/// What a read answers, and the front of the buffer behind it.
pub type Given = (Result<usize, Failed>, &'static [u8]);

/// Reads once a row, into three bytes.
pub fn gives<S: Source>(rt: &impl Abort, source: &mut S, rows: &[Given])
    ensures { S.keeps source.old source.new }
{
    let mut buf = [0u8; 3];
    for (answer, bytes) in rows {
        assert_eq!(rt; source.read(&mut buf), *answer, "{bytes:?}");
        assert!(rt; buf.starts_with(bytes), "{bytes:?}");
    }
}

/// A piece, and what its write answers.
pub type Taken = (&'static [u8], Result<usize, Failed>);

/// Writes once a row.
pub fn takes<K: Sink>(rt: &impl Abort, sink: &mut K, rows: &[Taken]) {
    for (piece, answer) in rows {
        assert!(rt; !piece.is_empty());
        assert_eq!(rt; sink.write(piece), *answer, "{piece:?}");
    }
}

#[test]
fn a_source_gives_chunks_and_fails_once(rt: HostRuntime) -> Result<(), Fail> {
    let bytes = b"hello".to_vec(rt.alloc())?;
    let rows: [Given; 5] = [
        (Ok(2), b"he"),
        (Ok(1), b"l"),
        (Err(Failed), b""),
        (Ok(2), b"lo"),
        (Ok(0), b""),
    ];
    gives(&rt, &mut MemSource::new(bytes, 2, Some(3)), &rows);
    Ok(())
}

#[test]
fn a_sink_fails_once_and_then_where_it_is_full(rt: HostRuntime) -> Result<(), Fail> {
    let mut sink = MemSink::new(rt.alloc(), 4, Some(2))?;
    let rows: [Taken; 5] = [
        (b"abc", Ok(2)),
        (b"c", Err(Failed)),
        (b"cde", Ok(2)),
        (b"e", Err(Failed)),
        (b"e", Err(Failed)),
    ];
    takes(&rt, &mut sink, &rows);
    assert_eq!(rt; sink.taken(), b"abcd".as_slice());
    Ok(())
}
