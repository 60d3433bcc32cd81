//! Real files and standard output.
ghost use Rattle.std.specs.Prelude.{◌≡◌, false, IsTrue};
ghost use Rattle.io_edges.specs.declared.shelf.Slot.TheVariants.{Script};
ghost use Rattle.io_edges.specs.ShelfState.{ShelfState};

use crate::edges::{Given, gives};
use io_edges::{FileShelf, Shelf, Sink, Slot, SlotSource, StdSink};
use std::fs;
use std::process::{self, Abort};
use std::test::Fail;

/// Writes a file by a shelf, and opens it to read.
fn write_and_open<S: Shelf>(rt: &impl Abort, shelf: &mut S, name: &str)
    requires write { IsTrue ((S.state shelf.old).allows_write name.now) }
    requires read { IsTrue ((S.state shelf.old).allows_read Script name.now) }
    requires write_once { (S.state shelf.old).written.asked ≡ false }
    requires read_once { (S.state shelf.old).script.asked ≡ false }
{
    assert!(rt; shelf.open_write(name).is_ok());
    assert_eq!(rt; shelf.write(b"hello"), Ok(5));
    assert!(rt; shelf.open_read(Slot::Script, name).is_ok());
    let rows: [Given; 3] = [(Ok(3), b"hel"), (Ok(2), b"lol"), (Ok(0), b"lol")];
    gives(rt, &mut SlotSource::new(shelf, Slot::Script), &rows);
}

#[test]
fn a_written_file_is_read_again(rt: HostRuntime) -> Result<(), Fail> {
    let name = format!(in rt.alloc(); "/tmp/edge_tests_{}", process::id(rt.process()))?;
    write_and_open(&rt, &mut FileShelf::new(&rt), name.as_str());
    fs::remove_file(&rt, name.as_str())?;
    assert!(rt;
        FileShelf::new(&rt)
            .open_read(Slot::Capture, name.as_str())
            .is_err()
    );
    Ok(())
}

#[test]
fn standard_output_takes_bytes(rt: HostRuntime) {
    let mut sink = StdSink::new(&rt);
    assert_eq!(rt; sink.write(b"taken\n"), Ok(6));
}
