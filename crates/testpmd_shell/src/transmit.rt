//! How the transmit file is written.
ghost use Rattle.std.specs.Prelude.{◌≡◌, ◌++◌, true};
ghost use Rattle.io_edges.specs.Gather.{gather_of};
ghost use Rattle.io_edges.specs.Lent.{KeepsWritten};
ghost use Rattle.io_edges.specs.Prints.{Prints, Ends, start_of};
ghost use Rattle.capture_files.specs.Writing.{header_bytes};
ghost use Rattle.testpmd_shell.specs.Sending.{records_of};

use capture_files::{print_frame, print_header};
use io_edges::{Page, Shelf, ShelfSink, Sink, WriteFault, finish};
use running_phase::FrameCopy;

/// Prints the records of frames.
fn print_records<K: Sink>(sink: &mut K, page: &mut Page, kept: &[FrameCopy])
    ensures prints { Prints (gather_of K.taken K.faults sink.old page.old)
        (gather_of K.taken K.faults sink.new page.new) (records_of kept.now) }
    ensures keeps { K.keeps sink.old sink.new }
{
    for place in 0..kept.len() {
        let sent = &kept[place];
        print_frame(sink, page, sent.stamp, sent.wire_len, &sent.bytes);
    }
}

/// Writes a file of these frames.
fn write_file<K: Sink>(sink: &mut K, kept: &[FrameCopy]) -> Result<(), WriteFault>
    ensures ends { Ends (start_of K.taken K.faults sink.old) (K.taken sink.new) (K.faults sink.new)
        (header_bytes ++ records_of kept.now) result }
    ensures keeps { K.keeps sink.old sink.new }
{
    let mut page = Page::new();
    print_header(sink, &mut page);
    print_records(sink, &mut page, kept);
    finish(sink, page)
}

/// Writes the transmit file, of these frames.
pub(crate) fn write_sent<S: Shelf>(shelf: &mut S, kept: &[FrameCopy]) -> Result<(), WriteFault>
    requires opened { (S.state shelf.old).written.opened ≡ true }
    ensures ends { Ends (record { taken = (S.state shelf.old).written.taken; faults = (S.state shelf.old).written.faults })
        (S.state shelf.new).written.taken (S.state shelf.new).written.faults (header_bytes ++ records_of kept.now) result }
    ensures keeps { KeepsWritten (S.state shelf.old) (S.state shelf.new) }
{
    let mut sink = ShelfSink::new(shelf);
    write_file(&mut sink, kept)
}
