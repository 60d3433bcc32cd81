//! How the capture ended, and the line that tells it.
ghost use Rattle.std.specs.Prelude.{◌≡◌};
ghost use Rattle.io_edges.specs.Gather.{gather_of};
ghost use Rattle.io_edges.specs.Prints.{Prints};
ghost use Rattle.history_text.specs.Endings.{kind_text, ending_text};

use crate::form::print_form;
use capture_files::CaptureKind;
use io_edges::{Page, Sink, print};

/// Whether the capture was read as far as it was asked for, or why not. A place counts the bytes of the file in front of it.
#[derive(Clone, Copy, Debug, PartialEq, Eq)]
pub enum Ending {
    /// All frames that were asked for were there, or the capture had no more.
    Whole,
    /// The capture is bad at a place.
    Bad { place: u64, kind: CaptureKind },
    /// The capture has more frames or bytes than are taken.
    Large { place: u64 },
    /// The capture could not be read.
    ReadFault,
}

/// What is wrong with a capture.
fn kind_words(kind: CaptureKind) -> &'static [u8]
    ensures { result.now ≡ kind_text kind }
{
    match kind {
        CaptureKind::HeaderCut => b"header cut",
        CaptureKind::Magic => b"magic",
        CaptureKind::Version => b"version",
        CaptureKind::LinkType => b"link type",
        CaptureKind::RecordCut => b"record cut",
        CaptureKind::RecordLength => b"record length",
    }
}

pub(crate) fn print_ending<K: Sink>(sink: &mut K, page: &mut Page, ending: Ending)
    ensures { Prints (gather_of K.taken K.faults sink.old page.old)
        (gather_of K.taken K.faults sink.new page.new) (ending_text ending) }
{
    match ending {
        Ending::Whole => {}
        Ending::Bad { place, kind } => {
            let parts: [&[u8]; 3] = [b"capture: bad at byte 0: ", kind_words(kind), b"\n"];
            print_form(sink, page, &parts, &[place as u128]);
        }
        Ending::Large { place } => {
            print_form(
                sink,
                page,
                &[b"capture: too large at byte 0\n"],
                &[place as u128],
            );
        }
        Ending::ReadFault => print(sink, page, b"capture: read fault\n"),
    }
}
