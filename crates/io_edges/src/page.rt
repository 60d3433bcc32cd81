//! A page of text that waits for its sink.
ghost use Rattle.std.specs.Prelude.{◌≤◌};

/// The bytes that a page holds: so many that the calls of the sink cost nothing beside the text, and few enough for the
/// stack.
pub(crate) const PAGE_SIZE: usize = 16384;

/// What became of the writes of a page: whether one failed, and the number of bytes that the sink took.
#[derive(Clone, Copy)]
pub(crate) struct Sending {
    pub(crate) failed: bool,
    pub(crate) sent: usize,
}

/// A page of text before a sink. It gathers what is printed, so that the sink is called once for a page and not once
/// for a piece.
///
/// Print on a page with one sink only, and end by [`finish`](crate::finish): what waits in a page that is dropped isn't
/// written. After a failed write nothing more is written.
#[derive(Drop)]
pub struct Page {
    pub(crate) buffer: [u8; PAGE_SIZE],
    pub(crate) fill: usize,
    pub(crate) sending: Sending,
    ghost fits: { fill ≤ 16384 },
}

impl Page {
    ghost use Rattle.io_edges.specs.Gather.{IsFresh};

    /// An empty page.
    pub fn new() -> Page
        ensures { IsFresh result }
    {
        let sending = Sending {
            failed: false,
            sent: 0,
        };
        Page {
            buffer: [0; PAGE_SIZE],
            fill: 0,
            sending,
        }
    }
}
