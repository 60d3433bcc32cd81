//! Where and why a capture ends.

/// What is wrong where a capture is bad.
#[derive(Clone, Copy, Debug, PartialEq, Eq)]
pub enum CaptureKind {
    /// The file has fewer bytes than a file header.
    HeaderCut,
    /// The first four bytes are no magic that is read.
    Magic,
    /// The version isn't 2.4.
    Version,
    /// The link type isn't Ethernet.
    LinkType,
    /// The file ends within a record.
    RecordCut,
    /// A record says that it is longer than a record may be.
    RecordLength,
}

/// Why a capture gives no further frame. A place counts the bytes of the file in front of it.
#[derive(Clone, Copy, Debug, PartialEq, Eq)]
pub enum Stop {
    End,
    Bad { place: u64, kind: CaptureKind },
    Large { place: u64 },
}
