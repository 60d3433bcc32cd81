//! Room that was taken ahead.

/// For how many lines and how many frames room was taken ahead: so many entries can come without memory for the history.
#[derive(Clone, Copy, Debug, PartialEq, Eq)]
pub struct Spare {
    pub lines: u64,
    pub frames: u64,
}
