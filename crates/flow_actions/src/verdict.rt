//! What becomes of a frame.
ghost use Rattle.std.specs.Prelude.{◌≡◌};

use arrayvec::ArrayVec;
use std::alloc::AllocError;

/// Where a frame ends.
#[derive(Clone, Copy, Debug, Default, PartialEq, Eq)]
pub enum Fate {
    /// It is delivered to this Rx queue.
    Queue(u8),
    /// It is dropped.
    #[default]
    Drop,
}

/// The most rules on a frame's way: one of each of the 16 groups.
pub const MAX_PATH: usize = 16;

/// The verdict on a frame: its fate, the mark and the RSS hash where it has them, and the ids of the rules on its way.
#[derive(Default, Drop)]
pub struct Verdict {
    pub fate: Fate,
    pub mark: Option<u32>,
    pub hash: Option<u32>,
    pub path: ArrayVec<u32, MAX_PATH>,
}

impl Clone for Verdict {
    ghost is_clone = { λ v w. w ≡ v };

    fn clone(&self) -> Result<Verdict, AllocError> {
        let path = self.path.clone()?;
        let fate = self.fate;
        let mark = self.mark;
        let hash = self.hash;
        Ok(Verdict {
            fate,
            mark,
            hash,
            path,
        })
    }
}
