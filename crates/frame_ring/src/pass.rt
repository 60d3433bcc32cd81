//! One caller's right to use a ring, and the list in which passes are handed out.
ghost use Rattle.std.specs.Prelude.{◌≡◌, ◌++◌, ◌↔◌, [], ◌∷◌, length, IsNone, IsErr, OnOk, IfErr, option_to_list};
ghost use Rattle.frame_ring.specs.Passes.{passes_in, limit_of, gathered};

use crate::buffer::Buffer;
use crate::view::{FreeView, RingView};
use crossbeam_queue::Pass;

/// One caller's pass to a ring. It may go to another thread, and makes the calls there. Threads may
/// also share it by reference.
#[derive(Drop)]
pub struct RingPass {
    pub(crate) ring: Pass<Buffer, RingView>,
    pub(crate) free: Pass<Buffer, FreeView>,
    pub(crate) number: u32,
}

// The queues' passes are `Send` alone. That sharing is fine too is proved in
// proofs/SharedPasses.antt, and each function that shares a pass or a list of passes cites it.
unsafe impl Sync for RingPass {}

/// All passes of a ring in one, with the account of each.
#[derive(Drop)]
pub struct Gathered {
    pub(crate) ring: Pass<Buffer, RingView>,
    pub(crate) free: Pass<Buffer, FreeView>,
}

unsafe impl Sync for Gathered {}

/// Passes of one ring. It holds at most as many as it was made with. Once it was handed to `drain`
/// it keeps the account of each pass and serves `drain` alone.
#[derive(Drop)]
pub struct RingPasses {
    pub(crate) items: Vec<RingPass>,
    pub(crate) gathered: Option<Gathered>,
}

impl RingPasses {
    /// Takes the last pass.
    pub fn pop(&mut self) -> Option<RingPass>
        ensures empty { IsNone result ↔ (passes_in self.old ≡ []) }
        ensures last { passes_in self.old ≡ passes_in self.new ++ option_to_list result }
        ensures limit { limit_of self.new ≡ limit_of self.old }
        ensures gathered { gathered self.new ≡ gathered self.old }
    {
        self.items.pop()
    }

    /// Puts a pass behind the others, or hands it back where the list is full.
    pub fn push(&mut self, pass: RingPass) -> Result<(), RingPass>
        ensures full { IsErr result ↔ (length (passes_in self.old) ≡ limit_of self.old) }
        ensures ok { OnOk result (passes_in self.new ≡ passes_in self.old ++ pass ∷ []) }
        ensures err { IfErr result (λ refused. (refused ≡ pass) × (passes_in self.new ≡ passes_in self.old)) }
        ensures limit { limit_of self.new ≡ limit_of self.old }
        ensures gathered { gathered self.new ≡ gathered self.old }
    {
        if self.items.len() == self.items.capacity() {
            return Err(pass);
        }
        self.items.push_reserved(pass);
        Ok(())
    }
}
