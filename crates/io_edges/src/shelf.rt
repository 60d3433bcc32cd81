//! A shelf: the named files of one run, two to read and one to write.
ghost use Rattle.std.specs.Prelude.{◌≡◌, ◌<◌, true, false, IsTrue, length};
ghost use Rattle.io_edges.specs.ShelfState.{ShelfState, slot_of, OpensRead, ReadsShelf, OpensWrite, WritesShelf};

use crate::edge::Failed;

/// Which of the files that are read.
#[derive(Clone, Copy, Debug, PartialEq, Eq)]
pub enum Slot {
    Script,
    Capture,
}

/// Named files: each slot and the written file is opened once, by a name that the shelf allows for it.
///
/// Contracts see a shelf as one record, its `state`. Each call changes in it what the call's clause names, and nothing
/// else; so no call changes the bytes of a name, what is allowed, or whether bytes are told.
pub trait Shelf {
    ghost state: { Self → ShelfState };

    /// Opens the file of that name for reading, from its first byte on.
    fn open_read(&mut self, slot: Slot, name: &str) -> Result<(), Failed>
        requires allowed { IsTrue ((state self.old).allows_read slot name.now) }
        requires once { (slot_of slot (state self.old)).asked ≡ false }
        ensures { OpensRead (state self.old) (state self.new) slot name.now result };

    /// Reads as [`Source::read`](crate::Source::read) does.
    fn read(&mut self, slot: Slot, buf: &mut [u8]) -> Result<usize, Failed>
        requires opened { (slot_of slot (state self.old)).opened ≡ true }
        requires room { 0 < length buf.old }
        ensures { ReadsShelf (state self.old) (state self.new) slot result buf.new };

    /// Opens the file of that name for writing. It is empty then.
    fn open_write(&mut self, name: &str) -> Result<(), Failed>
        requires allowed { IsTrue ((state self.old).allows_write name.now) }
        requires once { (state self.old).written.asked ≡ false }
        ensures { OpensWrite (state self.old) (state self.new) result };

    /// Writes as [`Sink::write`](crate::Sink::write) does.
    fn write(&mut self, piece: &[u8]) -> Result<usize, Failed>
        requires opened { (state self.old).written.opened ≡ true }
        requires some_byte { 0 < length piece.now }
        ensures { WritesShelf (state self.old) (state self.new) result piece.now };
}
