//! The shelf of real files.
ghost use Rattle.std.specs.Prelude.{◌≡◌, ◌<◌, true, false, length, is_some, is_ok, None};
ghost use Rattle.io_edges.specs.Faults.{HasCause};
ghost use Rattle.io_edges.specs.ShelfState.{ShelfState, OpensSlot, ReadsSlot, OpensWritten, WritesFile};

use crate::ahead::Ahead;
use crate::edge::Failed;
use crate::plan::count_one_more;
use crate::shelf::{Shelf, Slot};
use std::fs;
use std::io::{self, Read, Write};
use std::rt::Files;

/// One of the files that are read: whether it was asked for, the open file with what was read ahead, and its faults.
#[derive(Drop)]
struct Kept<F> {
    asked: bool,
    file: Option<F>,
    faults: u64,
    ahead: Ahead,
}

impl<F: Read + Drop> Kept<F> {
    ghost use Rattle.io_edges.specs.Kept.{kept_state};

    fn new() -> Kept<F>
        ensures { kept_state result ≡ record { asked = false; opened = false; given = None; left = None; faults = 0 } }
    {
        Kept {
            asked: false,
            file: None,
            faults: 0,
            ahead: Ahead::new(),
        }
    }

    /// Keeps the file, if its opening succeeded, and else counts it as failed.
    fn keep(&mut self, opened: io::Result<F>, open_faults: &mut u64) -> Result<(), Failed>
        ensures answer { is_ok result ≡ is_ok opened }
        ensures slot { OpensSlot None (kept_state self.old) (kept_state self.new) result }
        ensures cause { HasCause open_faults.old open_faults.new result }
    {
        self.asked = true;
        match opened {
            Ok(file) => {
                self.file = Some(file);
                Ok(())
            }
            Err(_) => {
                self.file = None;
                *open_faults = count_one_more(*open_faults);
                Err(Failed)
            }
        }
    }

    /// Gives what was read ahead, and reads anew only where nothing is left of it.
    fn read(&mut self, buf: &mut [u8]) -> Result<usize, Failed>
        requires opened { is_some self.old.file ≡ true }
        requires room { 0 < length buf.old }
        ensures { ReadsSlot (kept_state self.old) (kept_state self.new) result buf.new }
    {
        let Some(file) = &mut self.file else {
            unreachable!();
        };
        if self.ahead.is_empty() && self.ahead.fill(file).is_err() {
            self.faults = count_one_more(self.faults);
            return Err(Failed);
        }
        Ok(self.ahead.give(buf))
    }
}

/// The file that is written.
#[derive(Drop)]
struct KeptWritten<F> {
    asked: bool,
    file: Option<F>,
    open_faults: u64,
    faults: u64,
}

impl<F: Write + Drop> KeptWritten<F> {
    ghost use Rattle.io_edges.specs.Kept.{written_state};

    fn new() -> KeptWritten<F>
        ensures { written_state result ≡ record { asked = false; opened = false; taken = None; open_faults = 0; faults = 0 } }
    {
        KeptWritten {
            asked: false,
            file: None,
            open_faults: 0,
            faults: 0,
        }
    }

    /// Keeps the file, if its opening succeeded, and else counts it as failed.
    fn keep(&mut self, opened: io::Result<F>) -> Result<(), Failed>
        ensures answer { is_ok result ≡ is_ok opened }
        ensures file { OpensWritten (written_state self.old) (written_state self.new) result }
        ensures cause { HasCause self.old.open_faults self.new.open_faults result }
    {
        self.asked = true;
        match opened {
            Ok(file) => {
                self.file = Some(file);
                Ok(())
            }
            Err(_) => {
                self.file = None;
                self.open_faults = count_one_more(self.open_faults);
                Err(Failed)
            }
        }
    }

    /// Writes once. A write that takes nothing is a fault.
    fn write(&mut self, piece: &[u8]) -> Result<usize, Failed>
        requires { is_some self.old.file ≡ true }
        ensures { WritesFile (written_state self.old) (written_state self.new) result piece.now }
    {
        let Some(file) = &mut self.file else {
            unreachable!();
        };
        match file.write(piece) {
            Ok(count) if count > 0 => Ok(count),
            _ => {
                self.faults = count_one_more(self.faults);
                Err(Failed)
            }
        }
    }
}

/// Real files. They allow every name and tell no bytes.
///
/// What is read goes through a buffer for each slot, which the shelf itself holds.
#[derive(Drop)]
pub struct FileShelf<R: Files + Drop> {
    rt: R,
    script: Kept<R::File>,
    capture: Kept<R::File>,
    open_faults: u64,
    written: KeptWritten<R::File>,
}

impl<R: Files + Drop> FileShelf<R> {
    ghost use Rattle.io_edges.specs.Kept.{unasked_files};

    /// A shelf of which nothing was asked for.
    pub fn new(rt: R) -> FileShelf<R>
        ensures { ⟦<FileShelf<R> as Shelf>⟧.state result ≡ unasked_files }
    {
        FileShelf {
            rt,
            script: Kept::new(),
            capture: Kept::new(),
            open_faults: 0,
            written: KeptWritten::new(),
        }
    }
}

impl<R: Files + Drop> Shelf for FileShelf<R> {
    ghost use Rattle.io_edges.specs.Kept.{kept_state, written_state, untold_state};

    ghost state = { λ s. untold_state (kept_state s.script) (kept_state s.capture) s.open_faults (written_state s.written) };

    fn open_read(&mut self, slot: Slot, name: &str) -> Result<(), Failed> {
        let opened = fs::open(&self.rt, name);
        match slot {
            Slot::Script => self.script.keep(opened, &mut self.open_faults),
            Slot::Capture => self.capture.keep(opened, &mut self.open_faults),
        }
    }

    fn read(&mut self, slot: Slot, buf: &mut [u8]) -> Result<usize, Failed> {
        match slot {
            Slot::Script => self.script.read(buf),
            Slot::Capture => self.capture.read(buf),
        }
    }

    fn open_write(&mut self, name: &str) -> Result<(), Failed> {
        self.written.keep(fs::create(&self.rt, name))
    }

    fn write(&mut self, piece: &[u8]) -> Result<usize, Failed> {
        self.written.write(piece)
    }
}
