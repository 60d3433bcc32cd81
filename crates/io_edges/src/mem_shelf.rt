//! A shelf in memory, which fails just where it was planned.
ghost use Rattle.std.specs.Prelude.{◌≡◌, ℕ, ◌<◌, ◌≤◌, true, false, List, [], length, map, MatchOption, is_some, is_ok, IfOk, if◌then◌else◌, None, Some};
ghost use Rattle.std.specs.Str.{bytes_eq};
ghost use Rattle.std.specs.String.{string_bytes};
ghost use Rattle.io_edges.specs.MemFiles.{plain, bytes_at, slot_over, SlotFits};
ghost use Rattle.io_edges.specs.MemShelfState.{file_named, slot_state};
ghost use Rattle.io_edges.specs.Plan.{one_more};
ghost use Rattle.io_edges.specs.Reading.{ReadsExactly, reading_of};
ghost use Rattle.io_edges.specs.ShelfState.{ReadsSlot};

use crate::cursor::Cursor;
use crate::edge::{Failed, Sink};
use crate::memory::MemSink;
use crate::plan::count_one_more;
use crate::shelf::{Shelf, Slot};
use std::alloc::{AllocError, Global};
use std::marker::Model;

/// One of the files that are read: whether it was asked for, the place of its file, and the place in that file.
#[derive(Drop)]
struct MemSlot {
    asked: bool,
    file: Option<usize>,
    cursor: Cursor,
}

impl MemSlot {
    /// A slot that wasn't asked for.
    fn new(fail_at: Option<u64>) -> MemSlot
        ensures { result ≡ record { asked = false; file = None; cursor = record { place = 0; fail_at = fail_at; faults = 0 } } }
    {
        MemSlot {
            asked: false,
            file: None,
            cursor: Cursor {
                place: 0,
                fail_at,
                faults: 0,
            },
        }
    }

    /// Opens the file at that place. Where there is none the opening failed, and is counted.
    fn open(&mut self, file: Option<usize>, faults: &mut u64) -> Result<(), Failed>
        ensures slot { self.new ≡ record self.old { asked = true; file = file } }
        ensures answer { is_ok result ≡ is_some file }
        ensures count { faults.new ≡ (if is_some file then faults.old else one_more faults.old) }
    {
        self.asked = true;
        self.file = file;
        if file.is_none() {
            *faults = count_one_more(*faults);
            return Err(Failed);
        }
        Ok(())
    }

    /// Reads on in the bytes of the slot's file.
    fn read(&mut self, bytes: &[u8], buf: &mut [u8]) -> Result<usize, Failed>
        requires within { self.old.cursor.place ≤ length bytes.now }
        requires room { 0 < length buf.old }
        ensures exact { ReadsExactly (reading_of bytes.now self.old.cursor) (reading_of bytes.now self.new.cursor)
            (length buf.old) result buf.new }
        ensures slot { ReadsSlot (slot_state (slot_over bytes.now self.old)) (slot_state (slot_over bytes.now self.new)) result buf.new }
        ensures others { self.new ≡ record self.old { cursor = self.new.cursor } }
        ensures within { self.new.cursor.place ≤ length bytes.now }
    {
        self.cursor.read(bytes, buf.len(), buf)
    }
}

/// The bytes of the file at that place, and none where there is no place.
fn file_bytes(files: &[(String, Vec<u8>)], file: Option<usize>) -> &[u8]
    requires { (place : ℕ) → file ≡ Some place → place < length files.now }
    ensures { result.now ≡ bytes_at (plain files.now) file }
{
    let Some(place) = file else {
        return &[];
    };
    files[place].1.as_slice()
}

/// The place of the first file of that name.
fn find_file(files: &[(String, Vec<u8>)], name: &str) -> Option<usize>
    ensures { MatchOption result (file_named name.now (plain files.now) ≡ None)
        (λ place. (place < length files.now) × (file_named name.now (plain files.now) ≡ Some (bytes_at (plain files.now) (Some place)))) }
{
    for (place, file) in files.iter().enumerate() {
        if file.0.as_str() == name {
            return Some(place);
        }
    }
    None
}

/// The faults of a shelf in memory: the openings that fail, by number from 0, those to read and to write counted in one
/// order; and the places at which reads of the script, reads of the capture and writes fail once, as
/// [`MemSource`](crate::MemSource) and [`MemSink`] do.
#[derive(Drop)]
pub struct FaultPlan {
    pub opens: Vec<u32>,
    pub script_at: Option<u64>,
    pub capture_at: Option<u64>,
    pub tx_at: Option<u64>,
}

/// Named files in memory. Of several with one name the first counts.
///
/// It allows every name and tells all bytes. The written file is kept apart from the named ones. An opening to read
/// fails where it was planned or no file has the name, one to write where it was planned.
#[derive(Drop)]
pub struct MemShelf {
    files: Vec<(String, Vec<u8>)>,
    opens: Vec<u32>,
    script: MemSlot,
    capture: MemSlot,
    open_faults: u64,
    write_asked: bool,
    write_opened: bool,
    write_open_faults: u64,
    sink: MemSink,
}

impl Model for MemShelf {
    ghost use Rattle.io_edges.specs.MemShelfState.{MemShelfState};
    ghost use Rattle.io_edges.specs.MemFiles.{plain, slot_view, SlotFits};

    ghost Value = { MemShelfState };

    ghost view = { λ s. record {
      files = plain s.files.items;
      opens = s.opens.items;
      script = slot_view (plain s.files.items) s.script;
      capture = slot_view (plain s.files.items) s.capture;
      open_faults = s.open_faults;
      write_asked = s.write_asked;
      write_opened = s.write_opened;
      write_open_faults = s.write_open_faults;
      sink = s.sink;
    } };

    ghost invariant = { λ s. SlotFits (plain s.files.items) s.script × SlotFits (plain s.files.items) s.capture };
}

impl MemShelf {
    ghost use Rattle.io_edges.specs.MemShelfState.{MemShelfState, unasked_shelf, opening_fails, opened_bytes};

    /// A shelf of these files, with at most `room` bytes in its written file.
    pub fn new(
        alloc: Global,
        files: Vec<(String, Vec<u8>)>,
        room: usize,
        plan: FaultPlan,
    ) -> Result<MemShelf, AllocError>
        ensures { IfOk result (λ s. s ≡ unasked_shelf (plain files.items) plan.opens.items room plan.script_at plan.capture_at plan.tx_at) }
    {
        let sink = MemSink::new(alloc, room, plan.tx_at)?;
        Ok(MemShelf {
            files,
            opens: plan.opens,
            script: MemSlot::new(plan.script_at),
            capture: MemSlot::new(plan.capture_at),
            open_faults: 0,
            write_asked: false,
            write_opened: false,
            write_open_faults: 0,
            sink,
        })
    }

    /// The bytes that were written.
    pub fn written(&self) -> &[u8]
        ensures { result.now ≡ self.now.sink.taken }
    {
        self.sink.taken()
    }

    /// Whether the next opening was planned to fail.
    fn opening_fails(&self) -> bool
        ensures { result ≡ opening_fails self.now }
    {
        let number = u32::from(self.script.asked)
            + u32::from(self.capture.asked)
            + u32::from(self.write_asked);
        self.opens.contains(&number)
    }

    /// The place of the file that the next opening opens, where it is one to read that name and doesn't fail.
    fn find_opened(&self, name: &str) -> Option<usize>
        ensures { MatchOption result (opened_bytes self.now name.now ≡ None)
            (λ place. (place < length self.now.files) × (opened_bytes self.now name.now ≡ Some (bytes_at self.now.files (Some place)))) }
    {
        if self.opening_fails() {
            return None;
        }
        find_file(&self.files, name)
    }
}

impl Shelf for MemShelf {
    ghost use Rattle.io_edges.specs.MemShelfState.{shelf_state, OpensReadExactly, ReadsSlotExactly, OpensWriteExactly, WritesFileExactly};
    ghost use Rattle.io_edges.specs.ShelfState.{ShelfState, slot_of, OpensRead, ReadsShelf, OpensWrite, WritesShelf};

    ghost state = { shelf_state };

    fn open_read(&mut self, slot: Slot, name: &str) -> Result<(), Failed>
        requires { (slot_of slot (shelf_state self.old)).asked ≡ false }
        ensures exact { OpensReadExactly self.old self.new slot name.now result }
        ensures opens { OpensRead (shelf_state self.old) (shelf_state self.new) slot name.now result }
    {
        let file = self.find_opened(name);
        match slot {
            Slot::Script => self.script.open(file, &mut self.open_faults),
            Slot::Capture => self.capture.open(file, &mut self.open_faults),
        }
    }

    fn read(&mut self, slot: Slot, buf: &mut [u8]) -> Result<usize, Failed>
        requires opened { (slot_of slot (shelf_state self.old)).opened ≡ true }
        requires room { 0 < length buf.old }
        ensures exact { ReadsSlotExactly self.old self.new slot result buf.new }
        ensures reads { ReadsShelf (shelf_state self.old) (shelf_state self.new) slot result buf.new }
    {
        match slot {
            Slot::Script => {
                let file = self.script.file;
                self.script.read(file_bytes(&self.files, file), buf)
            }
            Slot::Capture => {
                let file = self.capture.file;
                self.capture.read(file_bytes(&self.files, file), buf)
            }
        }
    }

    fn open_write(&mut self, _name: &str) -> Result<(), Failed>
        requires { self.old.write_asked ≡ false }
        ensures exact { OpensWriteExactly self.old self.new result }
        ensures opens { OpensWrite (shelf_state self.old) (shelf_state self.new) result }
    {
        let fails = self.opening_fails();
        self.write_asked = true;
        self.write_opened = !fails;
        if fails {
            self.write_open_faults = count_one_more(self.write_open_faults);
            return Err(Failed);
        }
        self.sink.clear();
        Ok(())
    }

    fn write(&mut self, piece: &[u8]) -> Result<usize, Failed>
        requires opened { self.old.write_opened ≡ true }
        requires some_byte { 0 < length piece.now }
        ensures exact { WritesFileExactly self.old self.new result piece.now }
        ensures writes { WritesShelf (shelf_state self.old) (shelf_state self.new) result piece.now }
    {
        self.sink.write(piece)
    }
}
