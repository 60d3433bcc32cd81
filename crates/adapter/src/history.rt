//! The list of entries.
ghost use Rattle.std.specs.Prelude.{◌≡◌, ◌+◌, ◌<◌, ◌≤◌, ◌^◌, [], ◌∷◌, ◌++◌, true, length, slice_get, Some, IfSome, OnOk, OnErr, is_ok};
ghost use Rattle.flow_calls.specs.declared.entry.Entry.TheVariants.{Passed};
ghost use Rattle.adapter.specs.Kept.{entry_kept};
ghost use Rattle.adapter.specs.KeptHistory.{IsReady, IsReadyForLine};
ghost use Rattle.adapter.specs.KeptLine.{IsLineOf};
ghost use Rattle.adapter.specs.Seen.{entry_of};
ghost use Rattle.adapter.specs.Spare.{no_spare, TakesFrames, TakesLine, Widens};

use crate::kept::{Kept, Long, fill_stock, keep_frame, keep_in_stock, show, show_line};
use crate::line::LineView;
use crate::spare::Spare;
use flow_actions::Verdict;
use flow_calls::{Caller, EntryView, Parcel};
use std::alloc::{AllocError, Global};
use std::marker::Model;

/// The most entries of a history, with those that are spare.
const MAX_ENTRIES: u64 = 4_294_967_296;

#[derive(Drop)]
pub(crate) struct History {
    alloc: Global,
    items: Vec<Kept>,
    spare: Spare,
    /// A box for each frame that is spare, as it may not be of the usual kind.
    stock: Vec<Box<Long>>,
}

impl Model for History {
    ghost use Rattle.adapter.specs.KeptHistory.{KeptHistory};

    ghost Value = { KeptHistory };

    ghost use Rattle.adapter.specs.HistoryInside.{history_kept, HasSpare};

    ghost view = { history_kept };

    ghost invariant = { HasSpare };
}

impl History {
    pub(crate) fn new(alloc: Global) -> History
        ensures entries { result.entries ≡ [] }
        ensures spare { result.spare ≡ no_spare }
    {
        History {
            alloc,
            items: Vec::new(alloc),
            spare: Spare {
                lines: 0,
                frames: 0,
            },
            stock: Vec::new(alloc),
        }
    }

    pub(crate) fn len(&self) -> usize
        ensures number { result ≡ length self.now.entries }
        ensures ready { IsReady 0 self.now }
    {
        self.items.len()
    }

    pub(crate) fn spare(&self) -> Spare
        ensures spare { result ≡ self.now.spare }
        ensures ready { IsReady 0 self.now }
    {
        self.spare
    }

    /// Takes memory ahead for at least so many lines and frames.
    pub(crate) fn reserve(&mut self, lines: u32, frames: u32) -> Result<(), AllocError>
        ensures same { self.new.entries ≡ self.old.entries }
        ensures ok { OnOk result (Widens lines frames self.old.spare self.new.spare) }
        ensures err { OnErr result (self.new.spare ≡ self.old.spare) }
    {
        let lines = self.spare.lines.max(lines as u64);
        let frames = self.spare.frames.max(frames as u64);
        let more = lines - self.spare.lines + (frames - self.spare.frames);
        self.make_room(more)?;
        fill_stock(self.alloc, &mut self.stock, frames)?;
        self.spare = Spare { lines, frames };
        Ok(())
    }

    /// Takes memory for so many entries beside those that are spare.
    pub(crate) fn make_room(&mut self, more: u64) -> Result<(), AllocError>
        ensures entries { self.new.entries ≡ self.old.entries }
        ensures spare { self.new.spare ≡ self.old.spare }
        ensures ready { OnOk result (IsReady more self.new) }
    {
        let spare = self.spare.lines + self.spare.frames;
        if more > MAX_ENTRIES - self.items.len() as u64 - spare {
            return Err(AllocError);
        }
        self.items.reserve((spare + more) as usize)
    }

    /// Takes memory for the entry of a line, where none is spare.
    pub(crate) fn make_room_for_line(&mut self) -> Result<(), AllocError>
        ensures entries { self.new.entries ≡ self.old.entries }
        ensures spare { self.new.spare ≡ self.old.spare }
        ensures ready { OnOk result (IsReadyForLine self.new) }
    {
        if self.spare.lines > 0 {
            return Ok(());
        }
        self.make_room(1)
    }

    /// Adds the entry of a line.
    pub(crate) fn add_line(&mut self, kept: Kept)
        requires { IsReadyForLine self.old }
        ensures entries { self.new.entries ≡ self.old.entries ++ entry_kept kept ∷ [] }
        ensures spare { TakesLine self.old.spare self.new.spare }
    {
        self.items.push_reserved(kept);
        self.spare.lines = self.spare.lines.saturating_sub(1);
    }

    /// Adds an entry that memory was taken for beside what is spare.
    pub(crate) fn add(&mut self, kept: Kept)
        requires { IsReady 1 self.old }
        ensures entries { self.new.entries ≡ self.old.entries ++ entry_kept kept ∷ [] }
        ensures spare { self.new.spare ≡ self.old.spare }
        ensures room { self.new.room + 1 ≡ self.old.room }
    {
        self.items.push_reserved(kept);
    }

    pub(crate) fn add_frame(
        &mut self,
        caller: Caller,
        parcel: &Parcel,
        verdict: &Verdict,
    ) -> Result<(), AllocError>
        ensures ok { OnOk result (self.new.entries ≡ self.old.entries ++ Passed caller parcel.now verdict.now ∷ []) }
        ensures short { OnOk result (length self.old.entries < 2 ^ 32) }
        ensures spare { OnOk result (TakesFrames 1 self.old.spare self.new.spare) }
        ensures err { OnErr result (self.new.entries ≡ self.old.entries) }
        ensures kept { OnErr result (self.new.spare ≡ self.old.spare) }
        ensures ready { 1 ≤ self.old.spare.frames → is_ok result ≡ true }
    {
        if self.spare.frames > 0 {
            self.add_spare_frame(caller, parcel, verdict);
            return Ok(());
        }
        self.make_room(1)?;
        let kept = keep_frame(self.alloc, caller, parcel, verdict)?;
        self.add(kept);
        Ok(())
    }

    /// Adds the entry of a frame that is spare.
    fn add_spare_frame(&mut self, caller: Caller, parcel: &Parcel, verdict: &Verdict)
        requires { 1 ≤ self.old.spare.frames }
        ensures entries { self.new.entries ≡ self.old.entries ++ Passed caller parcel.now verdict.now ∷ [] }
        ensures short { length self.old.entries < 2 ^ 32 }
        ensures spare { TakesFrames 1 self.old.spare self.new.spare }
    {
        let kept = keep_in_stock(&mut self.stock, caller, parcel, verdict);
        self.items.push_reserved(kept);
        self.spare.frames -= 1;
    }

    pub(crate) fn entry(&self, place: usize) -> EntryView<'_>
        requires { place < length self.now.entries }
        ensures { slice_get self.now.entries place ≡ Some (entry_of result) }
    {
        show(&self.items[place])
    }

    #[inline]
    pub(crate) fn line(&self, place: usize) -> LineView<'_>
        requires { place < length self.now.entries }
        ensures { IfSome (slice_get self.now.entries place) (IsLineOf result) }
    {
        show_line(&self.items[place])
    }
}
