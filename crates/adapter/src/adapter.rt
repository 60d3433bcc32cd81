//! The adapter: the rules in effect, and the history of all that was asked and of all frames that passed.
ghost use Rattle.std.specs.Prelude.{◌≡◌, ◌+◌, ◌<◌, ◌≤◌, ◌^◌, [], ◌∷◌, ◌++◌, true, length, drop, fold, slice_get, is_ok, All, Some, IfSome, IfOk, OnOk, OnErr};
ghost use Rattle.flow_calls.specs.declared.entry.Entry.TheVariants.{Asked, Passed};
ghost use Rattle.adapter.specs.KeptLine.{IsLineOf};
ghost use Rattle.adapter.specs.Seen.{Enters, Grows, Stays, entry_of};
ghost use Rattle.adapter.specs.Spare.{no_spare, TakesFrames, TakesLine, Widens};

use crate::history::History;
use crate::kept::{copy_of_reply, keep_call};
use crate::line::LineView;
use crate::packed::Packed;
use crate::spare::Spare;
use flow_actions::Verdict;
use flow_calls::{Call, Caller, EntryView, Parcel, Reply, Totals};
use flow_rules::{Change, Limits, classify};
use packet_headers::Key;
use port_state::{ChangeList, Judged, Standing, State, judge};
use std::alloc::{AllocError, Global};
use std::marker::Model;

/// The plain one-thread adapter.
///
/// Contracts see its limits, its history, and for how many more entries room was taken ahead. The history is always legal: each call
/// has the reply, and each frame the verdict, that the entries before it give.
#[derive(Drop)]
pub struct Adapter {
    limits: Limits,
    alloc: Global,
    /// What calls and frames are judged by.
    standing: Standing,
    history: History,
    /// What calls changed for packets.
    changes: ChangeList,
}

impl Model for Adapter {
    ghost use Rattle.adapter.specs.Seen.{Seen};

    ghost Value = { Seen };

    ghost use Rattle.adapter.specs.Sound.{view_of, IsSound};

    ghost view = { view_of };

    ghost invariant = { IsSound };
}

impl Adapter {
    ghost use Rattle.port_state.specs.State.{flows_of, state_of};
    ghost use Rattle.port_state.specs.Changes.{HasFewActions, changes_of, flows_at};
    ghost use Rattle.flow_calls.specs.Totals.{totals_of};
    ghost use Rattle.port_state.specs.Reply.{reply_to};
    ghost use Rattle.adapter.specs.History.{IsFrame, IsLegal};
    ghost use Rattle.flow_rules.specs.Walk.{verdict_of};
    ghost use Rattle.flow_rules.specs.Changes.{changed};
    ghost use Rattle.flow_rules.specs.Lawful.{AreLawful};
    ghost use Rattle.flow_rules.specs.Limits.{AreLimits};

    /// An adapter without rules, whose history is empty.
    pub fn new(alloc: Global, limits: Limits) -> Result<Adapter, AllocError>
        requires { AreLimits limits }
        ensures { IfOk result (λ adapter. adapter ≡ record { limits = limits; history = []; spare = no_spare }) }
    {
        Ok(Adapter {
            limits,
            alloc,
            standing: Standing {
                state: State::new(alloc, &limits),
                totals: Totals {
                    received: 0,
                    dropped: 0,
                    queues: [0; 16],
                },
            },
            history: History::new(alloc),
            changes: ChangeList::new(alloc),
        })
    }

    /// Takes memory ahead, so that there is room for at least so many lines and frames.
    ///
    /// The history has at most 2^32 entries with those that room was taken for; what would pass this is want of memory. Want of memory
    /// leaves the adapter as it was.
    pub fn reserve(&mut self, lines: u32, frames: u32) -> Result<(), AllocError>
        ensures limits { self.new.limits ≡ self.old.limits }
        ensures history { self.new.history ≡ self.old.history }
        ensures spare { OnOk result (Widens lines frames self.old.spare self.new.spare) }
        ensures err { OnErr result (Stays self.old self.new) }
    {
        self.history.reserve(lines, frames)
    }

    /// For how many lines and frames there is room that was taken ahead.
    pub fn spare(&self) -> Spare
        ensures spare { result ≡ self.now.spare }
        ensures short { length self.now.history + result.lines + result.frames ≤ 2 ^ 32 }
    {
        self.history.spare()
    }

    /// Carries out a call of the shell or of an agent, enters it with its reply, and answers the reply.
    ///
    /// Want of memory leaves the adapter as it was.
    pub fn step(&mut self, caller: Caller, call: &Call) -> Result<Reply, AllocError>
        requires { caller.0 ≤ 8 }
        ensures entered { IfOk result (λ reply. Enters self.old self.new (Asked caller call.now reply)) }
        ensures reply { IfOk result (λ reply. reply ≡ reply_to self.old.limits self.old.history call.now.op) }
        ensures spare { OnOk result (TakesLine self.old.spare self.new.spare) }
        ensures err { OnErr result (Stays self.old self.new) }
    {
        let Judged { reply, effect } = judge(self.alloc, &self.limits, &self.standing, &call.op)?;
        let more = self.standing.state.operations(&effect);
        self.standing.state.reserve(more)?;
        self.changes.reserve(more)?;
        self.history.make_room_for_line()?;
        let kept = copy_of_reply(&reply)?;
        let entry = keep_call(self.alloc, caller, call, kept)?;
        self.standing
            .state
            .carry_out(self.alloc, &self.limits, effect, &mut self.changes)?;
        self.history.add_line(entry);
        self.changes.len();
        Ok(reply)
    }

    /// Enters a frame that passed by a packet worker, with the verdict of the rules in effect.
    ///
    /// Where room was taken ahead, this takes no memory. Want of memory leaves the adapter as it was.
    pub fn packet(
        &mut self,
        caller: Caller,
        parcel: &Parcel,
        verdict: &Verdict,
    ) -> Result<(), AllocError>
        requires worker { (9 ≤ caller.0) × (caller.0 ≤ 24) }
        requires verdict { verdict.now ≡ verdict_of (flows_of (state_of self.old.limits self.old.history)) parcel.now.key }
        ensures entered { OnOk result (Enters self.old self.new (Passed caller parcel.now verdict.now)) }
        ensures spare { OnOk result (TakesFrames 1 self.old.spare self.new.spare) }
        ensures ready { 1 ≤ self.old.spare.frames → is_ok result ≡ true }
        ensures err { OnErr result (Stays self.old self.new) }
    {
        self.history.add_frame(caller, parcel, verdict)?;
        self.standing
            .count_frame(verdict.path.as_slice(), verdict.fate, parcel.len);
        Ok(())
    }

    /// Enters frames that passed by packet workers, in order, each with the verdict of the rules in effect.
    ///
    /// Room for all of them is taken first, beside what is spare. So want of memory leaves the adapter as it was, and no entry stays behind.
    pub fn burst(&mut self, frames: Vec<Packed>) -> Result<(), AllocError>
        requires { All (IsFrame self.old.limits self.old.history) frames.items }
        ensures entered { OnOk result (Grows self.old self.new frames.items) }
        ensures spare { self.new.spare ≡ self.old.spare }
        ensures err { OnErr result (Stays self.old self.new) }
    {
        self.history.make_room(frames.len() as u64)?;
        for packed in frames {
            let tally = packed.tally();
            self.standing
                .count_frame(tally.path.as_slice(), tally.fate, tally.bytes);
            self.history.add(packed.into_kept());
        }
        Ok(())
    }

    /// The verdict on a frame of these layers by the rules in effect.
    pub fn verdict(&self, key: &Key) -> Verdict
        ensures { result ≡ verdict_of (flows_of (state_of self.now.limits self.now.history)) key.now }
    {
        classify(&self.standing.state, key)
    }

    /// The number of entries of the history.
    pub fn entries(&self) -> u64
        ensures number { result ≡ length self.now.history }
        ensures short { result ≤ 2 ^ 32 }
        ensures legal { IsLegal self.now.limits self.now.history }
    {
        self.history.len() as u64
    }

    /// The entry at a place of the history, counted from 0.
    pub fn entry(&self, place: u64) -> EntryView<'_>
        requires { place < length self.now.history }
        ensures { slice_get self.now.history place ≡ Some (entry_of result) }
    {
        self.history.entry(place as usize)
    }

    /// What a line tells of the entry at a place of the history, counted from 0.
    #[inline]
    pub fn line(&self, place: u64) -> LineView<'_>
        requires { place < length self.now.history }
        ensures { IfSome (slice_get self.now.history place) (IsLineOf result) }
    {
        self.history.line(place as usize)
    }

    /// The version: how many changes of what packets see the history has made.
    pub fn version(&self) -> u64
        ensures number { result ≡ length (changes_of self.now.limits self.now.history) }
        ensures few { All HasFewActions (changes_of self.now.limits self.now.history) }
    {
        self.changes.len() as u64
    }

    /// The changes from a version on, as a replica at that version wants them: behind them it sees what packets see now.
    pub fn changes_from(&self, version: u64) -> &[Change]
        requires { version ≤ length (changes_of self.now.limits self.now.history) }
        ensures changes { result.now ≡ drop version (changes_of self.now.limits self.now.history) }
        ensures number { version + length result.now ≡ length (changes_of self.now.limits self.now.history) }
        ensures lawful { AreLawful self.now.limits (flows_at self.now.limits self.now.history version) result.now }
        ensures flows { fold changed (flows_at self.now.limits self.now.history version) result.now ≡ flows_of (state_of self.now.limits self.now.history) }
    {
        self.changes.from(version as usize)
    }

    /// The totals of the frames that passed.
    pub fn totals(&self) -> Totals
        ensures { result ≡ totals_of self.now.history }
    {
        self.standing.totals
    }

    /// The limits that the adapter was made with.
    pub fn limits(&self) -> Limits
        ensures limits { result ≡ self.now.limits }
        ensures ranges { AreLimits result }
    {
        self.limits
    }
}
