//! Frames that are ready to be entered.
ghost use Rattle.std.specs.Prelude.{◌≡◌, IfOk};
ghost use Rattle.flow_calls.specs.declared.entry.Entry.TheVariants.{Passed};
ghost use Rattle.adapter.specs.Kept.{entry_kept};
ghost use Rattle.adapter.specs.Tallies.{IsPassed, Tallies};

use crate::kept::{Kept, Tally, keep_frame, tally_of};
use flow_actions::Verdict;
use flow_calls::{Caller, Parcel};
use std::alloc::{AllocError, Global};
use std::marker::Model;

/// A frame with its verdict, as a history keeps it.
///
/// It can be made before the turn in which it is entered: entering it takes no memory of its own. Contracts see it as its entry.
#[derive(Drop)]
pub struct Packed {
    kept: Kept,
}

impl Model for Packed {
    ghost use Rattle.flow_calls.specs.declared.entry.Entry.{Entry};

    ghost Value = { Entry };

    ghost use Rattle.adapter.specs.PackedInside.{entry_packed};

    ghost view = { entry_packed };
}

impl Packed {
    /// A frame that a worker lets pass, with its verdict.
    pub fn new(
        alloc: Global,
        caller: Caller,
        parcel: &Parcel,
        verdict: &Verdict,
    ) -> Result<Packed, AllocError>
        ensures { IfOk result (λ packed. packed ≡ Passed caller parcel.now verdict.now) }
    {
        let kept = keep_frame(alloc, caller, parcel, verdict)?;
        Ok(Packed { kept })
    }

    /// What the frame adds to counters and totals.
    pub(crate) fn tally(&self) -> Tally
        requires { IsPassed self.now }
        ensures { Tallies self.now result }
    {
        tally_of(&self.kept)
    }

    /// The frame as the history keeps it.
    pub(crate) fn into_kept(self) -> Kept
        ensures { entry_kept result ≡ self }
    {
        self.kept
    }
}
