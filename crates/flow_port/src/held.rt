//! The value of a port's book: the adapter, with the callers who share it.
ghost use Rattle.std.specs.Prelude.{◌≡◌, ◌≤◌, ◌++◌, [], length, IfOk, OnOk, OnErr};
ghost use Rattle.adapter.specs.History.{IsLegal};
ghost use Rattle.flow_port.specs.Bursts.{passed_all, verdicts_by};
ghost use Rattle.flow_port.specs.Calls.{entry_left};
ghost use Rattle.flow_port.specs.Holding.{history_in, fixed_in};
ghost use Rattle.flow_port.specs.Standing.{IsCurrent, Stands};

use crate::frames::{Frames, enter};
use adapter::{Adapter, Packed};
use arrayvec::ArrayVec;
use flow_actions::Verdict;
use flow_calls::{Call, Caller, Entry, Reply};
use flow_rules::Limits;
use replica::Replica;
use std::alloc::AllocError;
use std::collections::LinkedList;
use turn_book::Entries;

#[derive(Drop)]
pub(crate) struct Held {
    pub(crate) adapter: Adapter,
    /// The caller of the seat of number n stands at place n.
    pub(crate) callers: ArrayVec<Caller, 25>,
}

impl Entries for Held {
    type Entry = Entry;

    type Fixed = (Limits, LinkedList<Caller>);

    ghost use Rattle.flow_port.specs.Holding.{history_in, fixed_in, owner_by};

    ghost entries = { history_in };

    ghost fixed = { fixed_in };

    ghost owner = { owner_by };
}

impl Held {
    /// Carries out a call. `Err` is want of memory, and then there is no entry.
    pub(crate) fn ask(&mut self, caller: Caller, call: &Call) -> Result<Reply, AllocError>
        requires { caller.0 ≤ 8 }
        ensures fixed { fixed_in self.new ≡ fixed_in self.old }
        ensures legal { IsLegal self.new.adapter.limits self.new.adapter.history }
        ensures grew { history_in self.new ≡ history_in self.old ++ entry_left caller call.now result }
    {
        let reply = self.adapter.step(caller, call);
        self.adapter.entries();
        reply
    }

    /// Lets frames pass. `Err` is want of memory, and then there is no entry and no verdict.
    pub(crate) fn pass(
        &mut self,
        frames: &Frames<'_>,
        replica: &mut Replica,
        verdicts: &mut ArrayVec<Verdict, 32>,
        packed: Result<Vec<Packed>, AllocError>,
    ) -> Result<(), AllocError>
        requires worker { (9 ≤ frames.now.caller.0) × (frames.now.caller.0 ≤ 24) }
        requires stands { Stands self.old.adapter.limits self.old.adapter.history replica.old }
        requires count { length frames.now.parcels.now ≤ 32 }
        requires verdicts { verdicts.old.items ≡ verdicts_by replica.old.flows frames.now.parcels.now }
        requires packed { IfOk packed (λ ready. ready.items ≡ passed_all frames.now.caller frames.now.parcels.now verdicts.old.items) }
        ensures fixed { fixed_in self.new ≡ fixed_in self.old }
        ensures legal { IsLegal self.new.adapter.limits self.new.adapter.history }
        ensures grew { history_in self.new ≡ history_in self.old ++ passed_all frames.now.caller frames.now.parcels.now verdicts.new.items }
        ensures count { OnOk result (length verdicts.new.items ≡ length frames.now.parcels.now) }
        ensures none { OnErr result (verdicts.new.items ≡ []) }
        ensures stands { Stands self.new.adapter.limits self.new.adapter.history replica.new }
        ensures current { OnOk result (IsCurrent self.new.adapter.limits self.new.adapter.history replica.new) }
    {
        match enter(frames, &mut self.adapter, replica, verdicts, packed) {
            Ok(()) => {
                self.adapter.entries();
                Ok(())
            }
            Err(error) => {
                verdicts.clear();
                self.adapter.entries();
                Err(error)
            }
        }
    }
}
