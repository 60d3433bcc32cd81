//! How a worker lets frames pass.
ghost use Rattle.std.specs.Prelude.{◌≡◌, ◌+◌, ◌<◌, ◌≤◌, ◌++◌, [], length, OnOk, OnErr};
ghost use Rattle.turn_book.specs.Views.{BeginsWith};
ghost use Rattle.flow_calls.specs.Entries.{entries_by};
ghost use Rattle.adapter.specs.History.{IsLegal};
ghost use Rattle.flow_port.specs.Bursts.{Rise, passed_all, verdicts_by};
ghost use Rattle.flow_port.specs.Ports.{Grew, IsSeatAt, limits_of, mine, seen, since, turns, whose};
ghost use Rattle.flow_port.specs.Standing.{IsCurrent, StandsAt};

use crate::frames::{Frames, pack};
use crate::port::FlowPort;
use crate::port::turns::pass_in_turn;
use crate::seat::PortSeat;
use arrayvec::ArrayVec;
use flow_actions::Verdict;
use flow_calls::Parcel;
use replica::Replica;
use std::alloc::AllocError;
use std::sync::Wait;

impl FlowPort {
    /// Lets frames of a worker pass in one turn, which have the replica's verdicts. Where rules changed since, the replica follows
    /// in that turn, and the frames pass with the verdicts that they have then: `verdicts` has those that were entered.
    ///
    /// `Err` is want of memory: no frame passed, and `verdicts` is empty. The turn is spent all the same.
    pub fn burst<R: Wait>(
        &self,
        rt: &R,
        seat: &mut PortSeat,
        replica: &mut Replica,
        parcels: &[Parcel],
        verdicts: &mut ArrayVec<Verdict, 32>,
    ) -> Result<(), AllocError>
        requires seat { IsSeatAt self.now seat.old }
        requires left { 0 < turns seat.old }
        requires caller { (9 ≤ (whose seat.old).0) × ((whose seat.old).0 ≤ 24) }
        requires count { (1 ≤ length parcels.now) × (length parcels.now ≤ 32) }
        requires numbers { Rise (whose seat.old).0 (seen seat.old) parcels.now }
        requires replica { StandsAt self.now seat.old replica.old }
        requires verdicts { verdicts.old.items ≡ verdicts_by replica.old.flows parcels.now }
        ensures seat { IsSeatAt self.now seat.new }
        ensures caller { whose seat.new ≡ whose seat.old }
        ensures turns { turns seat.new + 1 ≡ turns seat.old }
        ensures legal { IsLegal (limits_of self.now) (seen seat.new) }
        ensures own { entries_by (whose seat.new).0 (since self.now (seen seat.new)) ≡ mine self.now seat.new }
        ensures ok { OnOk result (Grew (seen seat.old) (seen seat.new) (passed_all (whose seat.old) parcels.now verdicts.new.items)) }
        ensures mine { OnOk result (mine self.now seat.new ≡ mine self.now seat.old ++ passed_all (whose seat.old) parcels.now verdicts.new.items) }
        ensures count { OnOk result (length verdicts.new.items ≡ length parcels.now) }
        ensures err { OnErr result (BeginsWith (seen seat.new) (seen seat.old)) }
        ensures same_mine { OnErr result (mine self.now seat.new ≡ mine self.now seat.old) }
        ensures none { OnErr result (verdicts.new.items ≡ []) }
        ensures replica { StandsAt self.now seat.new replica.new }
        ensures current { OnOk result (IsCurrent (limits_of self.now) (seen seat.new) replica.new) }
    {
        let frames = Frames {
            alloc: self.alloc,
            caller: seat.caller,
            parcels,
        };
        let packed = pack(&frames, verdicts.as_slice());
        pass_in_turn(
            rt,
            &self.book,
            &mut seat.seat,
            &frames,
            replica,
            verdicts,
            packed,
        )
    }
}
