//! How a caller asks.
ghost use Rattle.std.specs.Prelude.{◌≡◌, ◌+◌, ◌<◌, ◌≤◌, ◌++◌, [], ◌∷◌, IfOk, OnErr};
ghost use Rattle.turn_book.specs.Views.{BeginsWith};
ghost use Rattle.flow_calls.specs.declared.entry.Entry.TheVariants.{Asked};
ghost use Rattle.flow_calls.specs.Entries.{entries_by};
ghost use Rattle.adapter.specs.History.{IsLegal};
ghost use Rattle.flow_port.specs.Ports.{Grew, IsSeatAt, limits_of, mine, seen, since, turns, whose};

use crate::port::FlowPort;
use crate::port::turns::ask_in_turn;
use crate::seat::PortSeat;
use flow_calls::{Call, Reply};
use std::alloc::AllocError;
use std::sync::Wait;

impl FlowPort {
    /// Carries out a call of the shell or of an agent in one turn. `Err` is want of memory; the turn is spent all the same.
    pub fn call<R: Wait>(
        &self,
        rt: &R,
        seat: &mut PortSeat,
        call: &Call,
    ) -> Result<Reply, AllocError>
        requires seat { IsSeatAt self.now seat.old }
        requires left { 0 < turns seat.old }
        requires caller { (whose seat.old).0 ≤ 8 }
        ensures seat { IsSeatAt self.now seat.new }
        ensures caller { whose seat.new ≡ whose seat.old }
        ensures turns { turns seat.new + 1 ≡ turns seat.old }
        ensures legal { IsLegal (limits_of self.now) (seen seat.new) }
        ensures own { entries_by (whose seat.new).0 (since self.now (seen seat.new)) ≡ mine self.now seat.new }
        ensures ok { IfOk result (λ reply. Grew (seen seat.old) (seen seat.new) (Asked (whose seat.old) call.now reply ∷ [])) }
        ensures mine { IfOk result (λ reply. mine self.now seat.new ≡ mine self.now seat.old ++ Asked (whose seat.old) call.now reply ∷ []) }
        ensures err { OnErr result (BeginsWith (seen seat.new) (seen seat.old)) }
        ensures same_mine { OnErr result (mine self.now seat.new ≡ mine self.now seat.old) }
    {
        let caller = seat.caller;
        ask_in_turn(rt, &self.book, &mut seat.seat, caller, call)
    }
}
