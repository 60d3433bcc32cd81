//! The seats of a port.
ghost use Rattle.std.specs.Prelude.{◌≡◌, ◌++◌, ◌↔◌, [], ◌∷◌, length, IsNone, IsErr, OnOk, IfErr, option_to_list, slice_index_or};
ghost use Rattle.flow_port.specs.declared.port.FlowPort.{FlowPort};
ghost use Rattle.flow_port.specs.Ports.{IsListOf, IsSeatAt, limit_of, no_caller, seats_in, turns, whose};

use crate::held::Held;
use arrayvec::ArrayVec;
use flow_calls::Caller;
use turn_book::{Seat, SeatList};

/// One caller's right to turns at a port.
#[derive(Drop)]
pub struct PortSeat {
    pub(crate) seat: Seat<Held>,
    pub(crate) caller: Caller,
}

impl PortSeat {
    /// Whose seat it is.
    pub fn caller(&self) -> Caller
        ensures { result ≡ whose self.now }
    {
        self.caller
    }

    /// The turns that it has left.
    pub fn turns_left(&self) -> u64
        ensures { result ≡ turns self.now }
    {
        self.seat.turns_left()
    }
}

/// Seats of one port, at most as many as it was made with.
#[derive(Drop)]
pub struct PortSeats {
    pub(crate) seats: SeatList<Held>,
    /// The caller of the seat of number n stands at place n.
    pub(crate) callers: ArrayVec<Caller, 25>,
}

// The caller of the seat of that number.
fn caller_at(callers: &[Caller], number: u32) -> Caller
    ensures { result ≡ slice_index_or callers.now number no_caller }
{
    let place = number as usize;
    if place < callers.len() {
        return callers[place];
    }
    Caller::SHELL
}

impl PortSeats {
    /// Takes the last seat.
    pub fn pop(&mut self) -> Option<PortSeat>
        ensures empty { IsNone result ↔ (seats_in self.old ≡ []) }
        ensures last { seats_in self.old ≡ seats_in self.new ++ option_to_list result }
        ensures limit { limit_of self.new ≡ limit_of self.old }
        ensures list { (port : FlowPort) → IsListOf port self.old → IsListOf port self.new }
    {
        let Some(seat) = self.seats.pop() else {
            return None;
        };
        let caller = caller_at(self.callers.as_slice(), seat.number());
        Some(PortSeat { seat, caller })
    }

    /// Puts a seat of the same port behind the others, or hands it back where the list is full.
    pub fn push(&mut self, seat: PortSeat) -> Result<(), PortSeat>
        ensures full { IsErr result ↔ (length (seats_in self.old) ≡ limit_of self.old) }
        ensures ok { OnOk result ((port : FlowPort) → IsListOf port self.old → IsSeatAt port seat → seats_in self.new ≡ seats_in self.old ++ seat ∷ []) }
        ensures err { IfErr result (λ refused. (refused ≡ seat) × (seats_in self.new ≡ seats_in self.old)) }
        ensures limit { limit_of self.new ≡ limit_of self.old }
        ensures list { (port : FlowPort) → IsListOf port self.old → IsListOf port self.new }
    {
        let PortSeat { seat, caller } = seat;
        match self.seats.push(seat) {
            Ok(()) => Ok(()),
            Err(seat) => Err(PortSeat { seat, caller }),
        }
    }
}
