//! How a port is made with its seats, and how it is closed.
ghost use Rattle.std.specs.Prelude.{◌≡◌, ◌≤◌, map, length, All, Contains, IfOk, IfErr};
ghost use Rattle.turn_book.specs.Views.{BeginsWith};
ghost use Rattle.flow_calls.specs.Entries.{caller_of, entries_by};
ghost use Rattle.adapter.specs.History.{IsLegal};
ghost use Rattle.flow_port.specs.Ports.{AreAllAt, AreDifferent, IsFreshAt, IsListOf, callers_of, limit_of, limits_of, mine, opening_of, seats_in, seen, since, whose};

use crate::held::Held;
use crate::port::FlowPort;
use crate::seat::PortSeats;
use adapter::Adapter;
use arrayvec::ArrayVec;
use flow_calls::Caller;
use std::alloc::Global;
use turn_book::Book;

impl FlowPort {
    /// A port for these callers, with a seat for each, in their order. `Err` gives the adapter back, and comes only from
    /// want of memory.
    pub fn new(
        alloc: Global,
        adapter: Adapter,
        callers: &[Caller],
    ) -> Result<(FlowPort, PortSeats), Adapter>
        requires count { (1 ≤ length callers.now) × (length callers.now ≤ 25) }
        requires differ { AreDifferent callers.now }
        requires known { All (λ c. c.0 ≤ 24) callers.now }
        ensures port { IfOk result (λ made. (opening_of made.0 ≡ adapter.history) × (limits_of made.0 ≡ adapter.limits) × (callers_of made.0 ≡ callers.now)) }
        ensures fresh { IfOk result (λ made. All (IsFreshAt made.0) (seats_in made.1)) }
        ensures callers { IfOk result (λ made. map whose (seats_in made.1) ≡ callers.now) }
        ensures limit { IfOk result (λ made. limit_of made.1 ≡ length callers.now) }
        ensures list { IfOk result (λ made. IsListOf made.0 made.1) }
        ensures err { IfErr result (λ back. back ≡ adapter) }
    {
        let mut kept: ArrayVec<Caller, 25> = ArrayVec::new();
        let mut known: ArrayVec<Caller, 25> = ArrayVec::new();
        for caller in callers {
            kept.push(*caller);
            known.push(*caller);
        }
        let held = Held {
            adapter,
            callers: kept,
        };
        match Book::new(alloc, held, callers.len() as u32) {
            Ok((book, seats)) => Ok((
                FlowPort { alloc, book },
                PortSeats {
                    seats,
                    callers: known,
                },
            )),
            Err(held) => {
                let Held { adapter, .. } = held;
                Err(adapter)
            }
        }
    }

    /// Gives the adapter back, where all seats of the port are handed in.
    pub fn close(self, seats: PortSeats) -> Adapter
        requires { AreAllAt self seats }
        ensures limits { result.limits ≡ limits_of self }
        ensures legal { IsLegal result.limits result.history }
        ensures begins { BeginsWith result.history (opening_of self) }
        ensures seen { All (λ s. BeginsWith result.history (seen s)) (seats_in seats) }
        ensures own { All (λ s. entries_by (whose s).0 (since self result.history) ≡ mine self s) (seats_in seats) }
        ensures owned { All (λ e. Contains (map (λ s. (whose s).0) (seats_in seats)) (caller_of e)) (since self result.history) }
        ensures all { All (λ c. Contains (map (λ s. (whose s).0) (seats_in seats)) c.0) (callers_of self) }
    {
        let PortSeats { seats, callers: _ } = seats;
        let FlowPort { alloc: _, book } = self;
        let Held {
            adapter,
            callers: _,
        } = book.close(seats);
        adapter.entries();
        adapter
    }
}
