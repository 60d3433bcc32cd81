//! Ports with the seats of their callers, out of the list and back into it.
ghost use Rattle.std.specs.Prelude.{◌≡◌, ◌+◌, ◌<◌, ◌≤◌, length, All};
ghost use Rattle.flow_port.specs.Ports.{AreDifferent, IsListOf, IsSeatAt, callers_of, limit_of, seats_in};
ghost use Rattle.port_tests.specs.Asking.{IsPair, IsReady};

use adapter::Adapter;
use flow_calls::Caller;
use flow_port::{FlowPort, PortSeat, PortSeats};
use std::alloc::Global;
use std::process::Abort;

/// A port of two callers, with the seats of both and the list that these came from.
#[derive(Drop)]
pub(crate) struct Pair {
    pub(crate) port: FlowPort,
    pub(crate) seats: PortSeats,
    pub(crate) first: PortSeat,
    pub(crate) second: PortSeat,
}

/// A port of the shell and agents, whose seats are all in its list.
pub(crate) fn open_port(
    rt: &impl Abort,
    alloc: Global,
    adapter: Adapter,
    callers: &[Caller],
) -> (FlowPort, PortSeats)
    requires count { (1 ≤ length callers.now) × (length callers.now ≤ 25) }
    requires differ { AreDifferent callers.now }
    requires asks { All (λ c. c.0 ≤ 8) callers.now }
    ensures ready { All (IsReady result.0) (seats_in result.1) }
    ensures count { (length (seats_in result.1) ≡ length callers.now) × (length (callers_of result.0) ≡ length callers.now) }
    ensures list { IsListOf result.0 result.1 × (limit_of result.1 ≡ length callers.now) }
{
    let Ok((port, seats)) = FlowPort::new(alloc, adapter, callers) else {
        panic!(rt; "there was no memory")
    };
    (port, seats)
}

/// A port of the callers 0 and 1.
pub(crate) fn open_pair(rt: &impl Abort, alloc: Global, adapter: Adapter) -> Pair
    ensures pair { IsPair result.port result.seats result.first result.second }
    ensures ready { IsReady result.port result.first × IsReady result.port result.second }
{
    let (port, mut seats) = open_port(rt, alloc, adapter, &[Caller(0), Caller(1)]);
    let second = take_seat(&port, &mut seats);
    let first = take_seat(&port, &mut seats);
    Pair {
        port,
        seats,
        first,
        second,
    }
}

/// The last of the seats that are in the list.
fn take_seat(port: &FlowPort, seats: &mut PortSeats) -> PortSeat
    requires ready { All (IsReady port.now) (seats_in seats.old) }
    requires some { 0 < length (seats_in seats.old) }
    requires list { IsListOf port.now seats.old }
    ensures seat { IsReady port.now result }
    ensures ready { All (IsReady port.now) (seats_in seats.new) }
    ensures count { length (seats_in seats.new) + 1 ≡ length (seats_in seats.old) }
    ensures list { IsListOf port.now seats.new × (limit_of seats.new ≡ limit_of seats.old) }
{
    let _port = port;
    seats.pop().unwrap()
}

/// Puts a seat back into the list.
fn hand_in(port: &FlowPort, seats: &mut PortSeats, seat: PortSeat)
    requires seat { IsSeatAt port.now seat }
    requires seats { All (IsSeatAt port.now) (seats_in seats.old) }
    requires room { length (seats_in seats.old) < limit_of seats.old }
    requires list { IsListOf port.now seats.old }
    ensures seats { All (IsSeatAt port.now) (seats_in seats.new) }
    ensures count { length (seats_in seats.new) ≡ length (seats_in seats.old) + 1 }
    ensures list { IsListOf port.now seats.new × (limit_of seats.new ≡ limit_of seats.old) }
{
    let _port = port;
    seats.push(seat).unwrap();
}

/// The adapter of a port whose callers are done.
pub(crate) fn close_pair(pair: Pair) -> Adapter
    requires { IsPair pair.port pair.seats pair.first pair.second }
{
    let Pair {
        port,
        mut seats,
        first,
        second,
    } = pair;
    hand_in(&port, &mut seats, first);
    hand_in(&port, &mut seats, second);
    port.close(seats)
}
