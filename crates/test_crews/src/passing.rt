//! What a worker of a crew does.
ghost use Rattle.std.specs.Prelude.{◌≡◌, ◌≤◌, ◌<◌, ◌+◌, ◌^◌, [], length, All, OnOk};
ghost use Rattle.flow_calls.specs.Entries.{numbers_by};
ghost use Rattle.flow_port.specs.Bursts.{verdicts_by};
ghost use Rattle.flow_port.specs.Ports.{IsSeatAt, seen, turns, whose};
ghost use Rattle.flow_port.specs.Standing.{StandsAt};
ghost use Rattle.test_crews.specs.Passing.{MayPass};

use crate::plan::MAX_BURST;
use crate::share::Share;
use arrayvec::ArrayVec;
use flow_actions::Verdict;
use flow_calls::Parcel;
use flow_port::{FlowPort, PortSeat};
use replica::Replica;
use std::alloc::{AllocError, Global};
use std::sync::Wait;

/// A worker's frames, and its copy of what packets see.
#[derive(Drop)]
pub(crate) struct Passing<'a> {
    pub(crate) share: Share<'a>,
    pub(crate) replica: Replica,
}

/// The frames of a burst with their verdicts.
#[derive(Drop)]
struct Burst {
    parcels: Vec<Parcel>,
    verdicts: ArrayVec<Verdict, 32>,
}

/// The verdicts that a worker's replica gives before its turn.
fn classify(replica: &Replica, parcels: &[Parcel], verdicts: &mut ArrayVec<Verdict, 32>)
    requires { length parcels.now ≤ 32 }
    ensures { verdicts.new.items ≡ verdicts_by replica.now.flows parcels.now }
{
    verdicts.clear();
    for parcel in parcels {
        verdicts.push(replica.classify(&parcel.key));
    }
}

/// Lets the next frames of the share pass in one turn.
fn pass<R: Wait>(
    rt: &R,
    port: &FlowPort,
    most: usize,
    seat: &mut PortSeat,
    passing: &mut Passing<'_>,
    burst: &mut Burst,
) -> Result<(), AllocError>
    requires may { MayPass port.now seat.old passing.old }
    requires most { (1 ≤ most) × (most ≤ 32) }
    requires more { passing.old.share.next < passing.old.share.end }
    ensures seat { IsSeatAt port.now seat.new }
    ensures may { OnOk result (MayPass port.now seat.new passing.new) }
    ensures next { OnOk result (passing.old.share.next < passing.new.share.next) }
    ensures end { passing.new.share.end ≡ passing.old.share.end }
{
    passing.share.take(most, &mut burst.parcels)?;
    classify(
        &passing.replica,
        burst.parcels.as_slice(),
        &mut burst.verdicts,
    );
    port.burst(
        rt,
        seat,
        &mut passing.replica,
        burst.parcels.as_slice(),
        &mut burst.verdicts,
    )
}

/// Lets all frames of the share pass, in bursts of at most so many.
pub(crate) fn pass_all<R: Wait>(
    rt: &R,
    port: &FlowPort,
    alloc: Global,
    most: usize,
    seat: &mut PortSeat,
    passing: &mut Passing<'_>,
) -> Result<(), AllocError>
    requires may { MayPass port.now seat.old passing.old }
    requires most { (1 ≤ most) × (most ≤ 32) }
    ensures { IsSeatAt port.now seat.new }
{
    let mut burst = Burst {
        parcels: Vec::with_capacity(alloc, MAX_BURST)?,
        verdicts: ArrayVec::new(),
    };
    while passing.share.next < passing.share.end {
        pass(rt, port, most, seat, passing, &mut burst)?;
    }
    Ok(())
}
