//! Frames that one caller lets pass together: classified, packed, and entered.
ghost use Rattle.std.specs.Prelude.{◌≡◌, ◌≤◌, length, IfOk, OnOk, OnErr};
ghost use Rattle.adapter.specs.Seen.{Grows, Stays};
ghost use Rattle.port_state.specs.State.{flows_of, state_of};
ghost use Rattle.flow_port.specs.Bursts.{AreFit, passed_all, verdicts_by};
ghost use Rattle.flow_port.specs.Standing.{IsCurrent, Stands};

use adapter::{Adapter, Packed};
use arrayvec::ArrayVec;
use flow_actions::Verdict;
use flow_calls::{Caller, Parcel};
use replica::Replica;
use std::alloc::{AllocError, Global};

/// Frames of one worker, in the order in which they are to pass.
#[derive(Clone, Copy)]
pub(crate) struct Frames<'a> {
    pub(crate) alloc: Global,
    pub(crate) caller: Caller,
    pub(crate) parcels: &'a [Parcel],
}

/// Packs each frame with its verdict, as a history keeps it.
pub(crate) fn pack(frames: &Frames<'_>, verdicts: &[Verdict]) -> Result<Vec<Packed>, AllocError>
    requires { length verdicts.now ≡ length frames.now.parcels.now }
    ensures { IfOk result (λ packed. packed.items ≡ passed_all frames.now.caller frames.now.parcels.now verdicts.now) }
{
    let mut packed = Vec::with_capacity(frames.alloc, verdicts.len())?;
    for place in 0..verdicts.len() {
        let frame = Packed::new(
            frames.alloc,
            frames.caller,
            &frames.parcels[place],
            &verdicts[place],
        )?;
        packed.push_reserved(frame);
    }
    Ok(packed)
}

/// The verdicts that the replica gives.
fn classify(frames: &Frames<'_>, replica: &Replica, verdicts: &mut ArrayVec<Verdict, 32>)
    requires { length frames.now.parcels.now ≤ 32 }
    ensures { verdicts.new.items ≡ verdicts_by replica.now.flows frames.now.parcels.now }
{
    verdicts.clear();
    for parcel in frames.parcels {
        verdicts.push(replica.classify(&parcel.key));
    }
}

/// Brings the replica up to the adapter's version.
fn catch_up(adapter: &Adapter, replica: &mut Replica) -> Result<(), AllocError>
    requires { Stands adapter.now.limits adapter.now.history replica.old }
    ensures stands { Stands adapter.now.limits adapter.now.history replica.new }
    ensures current { OnOk result (IsCurrent adapter.now.limits adapter.now.history replica.new) }
{
    let version = replica.version();
    if version == adapter.version() {
        return Ok(());
    }
    replica.catch_up(adapter.changes_from(version))
}

/// Classifies and packs the frames anew, behind the adapter's last change.
fn renew(
    frames: &Frames<'_>,
    adapter: &Adapter,
    replica: &mut Replica,
    verdicts: &mut ArrayVec<Verdict, 32>,
) -> Result<Vec<Packed>, AllocError>
    requires stands { Stands adapter.now.limits adapter.now.history replica.old }
    requires count { length frames.now.parcels.now ≤ 32 }
    ensures stands { Stands adapter.now.limits adapter.now.history replica.new }
    ensures current { OnOk result (IsCurrent adapter.now.limits adapter.now.history replica.new) }
    ensures fit { IfOk result (λ packed. AreFit adapter.now.limits adapter.now.history frames.now.caller frames.now.parcels.now verdicts.new.items packed.items) }
{
    catch_up(adapter, replica)?;
    classify(frames, replica, verdicts);
    pack(frames, verdicts.as_slice())
}

/// The frames as they pass now: those that were packed before, where nothing changed since the replica's version.
fn fit(
    frames: &Frames<'_>,
    adapter: &Adapter,
    replica: &mut Replica,
    verdicts: &mut ArrayVec<Verdict, 32>,
    packed: Result<Vec<Packed>, AllocError>,
) -> Result<Vec<Packed>, AllocError>
    requires stands { Stands adapter.now.limits adapter.now.history replica.old }
    requires count { length frames.now.parcels.now ≤ 32 }
    requires verdicts { verdicts.old.items ≡ verdicts_by replica.old.flows frames.now.parcels.now }
    requires packed { IfOk packed (λ ready. ready.items ≡ passed_all frames.now.caller frames.now.parcels.now verdicts.old.items) }
    ensures stands { Stands adapter.now.limits adapter.now.history replica.new }
    ensures current { OnOk result (IsCurrent adapter.now.limits adapter.now.history replica.new) }
    ensures fit { IfOk result (λ ready. AreFit adapter.now.limits adapter.now.history frames.now.caller frames.now.parcels.now verdicts.new.items ready.items) }
{
    if replica.version() == adapter.version() {
        return packed;
    }
    renew(frames, adapter, replica, verdicts)
}

/// Enters the frames with the verdicts of the rules in effect. `Err` is want of memory, and then there is no entry.
pub(crate) fn enter(
    frames: &Frames<'_>,
    adapter: &mut Adapter,
    replica: &mut Replica,
    verdicts: &mut ArrayVec<Verdict, 32>,
    packed: Result<Vec<Packed>, AllocError>,
) -> Result<(), AllocError>
    requires worker { (9 ≤ frames.now.caller.0) × (frames.now.caller.0 ≤ 24) }
    requires stands { Stands adapter.old.limits adapter.old.history replica.old }
    requires count { length frames.now.parcels.now ≤ 32 }
    requires verdicts { verdicts.old.items ≡ verdicts_by replica.old.flows frames.now.parcels.now }
    requires packed { IfOk packed (λ ready. ready.items ≡ passed_all frames.now.caller frames.now.parcels.now verdicts.old.items) }
    ensures stands { Stands adapter.new.limits adapter.new.history replica.new }
    ensures current { OnOk result (IsCurrent adapter.new.limits adapter.new.history replica.new) }
    ensures grew { OnOk result (Grows adapter.old adapter.new (passed_all frames.now.caller frames.now.parcels.now verdicts.new.items)) }
    ensures count { OnOk result (length verdicts.new.items ≡ length frames.now.parcels.now) }
    ensures err { OnErr result (Stays adapter.old adapter.new) }
{
    let ready = fit(frames, adapter, replica, verdicts, packed)?;
    adapter.burst(ready)
}
