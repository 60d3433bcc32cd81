//! What a worker keeps of the frames that it sent.
ghost use Rattle.std.specs.Prelude.{◌≡◌, ◌++◌, List, ℕ, IfOk, OnOk, flat_map, is_some, map};
ghost use Rattle.flow_rules.specs.Walk.{verdict_of};
ghost use Rattle.whole_history.specs.Reach.{parcel_of};
ghost use Rattle.running_phase.specs.Copies.{frame_of, record_of};
ghost use Rattle.history_text.specs.Transmit.{record_behind};
ghost use Rattle.running_phase.specs.Sends.{AreKept};
ghost use Rattle.running_phase.specs.Turns.{Has, lent, goes_out};

use crate::copies::FrameCopy;
use crate::worker::bursts::Burst;
use flow_actions::{Fate, Verdict};
use flow_calls::Parcel;
use replica::Replica;
use std::alloc::{AllocError, Global};

/// Keeps the frames of a burst that go to a queue, where frames are kept.
pub(super) fn keep_sent(
    alloc: Global,
    replica: &Replica,
    burst: &Burst<'_>,
    kept: &mut Option<Vec<FrameCopy>>,
) -> Result<(), AllocError>
    requires { Has replica.now.flows (lent burst.now) burst.now }
    ensures keeps { is_some kept.new ≡ is_some kept.old }
    ensures kept { OnOk result ((sent : List (List ℕ)) → AreKept sent kept.old → AreKept (sent ++ flat_map (goes_out replica.now.flows) (lent burst.now)) kept.new) }
{
    let Some(kept) = kept else {
        return Ok(());
    };
    keep_all(alloc, replica, burst, kept)
}

/// Keeps the frames of a burst that go to a queue.
fn keep_all(
    alloc: Global,
    replica: &Replica,
    burst: &Burst<'_>,
    kept: &mut Vec<FrameCopy>,
) -> Result<(), AllocError>
    requires { Has replica.now.flows (lent burst.now) burst.now }
    ensures { OnOk result (map record_of kept.new.items ≡ map record_of kept.old.items ++ flat_map (goes_out replica.now.flows) (lent burst.now)) }
{
    let verdicts = burst.verdicts.as_slice();
    for place in 0..burst.frames.len() {
        keep(
            alloc,
            replica,
            burst.frames[place],
            &burst.parcels[place],
            &verdicts[place],
            kept,
        )?;
    }
    Ok(())
}

/// Keeps a frame that goes to a queue.
fn keep(
    alloc: Global,
    replica: &Replica,
    frame: &FrameCopy,
    parcel: &Parcel,
    verdict: &Verdict,
    kept: &mut Vec<FrameCopy>,
) -> Result<(), AllocError>
    requires parcel { parcel.now ≡ parcel_of frame.now.number (frame_of frame.now) }
    requires walked { verdict.now ≡ verdict_of replica.now.flows parcel.now.key }
    ensures { OnOk result (map record_of kept.new.items ≡ map record_of kept.old.items ++ goes_out replica.now.flows frame.now) }
{
    match verdict.fate {
        Fate::Drop => return Ok(()),
        Fate::Queue(_) => {}
    }
    let sent = edited(alloc, replica, frame, parcel, verdict)?;
    kept.push(sent)?;
    Ok(())
}

/// A frame as the rules edit it.
fn edited(
    alloc: Global,
    replica: &Replica,
    frame: &FrameCopy,
    parcel: &Parcel,
    verdict: &Verdict,
) -> Result<FrameCopy, AllocError>
    requires parcel { parcel.now ≡ parcel_of frame.now.number (frame_of frame.now) }
    requires walked { verdict.now ≡ verdict_of replica.now.flows parcel.now.key }
    ensures { IfOk result (λ sent. record_of sent ≡ record_behind replica.now.flows parcel.now.key (frame_of frame.now)) }
{
    let mut bytes = Vec::from_slice(alloc, frame.bytes.as_slice())?;
    replica.rewrite_by(&parcel.key, verdict, &mut bytes);
    Ok(FrameCopy {
        number: frame.number,
        wire_len: frame.wire_len,
        stamp: frame.stamp,
        bytes,
    })
}
