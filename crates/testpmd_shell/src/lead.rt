//! The lead worker: lets frames pass by its copy of what packets see, and keeps those that go out.
ghost use Rattle.std.specs.Prelude.{◌≡◌, ◌≤◌, [], length, Some, None, IfOk, OnOk, Option, if◌then◌else◌};
ghost use Rattle.std.specs.Io.KnownBytes.{append_known};
ghost use Rattle.packet_headers.specs.Layers.{LieWithin};
ghost use Rattle.adapter.specs.Seen.{Enters};
ghost use Rattle.adapter.specs.History.{passed_by};
ghost use Rattle.adapter.specs.Spare.{no_spare};
ghost use Rattle.flow_rules.specs.Limits.{AreLimits};
ghost use Rattle.flow_rules.specs.Walk.{verdict_of};
ghost use Rattle.flow_port.specs.Standing.{Stands};
ghost use Rattle.history_text.specs.Transmit.{delivered, record_behind};
ghost use Rattle.whole_history.specs.Serial.{caller_at};
ghost use Rattle.testpmd_shell.specs.Feed.{frame_in};
ghost use Rattle.testpmd_shell.specs.Phase.{parcel_at};
ghost use Rattle.running_phase.specs.Copies.{record_of};
ghost use Rattle.testpmd_shell.specs.Sending.{records_kept, kept_in, flows_now, sent_by};

use crate::feed::Arrived;
use adapter::Adapter;
use flow_actions::{Fate, Verdict};
use flow_calls::{Caller, Parcel};
use flow_rules::Limits;
use packet_headers::{Key, parse};
use replica::Replica;
use running_phase::FrameCopy;
use std::alloc::{AllocError, Global};

/// The adapter with its history, a copy of what packets see, and the frames that go out, where a transmit file was asked for.
#[derive(Drop)]
pub(crate) struct Lead {
    pub(crate) adapter: Adapter,
    pub(crate) replica: Replica,
    pub(crate) kept: Option<Vec<FrameCopy>>,
    alloc: Global,
}

impl Lead {
    /// A lead worker before the run, which keeps frames or doesn't.
    pub(crate) fn new(alloc: Global, limits: Limits, keeps: bool) -> Result<Lead, AllocError>
        requires { AreLimits limits }
        ensures adapter { IfOk result (λ lead. lead.adapter ≡ record { limits = limits; history = []; spare = no_spare }) }
        ensures stands { IfOk result (λ lead. Stands lead.adapter.limits lead.adapter.history lead.replica) }
        ensures kept { IfOk result (λ lead. kept_in lead ≡ (if keeps then Some [] else None)) }
    {
        let adapter = Adapter::new(alloc, limits)?;
        let replica = Replica::new(alloc, limits)?;
        let kept = if keeps { Some(Vec::new(alloc)) } else { None };
        Ok(Lead {
            adapter,
            replica,
            kept,
            alloc,
        })
    }

    /// Enters the frame of that number and those captured bytes, by worker 0, and keeps it where it goes out.
    pub(crate) fn pass(
        &mut self,
        number: u32,
        arrived: Arrived,
        frame: &[u8],
    ) -> Result<(), AllocError>
        requires short { length frame.now ≤ 262_144 }
        requires stands { Stands self.old.adapter.limits self.old.adapter.history self.old.replica }
        ensures enters { OnOk result (Enters self.old.adapter self.new.adapter
            (passed_by self.old.adapter.limits self.old.adapter.history (caller_at 9) (parcel_at number frame.now))) }
        ensures kept { OnOk result (kept_in self.new ≡ append_known (kept_in self.old) (sent_by (flows_now self.old.adapter) arrived frame.now)) }
        ensures stands { OnOk result (Stands self.new.adapter.limits self.new.adapter.history self.new.replica) }
        ensures limits { self.new.adapter.limits ≡ self.old.adapter.limits }
    {
        catch_up(&self.adapter, &mut self.replica)?;
        let parcel = Parcel {
            number,
            key: parse(frame),
            len: frame.len() as u32,
        };
        let verdict = self.replica.classify(&parcel.key);
        keep(
            self.alloc,
            &self.replica,
            &mut self.kept,
            &verdict,
            &parcel,
            arrived,
            frame,
        )?;
        self.adapter.packet(Caller::LEAD, &parcel, &verdict)
    }
}

/// Brings a copy of what packets see up to the adapter's version.
fn catch_up(adapter: &Adapter, replica: &mut Replica) -> Result<(), AllocError>
    requires stands { Stands adapter.now.limits adapter.now.history replica.old }
    ensures stands { OnOk result (Stands adapter.now.limits adapter.now.history replica.new) }
    ensures now { OnOk result (replica.new.flows ≡ flows_now adapter.now) }
{
    let version = replica.version();
    if version == adapter.version() {
        return Ok(());
    }
    replica.catch_up(adapter.changes_from(version))
}

/// Keeps a frame as it goes out, where it goes to a queue and frames are kept.
fn keep(
    alloc: Global,
    replica: &Replica,
    kept: &mut Option<Vec<FrameCopy>>,
    verdict: &Verdict,
    parcel: &Parcel,
    arrived: Arrived,
    frame: &[u8],
) -> Result<(), AllocError>
    requires walked { verdict.now ≡ verdict_of replica.now.flows parcel.now.key }
    requires within { LieWithin 0 (length frame.now) parcel.now.key }
    requires short { length frame.now ≤ 262_144 }
    ensures { OnOk result (records_kept kept.new ≡ append_known (records_kept kept.old)
        (delivered verdict.now.fate replica.now.flows parcel.now.key (Some (frame_in arrived frame.now)))) }
{
    match verdict.fate {
        Fate::Drop => return Ok(()),
        Fate::Queue(_) => {}
    }
    let Some(kept) = kept else {
        return Ok(());
    };
    let sent = edited(alloc, replica, verdict, parcel, arrived, frame)?;
    kept.push(sent)?;
    Ok(())
}

/// A frame as the rules edit it.
fn edited(
    alloc: Global,
    replica: &Replica,
    verdict: &Verdict,
    parcel: &Parcel,
    arrived: Arrived,
    frame: &[u8],
) -> Result<FrameCopy, AllocError>
    requires walked { verdict.now ≡ verdict_of replica.now.flows parcel.now.key }
    requires within { LieWithin 0 (length frame.now) parcel.now.key }
    requires short { length frame.now ≤ 262_144 }
    ensures { IfOk result (λ sent. record_of sent ≡ record_behind replica.now.flows parcel.now.key (frame_in arrived frame.now)) }
{
    let mut bytes = Vec::from_slice(alloc, frame)?;
    replica.rewrite_by(&parcel.key, verdict, &mut bytes);
    Ok(FrameCopy {
        number: parcel.number,
        wire_len: arrived.wire_len,
        stamp: arrived.stamp,
        bytes,
    })
}
