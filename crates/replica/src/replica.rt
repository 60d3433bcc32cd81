//! The replica.
ghost use Rattle.std.specs.Prelude.{◌≡◌, ◌+◌, ◌-◌, ◌≤◌, ◌<◌, ◌^◌, ℕ, length, take, IfOk, OnOk, OnErr};
ghost use Rattle.packet_headers.specs.Layers.{LieWithin};
ghost use Rattle.flow_rules.specs.Walk.{verdict_of};
ghost use Rattle.replica.specs.Caught.{Follows, opening, caught_up};
ghost use Rattle.flow_rules.specs.Lawful.{AreLawful, AreLawfulOn};
ghost use Rattle.flow_rules.specs.Limits.{AreLimits};
ghost use Rattle.replica.specs.Rewritten.{rewritten};

use crate::current_flows::CurrentFlows;
use crate::rewriting::rewrite;
use flow_actions::Verdict;
use flow_rules::{Change, Limits, classify};
use packet_headers::Key;
use std::alloc::{AllocError, Global};
use std::marker::Model;

/// A copy of what packets see, which stands at a number of changes.
#[derive(Drop)]
pub struct Replica {
    limits: Limits,
    /// How many changes were applied.
    version: u64,
    flows: CurrentFlows,
}

impl Model for Replica {
    ghost use Rattle.replica.specs.Caught.{ReplicaView};

    ghost Value = { ReplicaView };

    ghost use Rattle.std.specs.Prelude.{◌≡◌};
    ghost use Rattle.replica.specs.Inside.{replica_kept};

    ghost view = { replica_kept };

    ghost invariant = { λ r. r.flows.rxq ≡ r.limits.rxq };
}

impl Replica {
    /// A replica at no change: no rules, nothing shared, and frames that no rule takes aren't dropped.
    pub fn new(alloc: Global, limits: Limits) -> Result<Replica, AllocError>
        requires { AreLimits limits }
        ensures { IfOk result (λ replica. replica ≡ record { limits = limits; version = 0; flows = opening limits }) }
    {
        Ok(Replica {
            limits,
            version: 0,
            flows: CurrentFlows::new(alloc, limits.rxq),
        })
    }

    /// How many changes were applied.
    pub fn version(&self) -> u64
        ensures { result ≡ self.now.version }
    {
        self.version
    }

    /// Applies changes, in order.
    ///
    /// Where it finds no memory, the replica stands behind those that were applied: `version` tells how many.
    pub fn catch_up(&mut self, changes: &[Change]) -> Result<(), AllocError>
        requires lawful { AreLawful self.old.limits self.old.flows changes.now }
        requires numbers { self.old.version + length changes.now ≤ 2 ^ 64 - 1 }
        ensures ok { OnOk result (self.new ≡ caught_up self.old changes.now) }
        ensures err { OnErr result ((n : ℕ) × (n < length changes.now) × (self.new ≡ caught_up self.old (take n changes.now))) }
    {
        follow(&mut self.flows, &mut self.version, changes)
    }

    /// The verdict on a frame of these layers.
    pub fn classify(&self, key: &Key) -> Verdict
        ensures { result ≡ verdict_of self.now.flows key.now }
    {
        classify(&self.flows, key)
    }

    /// Performs the edits of a frame's walk on its bytes, in order. The headers of the key lie in the frame.
    pub fn rewrite(&self, key: &Key, frame: &mut [u8])
        requires { LieWithin 0 (length frame.old) key.now }
        ensures { frame.new ≡ rewritten self.now.flows key.now frame.old }
    {
        let verdict = self.classify(key);
        self.rewrite_by(key, &verdict, frame);
    }

    /// Performs the edits of a frame's walk on its bytes, in order, where its verdict is known: no rule is matched again.
    pub fn rewrite_by(&self, key: &Key, verdict: &Verdict, frame: &mut [u8])
        requires walked { verdict.now ≡ verdict_of self.now.flows key.now }
        requires within { LieWithin 0 (length frame.old) key.now }
        ensures { frame.new ≡ rewritten self.now.flows key.now frame.old }
    {
        rewrite(&self.flows, key, verdict, frame)
    }
}

/// Applies changes, in order, and counts them.
fn follow(flows: &mut CurrentFlows, version: &mut u64, changes: &[Change]) -> Result<(), AllocError>
    requires lawful { AreLawfulOn flows.old.rxq flows.old changes.now }
    requires numbers { version.old + length changes.now ≤ 2 ^ 64 - 1 }
    ensures ok { OnOk result (Follows flows.old version.old changes.now flows.new version.new) }
    ensures err { OnErr result ((n : ℕ) × (n < length changes.now) × Follows flows.old version.old (take n changes.now) flows.new version.new) }
    ensures port { flows.new.rxq ≡ flows.old.rxq }
{
    for change in changes {
        flows.apply(change)?;
        *version += 1;
    }
    Ok(())
}
