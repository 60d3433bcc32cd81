//! What packets see, kept under changes.
ghost use Rattle.std.specs.Prelude.{◌≡◌, [], false, OnOk, OnErr};
ghost use Rattle.flow_rules.specs.Changes.{changed};
ghost use Rattle.flow_rules.specs.Naming.{HaveOwnIds};
ghost use Rattle.flow_rules.specs.Shared.{AreSharedOn};
ghost use Rattle.flow_rules.specs.Lawful.{IsNew, MayBeInEffect};

use crate::rule_list::RuleList;
use crate::shared_actions::SharedActions;
use flow_actions::Action;
use flow_rules::{Change, FlowsInEffect, Rule};
use packet_headers::Key;
use std::alloc::{AllocError, Global};
use std::marker::Model;

/// The rules in effect, the actions that they share, whether a frame that no rule takes is dropped, and the number of Rx queues.
///
/// No two rules have one id, and the values of the shared actions are such as rules can share on the port.
#[derive(Drop)]
pub(crate) struct CurrentFlows {
    rules: RuleList,
    shared: SharedActions,
    isolated: bool,
    rxq: u8,
}

impl Model for CurrentFlows {
    ghost use Rattle.flow_rules.specs.Walk.{Flows};

    ghost Value = { Flows };

    ghost use Rattle.replica.specs.Inside.{flows_kept, AreKept};

    ghost view = { flows_kept };

    ghost invariant = { λ f. AreKept (flows_kept f) };
}

impl FlowsInEffect for CurrentFlows {
    ghost use Rattle.flow_rules.specs.Walk.{Flows};

    ghost flows = { λ (f : Flows). f };

    fn best(&self, group: u32, key: &Key) -> Option<&Rule> {
        self.rules.best(group, key)
    }

    fn shared(&self, id: u32) -> Option<&Action> {
        self.shared.get(id)
    }

    fn is_isolated(&self) -> bool {
        self.isolated
    }

    fn rxq(&self) -> u8 {
        self.rxq
    }
}

impl CurrentFlows {
    /// Nothing is in effect, on a port of so many Rx queues. It takes no memory.
    pub(crate) fn new(alloc: Global, rxq: u8) -> CurrentFlows
        ensures { result ≡ record { rules = []; shared = []; isolated = false; rxq = rxq } }
    {
        CurrentFlows {
            rules: RuleList::new(alloc),
            shared: SharedActions::new(alloc),
            isolated: false,
            rxq,
        }
    }

    /// The rules in effect.
    pub(crate) fn rules(&self) -> &RuleList
        ensures rules { result.now ≡ self.now.rules }
        ensures own { HaveOwnIds self.now.rules }
        ensures shared { AreSharedOn self.now.rxq self.now.shared }
    {
        &self.rules
    }

    /// A change takes place.
    pub(crate) fn apply(&mut self, change: &Change) -> Result<(), AllocError>
        requires new { IsNew self.old change.now }
        requires may { MayBeInEffect self.old.rxq (changed self.old change.now) }
        ensures ok { OnOk result (self.new ≡ changed self.old change.now) }
        ensures err { OnErr result (self.new ≡ self.old) }
    {
        match change {
            Change::Added(rule) => self.rules.push(rule)?,
            Change::Removed(id) => self.rules.remove(*id),
            Change::Flushed => self.rules.clear(),
            Change::IndirectSet(id, value) => self.shared.set(*id, value.copied())?,
            Change::IndirectGone(id) => self.shared.remove(*id),
            Change::Isolated(on) => self.isolated = *on,
        }
        Ok(())
    }
}
