//! A plain port: rules in effect in a list, what flow queues hold and have to tell, and counts.
use crate::steps::Aim;
use std::alloc::{AllocError, Global};

/// The captured bytes of each frame of these tests.
pub(crate) const FRAME_LEN: u64 = 60;

/// A rule in effect, or one whose creation is held.
#[derive(Clone, Copy)]
pub(crate) struct Rule {
    pub(crate) id: u32,
    pub(crate) aim: Aim,
    /// Whether it stands in the table.
    pub(crate) in_table: bool,
    pub(crate) hits: u64,
}

/// An operation that a flow queue holds.
#[derive(Clone, Copy)]
enum Held {
    Creation(Rule),
    End(u32),
}

/// A flow queue: what it holds, and whether each operation that took effect succeeded, the oldest first.
#[derive(Drop)]
struct FlowQueue {
    held: Vec<Held>,
    results: Vec<bool>,
}

#[derive(Drop)]
pub(crate) struct Port {
    alloc: Global,
    /// The rules in effect, in the order in which they took effect.
    pub(crate) rules: Vec<Rule>,
    /// None before they are configured.
    queues: Vec<FlowQueue>,
    /// Ids that were given.
    given: u32,
    pub(crate) received: u64,
    pub(crate) dropped: u64,
    /// How many frames each Rx queue received.
    pub(crate) delivered: Vec<u64>,
}

impl Port {
    /// A port of so many Rx queues.
    pub(crate) fn new(alloc: Global, rxq: usize) -> Result<Port, AllocError> {
        Ok(Port {
            alloc,
            rules: Vec::new(alloc),
            queues: Vec::new(alloc),
            given: 0,
            received: 0,
            dropped: 0,
            delivered: vec![in alloc; 0u64; rxq]?,
        })
    }

    pub(crate) fn configure(&mut self) -> Result<(), AllocError> {
        for _ in 0..8 {
            let held = Vec::new(self.alloc);
            let results = Vec::new(self.alloc);
            self.queues.push(FlowQueue { held, results })?;
        }
        Ok(())
    }

    pub(crate) fn has_queue(&self, queue: u8) -> bool {
        usize::from(queue) < self.queues.len()
    }

    /// A rule of the next id.
    fn make_rule(&mut self, aim: &Aim, in_table: bool) -> Rule {
        let id = self.given;
        self.given = id.wrapping_add(1);
        Rule {
            id,
            aim: *aim,
            in_table,
            hits: 0,
        }
    }

    /// A rule takes effect. Its id comes back.
    pub(crate) fn create(&mut self, aim: &Aim) -> Result<u32, AllocError> {
        let rule = self.make_rule(aim, false);
        self.rules.push(rule)?;
        Ok(rule.id)
    }

    /// The rule in effect of an id.
    pub(crate) fn rule(&self, id: u32) -> Option<&Rule> {
        for rule in self.rules.as_slice() {
            if rule.id == id {
                return Some(rule);
            }
        }
        None
    }

    /// A rule goes, if it is in effect and stands in the table or in none. Says whether it went.
    pub(crate) fn destroy(&mut self, id: u32, in_table: bool) -> bool {
        let may_go = match self.rule(id) {
            Some(rule) => rule.in_table == in_table,
            None => false,
        };
        if may_go {
            self.rules.retain(|rule| rule.id != id);
        }
        may_go
    }

    fn hold(&mut self, queue: u8, op: Held) -> Result<(), AllocError> {
        if let Some(own) = self.queues.get_mut(usize::from(queue)) {
            own.held.push(op)?;
        }
        Ok(())
    }

    /// A flow queue takes the creation of a rule of the table. Its id comes back.
    pub(crate) fn enqueue(&mut self, queue: u8, aim: &Aim) -> Result<u32, AllocError> {
        let rule = self.make_rule(aim, true);
        self.hold(queue, Held::Creation(rule))?;
        Ok(rule.id)
    }

    /// A flow queue takes the end of a rule.
    pub(crate) fn enqueue_end(&mut self, queue: u8, id: u32) -> Result<(), AllocError> {
        self.hold(queue, Held::End(id))
    }

    /// What a flow queue holds, which it holds no more.
    fn take_held(&mut self, queue: u8) -> Vec<Held> {
        let none = Vec::new(self.alloc);
        match self.queues.get_mut(usize::from(queue)) {
            Some(own) => std::mem::replace(&mut own.held, none),
            None => none,
        }
    }

    fn tell(&mut self, queue: u8, succeeded: bool) -> Result<(), AllocError> {
        if let Some(own) = self.queues.get_mut(usize::from(queue)) {
            own.results.push(succeeded)?;
        }
        Ok(())
    }

    fn carry_out(&mut self, op: &Held) -> Result<bool, AllocError> {
        match op {
            Held::Creation(rule) => {
                self.rules.push(*rule)?;
                Ok(true)
            }
            Held::End(id) => Ok(self.destroy(*id, true)),
        }
    }

    /// All that a flow queue holds takes effect, in order.
    pub(crate) fn push(&mut self, queue: u8) -> Result<(), AllocError> {
        let held = self.take_held(queue);
        for op in held.as_slice() {
            let succeeded = self.carry_out(op)?;
            self.tell(queue, succeeded)?;
        }
        Ok(())
    }

    /// The results of a flow queue, which has none any more.
    pub(crate) fn pull(&mut self, queue: u8) -> Vec<bool> {
        let none = Vec::new(self.alloc);
        match self.queues.get_mut(usize::from(queue)) {
            Some(own) => std::mem::replace(&mut own.results, none),
            None => none,
        }
    }

    /// The rule that takes a frame to an address, which counts it: the first in effect that takes it.
    fn take(&mut self, to: u8) -> Option<Rule> {
        for rule in self.rules.as_mut_slice() {
            if rule.aim.takes(to) {
                rule.hits = rule.hits.wrapping_add(1);
                return Some(*rule);
            }
        }
        None
    }

    fn count(&mut self, queue: Option<u8>) {
        self.received = self.received.wrapping_add(1);
        let Some(queue) = queue else {
            self.dropped = self.dropped.wrapping_add(1);
            return;
        };
        if let Some(delivered) = self.delivered.get_mut(usize::from(queue)) {
            *delivered = delivered.wrapping_add(1);
        }
    }

    /// A frame to an address passes. The rule that took it comes back, if there is one.
    pub(crate) fn pass(&mut self, to: u8) -> Option<Rule> {
        let rule = self.take(to);
        let queue = match &rule {
            Some(rule) => rule.aim.queue(),
            None => Some(0),
        };
        self.count(queue);
        rule
    }
}
