//! A plain judge of histories: it goes over all entries from the first one, keeps the rules in effect in a list, and scans them anew
//! for each frame.
use crate::planned::LIMITS;
use arrayvec::ArrayVec;
use flow_actions::{Action, Fate, Verdict};
use flow_calls::{Op, Reply};
use flow_rules::{Cause, Count, Fault, RuleSpec};
use packet_headers::{ItemKind, Key, Network};
use pattern_items::Item;
use shared_value::Shared;
use std::alloc::{AllocError, Global};

/// A rule in effect, and what its COUNT stands at.
#[derive(Drop)]
struct PlainRule {
    id: u32,
    spec: Shared<RuleSpec>,
    count: Count,
}

/// What the entries so far tell.
#[derive(Drop)]
pub(crate) struct Plain {
    /// The rules in effect, in the order in which they took effect.
    rules: Vec<PlainRule>,
    /// Rule ids that were given.
    given: u32,
    isolated: bool,
}

/// Where a frame is on its way.
#[derive(Drop)]
struct Walk {
    mark: Option<u32>,
    path: ArrayVec<u32, 16>,
    /// The group that comes next, where the way goes on.
    group: Option<u32>,
    fate: Fate,
}

/// The most groups on a way.
const MAX_VISITS: u32 = 16;

/// The address that a frame goes to.
fn address_of(key: &Key) -> Option<u32> {
    match key.outer?.network {
        Network::V4(header) => Some(header.dst),
        _ => None,
    }
}

/// Whether a frame is what an item of these rules asks for.
fn is_asked(item: &Item, key: &Key) -> bool {
    match (item.kind, item.given) {
        (ItemKind::Eth, None) => key.outer.is_some(),
        (ItemKind::Ipv4, Some(fields)) => address_of(key).map(u128::from) == Some(fields.v[4]),
        _ => false,
    }
}

fn takes(spec: &RuleSpec, group: u32, key: &Key) -> bool {
    for item in spec.pattern.items.as_slice() {
        if !is_asked(item, key) {
            return false;
        }
    }
    spec.attr.group == group
}

/// Of the rules that take a frame, the first of the lowest priority number.
fn best<'a>(rules: &'a [PlainRule], group: u32, key: &Key) -> Option<&'a PlainRule> {
    let mut found: Option<&PlainRule> = None;
    for rule in rules {
        if takes(rule.spec.get(), group, key) && comes_before(rule, found) {
            found = Some(rule);
        }
    }
    found
}

fn comes_before(rule: &PlainRule, found: Option<&PlainRule>) -> bool {
    match found {
        Some(other) => rule.spec.get().attr.priority < other.spec.get().attr.priority,
        None => true,
    }
}

fn perform(walk: &mut Walk, action: &Action) {
    match action {
        Action::Mark(mark) => walk.mark = Some(*mark),
        Action::Jump(group) => walk.group = Some(*group),
        Action::Queue(queue) => walk.fate = Fate::Queue((*queue % 256) as u8),
        Action::Drop => walk.fate = Fate::Drop,
        _ => {}
    }
}

/// The rule takes the frame. Without an end it goes to queue 0.
fn visit(walk: &mut Walk, rule: &PlainRule) {
    walk.group = None;
    walk.fate = Fate::Queue(0);
    let _full = walk.path.try_push(rule.id);
    for action in rule.spec.get().actions.list.as_slice() {
        perform(walk, action);
    }
}

impl Plain {
    /// Before the first entry.
    pub(crate) fn new(alloc: Global) -> Plain {
        Plain {
            rules: Vec::new(alloc),
            given: 0,
            isolated: false,
        }
    }

    fn missed(&self) -> Fate {
        if self.isolated {
            return Fate::Drop;
        }
        Fate::Queue(0)
    }

    /// The verdict on a frame of these headers.
    pub(crate) fn verdict(&self, key: &Key) -> Verdict {
        let mut walk = Walk {
            mark: None,
            path: ArrayVec::new(),
            group: Some(0),
            fate: Fate::Drop,
        };
        for _ in 0..MAX_VISITS {
            let Some(group) = walk.group else { break };
            match best(self.rules.as_slice(), group, key) {
                Some(rule) => visit(&mut walk, rule),
                None => {
                    walk.group = None;
                    walk.fate = self.missed();
                }
            }
        }
        Verdict {
            fate: walk.fate,
            mark: walk.mark,
            hash: None,
            path: walk.path,
        }
    }

    /// A frame of so many bytes went this way.
    pub(crate) fn count(&mut self, path: &[u32], len: u32) {
        for rule in self.rules.iter_mut() {
            if path.contains(&rule.id) && counts(rule.spec.get()) {
                rule.count.hits = rule.count.hits.wrapping_add(1);
                rule.count.bytes = rule.count.bytes.wrapping_add(u128::from(len));
            }
        }
    }

    fn find(&self, id: u32) -> Option<&PlainRule> {
        for rule in self.rules.as_slice() {
            if rule.id == id {
                return Some(rule);
            }
        }
        None
    }

    /// Whether this is the reply that is due.
    pub(crate) fn is_due(&self, op: &Op, reply: &Reply) -> bool {
        match op {
            Op::Validate(_) => is_validated(reply),
            Op::Create(_) => self.is_due_to_create(reply),
            Op::Destroy(id) => self.is_due_to_destroy(*id, reply),
            Op::Flush => is_flushed(reply),
            Op::Query(id) => self.is_due_to_query(*id, reply),
            Op::Isolate(on) => is_isolated(reply, *on),
            _ => false,
        }
    }

    fn is_due_to_create(&self, reply: &Reply) -> bool {
        if self.rules.len() >= LIMITS.flow_max as usize {
            return is_fault(reply, Cause::StoreFull);
        }
        match reply {
            Reply::Created(id) => *id == self.given,
            _ => false,
        }
    }

    fn is_due_to_destroy(&self, id: u32, reply: &Reply) -> bool {
        if self.find(id).is_none() {
            return is_fault(reply, Cause::NoRule);
        }
        match reply {
            Reply::Destroyed(gone) => *gone == id,
            _ => false,
        }
    }

    fn is_due_to_query(&self, id: u32, reply: &Reply) -> bool {
        let Some(rule) = self.find(id) else {
            return is_fault(reply, Cause::NoRule);
        };
        if !counts(rule.spec.get()) {
            return is_fault(reply, Cause::NoCounter);
        }
        match reply {
            Reply::Counted(hits, bytes) => {
                *hits == rule.count.hits && *bytes == rule.count.bytes
            }
            _ => false,
        }
    }

    /// Does what a call does that had the reply that was due.
    pub(crate) fn carry_out(&mut self, op: &Op) -> Result<(), AllocError> {
        match op {
            Op::Create(spec) => self.create(spec)?,
            Op::Destroy(id) => self.rules.retain(|rule| rule.id != *id),
            Op::Flush => self.rules.clear(),
            Op::Isolate(on) => self.isolated = *on,
            _ => {}
        }
        Ok(())
    }

    fn create(&mut self, spec: &Shared<RuleSpec>) -> Result<(), AllocError> {
        if self.rules.len() >= LIMITS.flow_max as usize {
            return Ok(());
        }
        let spec = spec.clone()?;
        self.rules.push(PlainRule {
            id: self.given,
            spec,
            count: Count { hits: 0, bytes: 0 },
        })?;
        self.given = self.given.wrapping_add(1);
        Ok(())
    }
}

fn counts(spec: &RuleSpec) -> bool {
    for action in spec.actions.list.as_slice() {
        match action {
            Action::Count => return true,
            _ => {}
        }
    }
    false
}

fn is_validated(reply: &Reply) -> bool {
    match reply {
        Reply::Validated => true,
        _ => false,
    }
}

fn is_flushed(reply: &Reply) -> bool {
    match reply {
        Reply::Flushed => true,
        _ => false,
    }
}

fn is_isolated(reply: &Reply, on: bool) -> bool {
    match reply {
        Reply::Isolated(told) => *told == on,
        _ => false,
    }
}

fn is_fault(reply: &Reply, cause: Cause) -> bool {
    match reply {
        Reply::Fault(fault) => *fault == Fault { cause, at: 0 },
        _ => false,
    }
}
