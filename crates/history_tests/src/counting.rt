//! A plain counter beside the adapter: generated calls and frames, and counters that are a fold of the whole history.
//!
//! The adapter keeps running numbers. The plain counter keeps nothing between two looks: it goes over all entries from the
//! first one and takes from each what it tells, so what it expects of a query comes from the history alone.
use crate::frames::{call, key};
use adapter::Adapter;
use arrayvec::ArrayVec;
use flow_actions::{Action, Actions};
use flow_calls::{Caller, EntryView, Op, Parcel, Reply};
use flow_rules::{Attr, Cause, Count, Fault, Limits, RuleSpec};
use packet_headers::ItemKind;
use pattern_items::{Item, Pattern};
use shared_value::Shared;
use std::alloc::{AllocError, Global};
use std::process::Abort;

/// Histories, each with so many calls and frames besides its queries.
const SEEDS: u32 = 6;

const STEPS: u32 = 300;

/// Each look at all counters comes behind so many steps.
const LOOKS: u32 = 5;

/// Calls ask for shared actions at so many ids, from 0 on.
const OBJECTS: u16 = 5;

const LIMITS: Limits = Limits {
    rxq: 4,
    flow_max: 64,
};

/// A rule that took effect, and what its own COUNT stands at.
#[derive(Drop)]
struct PlainRule {
    id: u32,
    spec: Shared<RuleSpec>,
    count: Count,
}

/// A shared action that took effect, and what it stands at where it is COUNT.
#[derive(Drop)]
struct PlainObject {
    id: u16,
    is_count: bool,
    count: Count,
}

/// What the entries so far tell.
#[derive(Drop)]
struct Plain {
    rules: Vec<PlainRule>,
    objects: Vec<PlainObject>,
    /// Rule ids that were given.
    given: u32,
}

const ZERO: Count = Count { hits: 0, bytes: 0 };

/// One more frame of so many bytes.
fn add(count: &mut Count, len: u32) {
    count.hits = count.hits.wrapping_add(1);
    count.bytes = count.bytes.wrapping_add(len as u128);
}

fn add_to_object(objects: &mut Vec<PlainObject>, id: u32, len: u32) {
    for object in objects.iter_mut() {
        if object.id as u32 == id && object.is_count {
            add(&mut object.count, len);
        }
    }
}

/// The counters that a rule's list names.
fn add_by_list(rule: &mut PlainRule, objects: &mut Vec<PlainObject>, len: u32) {
    for action in rule.spec.get().actions.list.as_slice() {
        match action {
            Action::Count => add(&mut rule.count, len),
            Action::Indirect(id) => add_to_object(objects, *id, len),
            _ => {}
        }
    }
}

fn add_by_rule(plain: &mut Plain, id: u32, len: u32) {
    for rule in plain.rules.iter_mut() {
        if rule.id == id {
            add_by_list(rule, &mut plain.objects, len);
        }
    }
}

fn add_by_path(plain: &mut Plain, path: &[u32], len: u32) {
    for id in path {
        add_by_rule(plain, *id, len);
    }
}

fn took_effect(plain: &mut Plain, id: u32, op: &Op) -> Result<(), AllocError> {
    let Op::Create(spec) = op else {
        return Ok(());
    };
    let spec = spec.clone()?;
    plain.given = id.wrapping_add(1);
    plain.rules.push(PlainRule {
        id,
        spec,
        count: ZERO,
    })?;
    Ok(())
}

fn was_shared(plain: &mut Plain, id: u16, op: &Op) -> Result<(), AllocError> {
    let Op::IndirectCreate { action, .. } = op else {
        return Ok(());
    };
    let is_count = is_own_count(action.get());
    plain.objects.push(PlainObject {
        id,
        is_count,
        count: ZERO,
    })?;
    Ok(())
}

fn is_own_count(action: &Action) -> bool {
    match action {
        Action::Count => true,
        _ => false,
    }
}

/// What an accepted call does. An update keeps the action's kind, so it changes nothing here.
fn fold_call(plain: &mut Plain, op: &Op, reply: &Reply) -> Result<(), AllocError> {
    match reply {
        Reply::Created(id) => took_effect(plain, *id, op)?,
        Reply::IndirectCreated(id) => was_shared(plain, *id, op)?,
        Reply::Destroyed(id) => plain.rules.retain(|rule| rule.id != *id),
        Reply::IndirectDestroyed(id) => plain.objects.retain(|object| object.id != *id),
        Reply::Flushed => plain.rules.clear(),
        _ => {}
    }
    Ok(())
}

fn fold_entry(plain: &mut Plain, entry: &EntryView<'_>) -> Result<(), AllocError> {
    match entry {
        EntryView::Asked { call, reply, .. } => fold_call(plain, &call.op, reply)?,
        EntryView::Passed {
            parcel,
            verdict,
            ..
        } => add_by_path(plain, verdict.path.as_slice(), parcel.len),
    }
    Ok(())
}

/// All entries, from the first one.
fn fold(alloc: Global, adapter: &Adapter) -> Result<Plain, AllocError> {
    let mut plain = Plain {
        rules: Vec::new(alloc),
        objects: Vec::new(alloc),
        given: 0,
    };
    for place in 0..adapter.entries() {
        fold_entry(&mut plain, &adapter.entry(place))?;
    }
    Ok(plain)
}

/// What is counted, or why nothing is.
type Told = Result<Count, Fault>;

const fn refused(cause: Cause) -> Told {
    Err(Fault { cause, at: 0 })
}

fn has_count(spec: &RuleSpec) -> bool {
    spec.actions
        .list
        .as_slice()
        .iter()
        .any(|action| is_own_count(action))
}

fn due_of_rule(plain: &Plain, id: u32) -> Told {
    for rule in plain.rules.as_slice() {
        if rule.id == id {
            return told_by(has_count(rule.spec.get()), rule.count);
        }
    }
    refused(Cause::NoRule)
}

fn due_of_object(plain: &Plain, id: u16) -> Told {
    for object in plain.objects.as_slice() {
        if object.id == id {
            return told_by(object.is_count, object.count);
        }
    }
    refused(Cause::NoObject)
}

fn told_by(is_counter: bool, count: Count) -> Told {
    if is_counter {
        return Ok(count);
    }
    refused(Cause::NoCounter)
}

/// What a reply to a query tells.
fn told(reply: &Reply) -> Option<Told> {
    match reply {
        Reply::Counted(hits, bytes) => Some(Ok(Count {
            hits: *hits,
            bytes: *bytes,
        })),
        Reply::Fault(fault) => Some(Err(*fault)),
        _ => None,
    }
}

fn ask(adapter: &mut Adapter, op: Op) -> Result<Option<Told>, AllocError> {
    let reply = adapter.step(Caller::SHELL, &call(op))?;
    Ok(told(&reply))
}

/// Each rule id that was given, and the next one, is asked for.
fn look_at_rules(
    rt: &impl Abort,
    adapter: &mut Adapter,
    plain: &Plain,
    look: u32,
) -> Result<(), AllocError> {
    for id in 0..=plain.given {
        let told = ask(adapter, Op::Query(id))?;
        assert!(rt;
            told == Some(due_of_rule(plain, id)),
            "rule {id} at look {look}"
        );
    }
    Ok(())
}

/// Each id of shared actions that calls ask for, and the next one, is asked for.
fn look_at_objects(
    rt: &impl Abort,
    adapter: &mut Adapter,
    plain: &Plain,
    look: u32,
) -> Result<(), AllocError> {
    for id in 0..=OBJECTS {
        let told = ask(adapter, Op::IndirectQuery(id))?;
        assert!(rt;
            told == Some(due_of_object(plain, id)),
            "object {id} at look {look}"
        );
    }
    Ok(())
}

/// Numbers that look like chance.
fn word(seed: u32, place: u32) -> u32 {
    let mixed = seed
        .wrapping_mul(2_654_435_761)
        .wrapping_add(place.wrapping_mul(1_640_531_527));
    (mixed / 32_768 ^ mixed).wrapping_mul(2_246_822_519) / 8
}

const fn attr(group: u32, priority: u32) -> Attr {
    Attr {
        group,
        priority,
        ingress: true,
        egress: false,
        transfer: false,
    }
}

/// No item, or one.
fn pattern(at: u32) -> Pattern {
    let kind = match word(at, 1) % 3 {
        0 => ItemKind::Void,
        1 => ItemKind::Ipv4,
        _ => ItemKind::Udp,
    };
    let mut items = ArrayVec::new();
    items.push(Item {
        kind,
        given: None,
        last: None,
        mask: None,
    });
    Pattern { items, more: 0 }
}

fn own_count(at: u32) -> Action {
    if word(at, 2) % 3 == 0 {
        return Action::Void;
    }
    Action::Count
}

/// A shared action, which may exist or not.
fn by_id(at: u32) -> Action {
    if word(at, 3) % 3 == 0 {
        return Action::Void;
    }
    Action::Indirect(word(at, 4) % OBJECTS as u32)
}

/// Where a rule's frames go. Group 1 is the last one.
fn fate(at: u32, group: u32) -> Action {
    match word(at, 5) % 6 {
        0 => Action::Drop,
        1 => Action::Queue((word(at, 6) % 4) as u16),
        2 => Action::Void,
        _ if group == 0 => Action::Jump(1),
        _ => Action::Void,
    }
}

fn rule(at: u32) -> RuleSpec {
    let group = word(at, 7) % 2;
    let mut list = ArrayVec::new();
    list.push(own_count(at));
    list.push(by_id(at));
    list.push(fate(at, group));
    list.push(by_id(word(at, 8)));
    RuleSpec {
        attr: attr(group, word(at, 18) % 4),
        pattern: pattern(at),
        actions: Actions { list, more: 0 },
    }
}

/// An action that rules can share.
fn object(at: u32) -> Action {
    match word(at, 9) % 3 {
        0 => Action::Queue((word(at, 10) % 4) as u16),
        _ => Action::Count,
    }
}

fn object_id(at: u32) -> u16 {
    (word(at, 11) % OBJECTS as u32) as u16
}

/// An id, or none, so that the least that isn't in use is given.
fn asked_id(at: u32) -> Option<u16> {
    if word(at, 12) % 4 == 0 {
        return None;
    }
    Some(object_id(at))
}

fn op_on_object(alloc: Global, at: u32) -> Result<Op, AllocError> {
    Ok(match word(at, 13) % 4 {
        0 => Op::IndirectDestroy(object_id(at)),
        1 => Op::IndirectUpdate {
            id: object_id(at),
            action: Shared::new(alloc, object(at))?,
        },
        _ => Op::IndirectCreate {
            id: asked_id(at),
            attr: attr(0, 0),
            action: Shared::new(alloc, object(at))?,
        },
    })
}

/// A call on rules or on shared actions.
fn op(alloc: Global, at: u32) -> Result<Op, AllocError> {
    Ok(match word(at, 14) % 64 {
        0 => Op::Flush,
        1..=11 => Op::Destroy(word(at, 15) % 32),
        12..=31 => op_on_object(alloc, at)?,
        _ => Op::Create(Shared::new(alloc, rule(at))?),
    })
}

fn pass(adapter: &mut Adapter, at: u32) -> Result<(), AllocError> {
    let parcel = Parcel {
        number: 1,
        key: key(at),
        len: word(at, 16),
    };
    let verdict = adapter.verdict(&parcel.key);
    adapter.packet(Caller(9), &parcel, &verdict)
}

/// A frame or a call.
fn take_step(alloc: Global, adapter: &mut Adapter, at: u32) -> Result<(), AllocError> {
    if word(at, 17) % 2 == 0 {
        return pass(adapter, at);
    }
    let op = op(alloc, at)?;
    adapter.step(Caller::SHELL, &call(op))?;
    Ok(())
}

fn take_steps(alloc: Global, adapter: &mut Adapter, from: u32) -> Result<(), AllocError> {
    for step in 0..LOOKS {
        take_step(alloc, adapter, word(from, step))?;
    }
    Ok(())
}

fn hits_of_rules(plain: &Plain) -> u64 {
    let mut hits: u64 = 0;
    for rule in plain.rules.as_slice() {
        hits = hits.wrapping_add(rule.count.hits);
    }
    hits
}

fn hits_of_objects(plain: &Plain) -> u64 {
    let mut hits: u64 = 0;
    for object in plain.objects.as_slice() {
        hits = hits.wrapping_add(object.count.hits);
    }
    hits
}

/// All counters are asked for: how often rules, and shared actions, have counted.
fn look_at_all(
    rt: &impl Abort,
    alloc: Global,
    adapter: &mut Adapter,
    look: u32,
) -> Result<(u64, u64), AllocError> {
    let plain = fold(alloc, adapter)?;
    look_at_rules(rt, adapter, &plain, look)?;
    look_at_objects(rt, adapter, &plain, look)?;
    Ok((hits_of_rules(&plain), hits_of_objects(&plain)))
}

/// Steps, each time with a look at all counters behind them. Counters of both kinds rise on the way.
fn go_on(
    rt: &impl Abort,
    alloc: Global,
    adapter: &mut Adapter,
    seed: u32,
) -> Result<(), AllocError> {
    let mut rules: u64 = 0;
    let mut objects: u64 = 0;
    for look in 0..STEPS / LOOKS {
        take_steps(alloc, adapter, seed.wrapping_mul(STEPS).wrapping_add(look))?;
        let (of_rules, of_objects) = look_at_all(rt, alloc, adapter, look)?;
        rules = rules.wrapping_add(of_rules);
        objects = objects.wrapping_add(of_objects);
    }
    assert!(rt; rules > 0, "no rule counts with seed {seed}");
    assert!(rt; objects > 0, "no shared action counts with seed {seed}");
    Ok(())
}

fn go_through(rt: &impl Abort, alloc: Global, seed: u32) -> Result<(), AllocError> {
    let mut adapter = Adapter::new(alloc, LIMITS)?;
    go_on(rt, alloc, &mut adapter, seed)
}

#[test]
fn counters_are_a_fold_of_the_whole_history(rt: HostRuntime) -> Result<(), AllocError> {
    for seed in 0..SEEDS {
        go_through(&rt, rt.alloc(), seed)?;
    }
    Ok(())
}
