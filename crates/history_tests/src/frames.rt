//! Generated frames of all kinds of headers, on ways of all lengths, through an adapter's history and back. They are entered as they
//! come, with room taken ahead, and packed before.
ghost use Rattle.std.specs.Prelude.{◌≡◌};
ghost use Rattle.port_state.specs.State.{flows_of, state_of};
ghost use Rattle.flow_rules.specs.Walk.{verdict_of};

use adapter::{Adapter, Packed};
use arrayvec::ArrayVec;
use flow_actions::{ALL_RSS_TYPES, Action, Actions, Fate, Rss, Verdict};
use flow_calls::{At, Call, Caller, EntryView, Op, Parcel};
use flow_rules::{Attr, Limits, RuleSpec};
use packet_headers::{
    Eth, Ipv4, Ipv6, Ipv6Address, Key, Network, Stack, Tag, Tags, Tcp, Transport, Tunnel, Udp,
    Vxlan,
};
use pattern_items::Pattern;
use shared_value::Shared;
use std::alloc::{AllocError, Global};
use std::process::Abort;

/// Kinds of tags, network and transport headers, and of keys.
const KEYS: u32 = 3 * 3 * 3 * 4;

/// Ways of 0 to 16 rules, each to nowhere, to a queue, or to one that a hash chooses, with a mark and without.
const WAYS: u32 = 17 * 3 * 2;

/// A number of the frame of a seed.
fn word(seed: u32, place: u32) -> u32 {
    seed.wrapping_mul(2_654_435_761)
        .wrapping_add(place.wrapping_mul(1_640_531_527))
}

fn half(seed: u32, place: u32) -> u16 {
    (word(seed, place) % 65_536) as u16
}

fn byte(seed: u32, place: u32) -> u8 {
    (word(seed, place) / 65_536 % 256) as u8
}

fn eth(seed: u32) -> Eth {
    Eth {
        dst: word(seed, 1) as u64 * 65_536,
        src: word(seed, 2) as u64 * 65_535,
        ether_type: half(seed, 3),
        has_vlan: byte(seed, 4) % 2 == 0,
        offset: byte(seed, 5),
    }
}

fn tag(seed: u32) -> Tag {
    Tag {
        vid: half(seed, 6),
        inner_type: half(seed, 7),
        pcp: byte(seed, 8),
        dei: byte(seed, 9),
        has_more_vlan: byte(seed, 10) % 2 == 0,
        offset: byte(seed, 11),
    }
}

fn tags(seed: u32) -> Tags {
    match seed % 3 {
        0 => Tags::None,
        1 => Tags::One(tag(seed)),
        _ => Tags::Two(tag(seed), tag(seed / 2)),
    }
}

fn ipv4(seed: u32) -> Ipv4 {
    Ipv4 {
        src: word(seed, 12),
        dst: word(seed, 13),
        tos: byte(seed, 14),
        ttl: byte(seed, 15),
        proto: byte(seed, 16),
        offset: byte(seed, 17),
    }
}

fn address(seed: u32, place: u32) -> Ipv6Address {
    Ipv6Address::new((word(seed, place) as u128) << 64 | word(seed, place / 2) as u128)
}

fn ipv6(seed: u32) -> Ipv6 {
    Ipv6 {
        src: address(seed, 18),
        dst: address(seed, 19),
        flow: word(seed, 20),
        tc: byte(seed, 21),
        proto: byte(seed, 22),
        hop: byte(seed, 23),
        offset: byte(seed, 24),
    }
}

fn network(seed: u32) -> Network {
    match seed / 3 % 3 {
        0 => Network::None,
        1 => Network::V4(ipv4(seed)),
        _ => Network::V6(ipv6(seed)),
    }
}

fn transport(seed: u32) -> Transport {
    match seed / 9 % 3 {
        0 => Transport::None,
        1 => Transport::Tcp(Tcp {
            src: half(seed, 25),
            dst: half(seed, 26),
            flags: byte(seed, 27),
            offset: byte(seed, 28),
        }),
        _ => Transport::Udp(Udp {
            src: half(seed, 29),
            dst: half(seed, 30),
            offset: byte(seed, 31),
        }),
    }
}

fn stack(seed: u32) -> Stack {
    Stack {
        eth: eth(seed),
        network: network(seed),
        tags: tags(seed),
        transport: transport(seed),
    }
}

fn tunnel(seed: u32, inner: Option<Stack>) -> Tunnel {
    Tunnel {
        inner,
        vxlan: Vxlan {
            vni: word(seed, 32),
            offset: byte(seed, 33),
        },
    }
}

/// A frame without headers, without VXLAN, with VXLAN and nothing behind it, or with a frame behind it.
pub(crate) fn key(seed: u32) -> Key {
    let outer = Some(stack(seed));
    match seed / 27 % 4 {
        0 => Key {
            outer: None,
            tunnel: None,
        },
        1 => Key {
            outer,
            tunnel: None,
        },
        2 => Key {
            outer,
            tunnel: Some(tunnel(seed, None)),
        },
        _ => Key {
            outer,
            tunnel: Some(tunnel(seed, Some(stack(seed / 2)))),
        },
    }
}

/// How many rules take a frame on a way.
const fn rules_of(way: u32) -> u32 {
    way / 6
}

const fn is_marked(way: u32) -> bool {
    way / 3 % 2 == 1
}

/// What ends a way.
fn end_of(way: u32) -> Action {
    match way % 3 {
        0 => Action::Drop,
        1 => Action::Queue((way / 6 % 16) as u16),
        _ => Action::Rss(Rss {
            queues: ArrayVec::new(),
            types: ALL_RSS_TYPES,
        }),
    }
}

/// What the rule of a group does: the first one marks the frame, each but the last sends it on, and the last one ends its way.
fn actions_of(way: u32, group: u32) -> Actions {
    let mut list = ArrayVec::new();
    if group == 0 && is_marked(way) {
        list.push(Action::Mark(word(way, 40)));
    }
    if group.saturating_add(1) < rules_of(way) {
        list.push(Action::Jump(group.saturating_add(1)));
    } else {
        list.push(end_of(way));
    }
    Actions { list, more: 0 }
}

/// The rule of a group, which takes each frame.
fn rule_of(way: u32, group: u32) -> RuleSpec {
    RuleSpec {
        attr: Attr {
            group,
            priority: 0,
            ingress: true,
            egress: false,
            transfer: false,
        },
        pattern: Pattern {
            items: ArrayVec::new(),
            more: 0,
        },
        actions: actions_of(way, group),
    }
}

pub(crate) const fn call(op: Op) -> Call {
    Call {
        at: At { line: 1, part: 1 },
        op,
    }
}

/// How many ids are given before those of the rules of a way.
const fn ids_before(way: u32) -> u32 {
    way % 7
}

fn ask(adapter: &mut Adapter, op: Op) -> Result<(), AllocError> {
    adapter.step(Caller::SHELL, &call(op))?;
    Ok(())
}

fn create(alloc: Global, adapter: &mut Adapter, spec: RuleSpec) -> Result<(), AllocError> {
    let rule = Shared::new(alloc, spec)?;
    ask(adapter, Op::Create(rule))
}

/// Rules come and go, so that the next has a later id.
fn give_ids(alloc: Global, adapter: &mut Adapter, way: u32) -> Result<(), AllocError> {
    for id in 0..ids_before(way) {
        create(alloc, adapter, rule_of(1, 0))?;
        ask(adapter, Op::Destroy(id))?;
    }
    Ok(())
}

/// The rules of a way take effect, the last one first.
fn create_all(alloc: Global, adapter: &mut Adapter, way: u32) -> Result<(), AllocError> {
    for behind in 0..rules_of(way) {
        let group = rules_of(way).saturating_sub(1).saturating_sub(behind);
        create(alloc, adapter, rule_of(way, group))?;
    }
    Ok(())
}

/// An adapter gets the rules of a way. Where it has none, a frame is dropped in isolated mode alone.
fn prepare(alloc: Global, adapter: &mut Adapter, way: u32) -> Result<(), AllocError> {
    ask(adapter, Op::Isolate(way % 3 == 0))?;
    give_ids(alloc, adapter, way)?;
    create_all(alloc, adapter, way)
}

/// An adapter with the rules of a way.
fn adapter_of(alloc: Global, way: u32) -> Result<Adapter, AllocError> {
    let limits = Limits {
        rxq: 16,
        flow_max: 4096,
    };
    let mut adapter = Adapter::new(alloc, limits)?;
    prepare(alloc, &mut adapter, way)?;
    Ok(adapter)
}

/// A verdict tells the end of a way, with a hash only where one chose the queue.
fn tells_end(rt: &impl Abort, verdict: &Verdict, way: u32) {
    let is_hashed = rules_of(way) > 0 && way % 3 == 2;
    assert_eq!(rt; verdict.hash.is_some(), is_hashed, "hash of way {way}");
    assert_eq!(rt;
        verdict.fate == Fate::Drop,
        way % 3 == 0,
        "fate of way {way}"
    );
}

/// A verdict tells the rules of a way: the later a group, the lower the id.
fn tells_path(rt: &impl Abort, verdict: &Verdict, way: u32) {
    let path = verdict.path.as_slice();
    assert_eq!(rt; path.len(), rules_of(way) as usize, "rules of way {way}");
    let mut id = ids_before(way).saturating_add(rules_of(way));
    for told in path {
        id = id.saturating_sub(1);
        assert_eq!(rt; *told, id, "way {way}");
    }
}

/// A verdict tells the mark of a way.
fn tells_mark(rt: &impl Abort, verdict: &Verdict, way: u32) {
    let mark = if rules_of(way) > 0 && is_marked(way) {
        Some(word(way, 40))
    } else {
        None
    };
    assert_eq!(rt; verdict.mark, mark, "mark of way {way}");
}

/// Two keys have the same layers at the same offsets.
fn same_keys(rt: &impl Abort, shown: &Key, made: &Key) {
    assert_eq!(rt; shown.len(), made.len());
    for i in 0..made.len() {
        assert_eq!(rt; shown.layer(i), made.layer(i));
        assert_eq!(rt; shown.offset(i), made.offset(i));
    }
}

fn same_verdicts(rt: &impl Abort, shown: &Verdict, made: &Verdict) {
    assert_eq!(rt; shown.fate, made.fate);
    assert_eq!(rt; shown.mark, made.mark);
    assert_eq!(rt; shown.hash, made.hash);
    assert_eq!(rt; shown.path.as_slice(), made.path.as_slice());
}

fn same_frames(rt: &impl Abort, shown: &Parcel, made: &Parcel) {
    assert_eq!(rt; shown.number, made.number);
    assert_eq!(rt; shown.len, made.len);
    same_keys(rt, &shown.key, &made.key);
}

/// Whether this frame with this verdict is what is shown.
fn is_shown(rt: &impl Abort, entry: &EntryView<'_>, parcel: &Parcel, verdict: &Verdict) -> bool {
    let EntryView::Passed {
        caller,
        parcel: shown,
        verdict: said,
    } = entry
    else {
        return false;
    };
    same_frames(rt, shown, parcel);
    same_verdicts(rt, said, verdict);
    *caller == Caller(24)
}

/// Enters a frame that room was taken for.
fn enter_with_room(
    adapter: &mut Adapter,
    parcel: &Parcel,
    verdict: &Verdict,
) -> Result<(), AllocError>
    requires { verdict.now ≡ verdict_of (flows_of (state_of adapter.old.limits adapter.old.history)) parcel.now.key }
{
    adapter.reserve(0, 1)?;
    adapter.packet(Caller(24), parcel, verdict)
}

/// Enters a frame that was packed before.
fn enter_packed(
    alloc: Global,
    adapter: &mut Adapter,
    parcel: &Parcel,
    verdict: &Verdict,
) -> Result<(), AllocError>
    requires { verdict.now ≡ verdict_of (flows_of (state_of adapter.old.limits adapter.old.history)) parcel.now.key }
{
    let packed = Packed::new(alloc, Caller(24), parcel, verdict)?;
    let mut frames = Vec::new(alloc);
    frames.push(packed)?;
    adapter.burst(frames)
}

/// Enters a frame in one of three ways.
fn enter(
    alloc: Global,
    adapter: &mut Adapter,
    parcel: &Parcel,
    verdict: &Verdict,
) -> Result<(), AllocError>
    requires { verdict.now ≡ verdict_of (flows_of (state_of adapter.old.limits adapter.old.history)) parcel.now.key }
{
    match parcel.number % 5 {
        0 => adapter.packet(Caller(24), parcel, verdict),
        1 | 2 => enter_with_room(adapter, parcel, verdict),
        _ => enter_packed(alloc, adapter, parcel, verdict),
    }
}

/// Lets a frame pass, and compares it with what is shown of it.
fn passes(
    rt: &impl Abort,
    alloc: Global,
    adapter: &mut Adapter,
    seed: u32,
) -> Result<(), AllocError> {
    let parcel = Parcel {
        number: seed,
        key: key(seed),
        len: word(seed, 37),
    };
    let verdict = adapter.verdict(&parcel.key);
    let way = seed / KEYS;
    tells_end(rt, &verdict, way);
    tells_path(rt, &verdict, way);
    tells_mark(rt, &verdict, way);
    let place = adapter.entries();
    enter(alloc, adapter, &parcel, &verdict)?;
    assert!(rt; place < adapter.entries());
    let is_same = is_shown(rt, &adapter.entry(place), &parcel, &verdict);
    assert!(rt; is_same, "frame {seed}");
    Ok(())
}

#[test]
fn frames_of_all_kinds_are_shown_as_they_passed(rt: HostRuntime) -> Result<(), AllocError> {
    for way in 0..WAYS {
        let mut adapter = adapter_of(rt.alloc(), way)?;
        for kind in 0..KEYS {
            passes(&rt, rt.alloc(), &mut adapter, way * KEYS + kind)?;
        }
    }
    Ok(())
}
