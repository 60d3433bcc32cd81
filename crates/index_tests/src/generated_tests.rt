//! An index beside a plain list, driven by the same generated inserts, removes, clears and look-ups.
//!
//! A pattern is made of the layers of a frame, so that many of them match: some of its kinds, and for each field the frame's
//! own number or another one, by one of several masks, or a range from it on.
use crate::made::{made, put};
use arrayvec::ArrayVec;
use flow_rules::Rule;
use packet_headers::{ItemKind, Key, Layer, parse};
use pattern_items::{Fields, Item};
use rand_core::utils::NextWord;
use rand_pcg::Pcg32;
use rule_index::RuleIndex;
use std::alloc::AllocError;
use std::process::Abort;
use std::test::Fail;
use test_frames::{
    DOUBLE_TAGGED_UDP_FRAME, IPV6_FRAME, RSS_CHECK_FRAME, TAGGED_UDP_FRAME, UDP_FRAME, VXLAN_FRAME,
};
use test_rules::any;

const STEPS: u64 = 3_000;

/// So many ids, so that the list stays short.
const IDS: u32 = 64;

const GROUPS: u32 = 2;

const PRIORITIES: u32 = 3;

/// The best rule of a plain scan.
fn plain_best(plain: &[Rule], group: u32, key: &Key) -> Option<u32> {
    let mut best: Option<&Rule> = None;
    for rule in plain {
        if rule.group() != group {
            continue;
        }
        if !rule.test().matches(key) {
            continue;
        }
        best = match best {
            None => Some(rule),
            Some(other) if rule.priority() < other.priority() => Some(rule),
            Some(other) => Some(other),
        };
    }
    match best {
        None => None,
        Some(rule) => Some(rule.id()),
    }
}

fn mask_by(word: u32) -> u128 {
    match word % 6 {
        0 | 1 | 2 => 0,
        3 => u128::MAX,
        4 => u128::MAX << 8,
        _ => 0xf0f0_f0f0_f0f0,
    }
}

/// The end of a range, in one of eight cases.
fn last_by(given: &Fields, word: u32) -> Option<Fields> {
    if word % 8 != 0 {
        return None;
    }
    let mut last = *given;
    for number in &mut last.v {
        *number = number.wrapping_add(2);
    }
    Some(last)
}

/// An item that asks for some of a layer's numbers.
fn item_by(layer: &Layer, random: &mut Pcg32) -> Item {
    let way: u32 = random.next_word();
    if way % 4 == 0 {
        return any(layer.kind);
    }
    let mut given = Fields { v: layer.v };
    let mut mask = Fields { v: [0; 6] };
    for field in 0..6 {
        let word: u32 = random.next_word();
        mask.v[field] = mask_by(word);
        given.v[field] ^= if word / 8 % 16 == 0 { 1 } else { 0 };
    }
    Item {
        kind: layer.kind,
        given: Some(given),
        last: last_by(&given, way / 4),
        mask: Some(mask),
    }
}

/// Items of some of a key's layers: a row of them, mostly without tags.
fn items_by(key: &Key, random: &mut Pcg32) -> ArrayVec<Item, 16> {
    let mut items = ArrayVec::new();
    let word: u32 = random.next_word();
    let first = word as usize % 3;
    let until = first + 1 + (word / 3) as usize % 3;
    for place in first..until {
        if place >= key.len() {
            break;
        }
        if items.len() >= 16 {
            break;
        }
        let layer = key.layer(place);
        if layer.kind == ItemKind::Vlan && word / 16 % 3 != 0 {
            continue;
        }
        items.push(item_by(&layer, random));
    }
    items
}

/// Puts a rule into both, where it has no fault and its id is new.
fn put_beside(
    rt: &impl Abort,
    index: &mut RuleIndex,
    plain: &mut Vec<Rule>,
    key: &Key,
    random: &mut Pcg32,
) -> Result<(), AllocError> {
    let word: u32 = random.next_word();
    let items = items_by(key, random);
    let group = word / IDS % GROUPS;
    let priority = word / 1024 % PRIORITIES;
    let Some(rule) = made(rt, word % IDS, group, priority, items.as_slice()) else {
        return Ok(());
    };
    if index.rule(rule.id()).is_some() {
        return Ok(());
    }
    put(rt, index, &rule)?;
    plain.push(rule)?;
    Ok(())
}

/// Takes the rule of an id out of both.
fn remove_beside(index: &mut RuleIndex, plain: &mut Vec<Rule>, id: u32) {
    index.remove(id);
    plain.retain(|rule| rule.id() != id);
}

fn agree(rt: &impl Abort, index: &RuleIndex, plain: &[Rule], keys: &[Key]) {
    assert_eq!(rt; index.len(), plain.len());
    for key in keys {
        for group in 0..GROUPS {
            assert_eq!(rt; index.best(group, key), plain_best(plain, group, key));
        }
    }
}

#[test]
fn an_index_is_a_plain_list(rt: HostRuntime) -> Result<(), Fail> {
    let all_keys = [
        parse(&UDP_FRAME),
        parse(&TAGGED_UDP_FRAME),
        parse(&DOUBLE_TAGGED_UDP_FRAME),
        parse(&RSS_CHECK_FRAME),
        parse(&IPV6_FRAME),
        parse(&VXLAN_FRAME),
    ];
    let keys = &all_keys[..];
    let mut index = RuleIndex::new(rt.alloc())?;
    let mut plain = Vec::new(rt.alloc());
    let mut random = Pcg32::new(42, 54);
    for _step in 0..STEPS {
        let word: u32 = random.next_word();
        let key = &keys[(word / 1024 % 6) as usize];
        match word % 256 {
            0 => {
                index.clear();
                plain.clear();
            }
            1..=80 => remove_beside(&mut index, &mut plain, word / 256 % IDS),
            _ => put_beside(&rt, &mut index, &mut plain, key, &mut random)?,
        }
        agree(&rt, &index, plain.as_slice(), keys);
    }
    Ok(())
}
