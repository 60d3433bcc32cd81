//! Generated patterns and frames, through `compile` and `matches` and through the plain program.
ghost use Rattle.std.specs.Prelude.{◌<◌};

use super::plain::{fault_of, is_match};
use super::{ALLOWED, KINDS};
use arrayvec::ArrayVec;
use packet_headers::{ItemKind, Key, Layer, parse};
use pattern_items::{Fields, Item, MAX_ITEMS, Pattern, compile};
use rand_core::utils::NextWord;
use rand_pcg::Pcg32;
use std::alloc::{AllocError, Global};
use std::process::Abort;
use std::test::Fail;
use test_frames::{
    DOUBLE_TAGGED_UDP_FRAME, IPV6_FRAME, RSS_CHECK_FRAME, RUNT_FRAME, TAGGED_UDP_FRAME, UDP_FRAME,
    VXLAN_FRAME,
};

const ROUNDS: u32 = 20000;

/// How many items a generated pattern has at most.
const MAX_MADE_ITEMS: u32 = 8;

fn below(random: &mut Pcg32, limit: u32) -> u32
    requires { 0 < limit }
    ensures { result < limit }
{
    let word: u32 = random.next_word();
    word % limit
}

/// One of the named frames, and sometimes one that differs from it in a few bytes.
fn frame(alloc: Global, random: &mut Pcg32) -> Result<Vec<u8>, AllocError> {
    let named: &[u8] = match below(random, 8) {
        0 => &UDP_FRAME,
        1 => &TAGGED_UDP_FRAME,
        2 => &DOUBLE_TAGGED_UDP_FRAME,
        3 => &RUNT_FRAME,
        4 => &RSS_CHECK_FRAME,
        5 => &IPV6_FRAME,
        _ => &VXLAN_FRAME,
    };
    let mut frame = Vec::new(alloc);
    for byte in named {
        frame.push(*byte)?;
    }
    for _change in 0..below(random, 3) {
        let place = below(random, 110) as usize;
        if place < frame.len() {
            frame[place] = below(random, 256) as u8;
        }
    }
    Ok(frame)
}

fn layers(alloc: Global, key: &Key) -> Result<Vec<Layer>, AllocError> {
    let mut layers = Vec::new(alloc);
    for i in 0..key.len() {
        layers.push(key.layer(i))?;
    }
    Ok(layers)
}

/// The numbers of the first layer of this kind.
fn numbers(kind: ItemKind, layers: &[Layer]) -> Fields {
    match layers.iter().find(|layer| layer.kind == kind) {
        Some(layer) => Fields { v: layer.v },
        None => Fields::default(),
    }
}

/// Sometimes the same numbers, and sometimes some that are a little greater or smaller.
fn near(random: &mut Pcg32, fields: Fields) -> Fields {
    let mut near = fields;
    if below(random, 3) != 0 {
        let place = below(random, 6) as usize;
        let other = below(random, 4) as u128;
        near.v[place] = match below(random, 3) {
            0 => near.v[place].saturating_add(other),
            1 => near.v[place].saturating_sub(other),
            _ => other,
        };
    }
    near
}

fn mask(random: &mut Pcg32) -> Fields {
    let mut mask = Fields::default();
    for field in mask.v.iter_mut() {
        *field = match below(random, 4) {
            0 => 0,
            1 => u128::MAX,
            2 => u128::MAX << 8,
            _ => below(random, 256) as u128,
        };
    }
    mask
}

fn item(random: &mut Pcg32, kind: ItemKind, layers: &[Layer]) -> Item {
    let wanted = numbers(kind, layers);
    let has_spec = below(random, 2) == 0;
    let others = if has_spec { 2 } else { 24 };
    Item {
        kind,
        given: if has_spec {
            Some(near(random, wanted))
        } else {
            None
        },
        last: if below(random, others) == 0 {
            Some(near(random, wanted))
        } else {
            None
        },
        mask: if below(random, others) == 0 {
            Some(mask(random))
        } else {
            None
        },
    }
}

/// Mostly a kind that may stand behind this one.
fn next_kind(random: &mut Pcg32, last: usize) -> usize {
    let next = below(random, 8) as usize;
    if last < 8 && ALLOWED[last][next] == 0 {
        return below(random, 8) as usize;
    }
    next
}

fn pattern(random: &mut Pcg32, layers: &[Layer]) -> Pattern {
    let mut items = ArrayVec::new();
    let mut last = 0;
    for _item in 0..below(random, MAX_MADE_ITEMS) {
        last = next_kind(random, last);
        if last < 8 && items.len() < MAX_ITEMS {
            items.push(item(random, KINDS[last], layers));
        }
    }
    Pattern { items, more: 0 }
}

/// How many patterns matched, did not match, and were refused.
#[derive(Clone, Copy, Default)]
struct Counts {
    matched: u32,
    others: u32,
    refused: u32,
}

fn is_the_plain_answer(
    rt: &impl Abort,
    counts: &mut Counts,
    pattern: &Pattern,
    key: &Key,
    layers: &[Layer],
) {
    let items = pattern.items.as_slice();
    let fault = fault_of(items);
    let Ok(test) = compile(pattern) else {
        assert!(rt; fault.is_some());
        assert_eq!(rt; compile(pattern).err(), fault);
        counts.refused = counts.refused.saturating_add(1);
        return;
    };
    assert_eq!(rt; fault, None);
    let matched = test.matches(key);
    assert_eq!(rt; matched, is_match(items, layers));
    if matched {
        counts.matched = counts.matched.saturating_add(1);
    } else {
        counts.others = counts.others.saturating_add(1);
    }
}

#[test]
fn compiled_tests_answer_as_the_plain_program(rt: HostRuntime) -> Result<(), Fail> {
    let mut random = Pcg32::new(20, 26);
    let mut counts = Counts::default();
    for _round in 0..ROUNDS {
        let frame = frame(rt.alloc(), &mut random)?;
        let key = parse(&frame);
        let layers = layers(rt.alloc(), &key)?;
        let pattern = pattern(&mut random, &layers);
        is_the_plain_answer(&rt, &mut counts, &pattern, &key, &layers);
    }
    assert!(rt; counts.matched > 2000);
    assert!(rt; counts.others > 2000);
    assert!(rt; counts.refused > 2000);
    Ok(())
}
