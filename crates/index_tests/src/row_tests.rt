//! Which rule is the best, row by row, and how many rules are compared.
ghost use Rattle.std.specs.Prelude.{◌<◌};

use crate::made::{asks, put, put_shared, rule};
use flow_rules::Rule;
use packet_headers::{ItemKind, parse};
use pattern_items::Fields;
use rule_index::RuleIndex;
use std::alloc::{AllocError, Global};
use std::process::Abort;
use std::sync::Arc;
use std::test::Fail;
use test_addresses::key_to;
use test_frames::{IPV6_FRAME, UDP_FRAME};
use test_rules::any;

const TTL: usize = 1;

const IPV4_DST: usize = 4;

const IPV6_SRC: usize = 4;

const IPV6_DST: usize = 5;

/// The address 10.1.2.4, to which the UDP frame goes.
const THERE: u128 = 0x0a01_0204;

/// The address 2001:db8::1, from which the IPv6 frame comes.
const FROM: u128 = 0x2001_0db8_0000_0000_0000_0000_0000_0001;

/// The address 2001:db8::ff, to which it goes.
const TO: u128 = 0x2001_0db8_0000_0000_0000_0000_0000_00ff;

enum Step {
    Put(u32),
    Remove(u32),
    Clear,
}

/// The rules of the rows, each by its id.
fn by_id(rt: &impl Abort, id: u32) -> Rule {
    use ItemKind::{Eth, Ipv4, Ipv6};
    match id {
        0 => rule(rt, 0, 0, 1, &[any(Eth), any(Ipv4)]),
        1 => rule(rt, 1, 0, 1, &[asks(Ipv4, IPV4_DST, THERE, 0)]),
        2 => rule(rt, 2, 0, 0, &[asks(Ipv4, IPV4_DST, THERE, 0)]),
        3 => rule(rt, 3, 0, 1, &[asks(Ipv4, TTL, 60, 64)]),
        4 => rule(rt, 4, 0, 0, &[asks(Ipv4, IPV4_DST, THERE + 1, 0)]),
        5 => rule(rt, 5, 1, 0, &[any(Ipv4)]),
        6 => rule(rt, 6, 0, 0, &[asks(Ipv4, TTL, 65, 70)]),
        7 => rule(rt, 7, 0, 1, &[asks(Ipv4, IPV4_DST, THERE, 0)]),
        8 => rule(rt, 8, 0, 5, &[]),
        _ => panic!(rt; "no rule {id}"),
    }
}

fn take_step(rt: &impl Abort, index: &mut RuleIndex, step: &Step) -> Result<(), AllocError> {
    match step {
        Step::Put(id) => put(rt, index, &by_id(rt, *id)),
        Step::Remove(id) => {
            index.remove(*id);
            Ok(())
        }
        Step::Clear => {
            index.clear();
            Ok(())
        }
    }
}

/// An index after these steps.
fn index_behind(rt: &impl Abort, alloc: Global, steps: &[Step]) -> Result<RuleIndex, AllocError> {
    let mut index = RuleIndex::new(alloc)?;
    for step in steps {
        take_step(rt, &mut index, step)?;
    }
    Ok(index)
}

#[test]
fn equal_priorities_keep_the_order_of_inserts(rt: HostRuntime) -> Result<(), Fail> {
    use Step::{Clear, Put, Remove};
    let key = parse(&UDP_FRAME);
    let rows: [(&str, &[Step], Option<u32>); 14] = [
        ("the earlier of two shapes", &[Put(0), Put(1)], Some(0)),
        ("the other way round", &[Put(1), Put(0)], Some(1)),
        ("behind a remove", &[Put(0), Put(1), Remove(0)], Some(1)),
        ("put again", &[Put(0), Put(1), Remove(0), Put(0)], Some(1)),
        ("behind a clear", &[Put(0), Clear, Put(1), Put(0)], Some(1)),
        ("cleared", &[Put(0), Put(3), Clear], None),
        ("a lower number wins", &[Put(0), Put(2)], Some(2)),
        ("a lower number first", &[Put(2), Put(0)], Some(2)),
        ("a range", &[Put(3), Put(1)], Some(3)),
        ("a range that isn't met", &[Put(6), Put(1)], Some(1)),
        ("another address", &[Put(4), Put(1)], Some(1)),
        ("another group", &[Put(5)], None),
        ("twice the same", &[Put(1), Put(7), Remove(1)], Some(7)),
        ("no items", &[Put(8), Put(4)], Some(8)),
    ];
    for (name, steps, want) in rows {
        let index = index_behind(&rt, rt.alloc(), steps)?;
        assert_eq!(rt; index.best(0, &key), want, "{name}");
    }
    Ok(())
}

/// Puts a rule into both of two indexes, without a copy.
fn put_into_both(
    rt: &impl Abort,
    one: &mut RuleIndex,
    other: &mut RuleIndex,
    rule: &Arc<Rule, Global>,
) -> Result<(), AllocError> {
    put_shared(rt, one, rule)?;
    put_shared(rt, other, rule)
}

/// Two indexes that share one rule.
fn two_that_share(alloc: Global, rt: &impl Abort) -> Result<(RuleIndex, RuleIndex), AllocError> {
    let shared = Arc::new(alloc, by_id(rt, 1))?;
    let mut one = RuleIndex::new(alloc)?;
    let mut other = RuleIndex::new(alloc)?;
    put_into_both(rt, &mut one, &mut other, &shared)?;
    Ok((one, other))
}

#[test]
fn two_indexes_share_a_rule(rt: HostRuntime) -> Result<(), Fail> {
    let key = parse(&UDP_FRAME);
    let (mut one, other) = two_that_share(rt.alloc(), &rt)?;
    assert_eq!(rt; one.best(0, &key), Some(1));
    one.remove(1);
    assert_eq!(rt; one.best(0, &key), None);
    assert!(rt; one.rule(1).is_none());
    assert_eq!(rt; other.best(0, &key), Some(1));
    assert!(rt; other.rule(1).is_some());
    Ok(())
}

/// The fields with one more number.
fn with(fields: Option<Fields>, field: usize, number: u128) -> Option<Fields>
    requires { field < 6 }
{
    let Some(mut fields) = fields else {
        return None;
    };
    fields.v[field] = number;
    Some(fields)
}

#[test]
fn values_of_more_than_128_bits_are_compared(rt: HostRuntime) -> Result<(), Fail> {
    use ItemKind::Ipv6;
    let key = parse(&IPV6_FRAME);
    let rows = [
        (FROM, TO, Some(3)),
        (TO, TO, None),
        (FROM, FROM, None),
        (FROM + 1, TO, None),
    ];
    for (from, to, want) in rows {
        let mut both = asks(Ipv6, IPV6_SRC, from, 0);
        both.given = with(both.given, IPV6_DST, to);
        both.mask = with(both.mask, IPV6_DST, u128::MAX);
        let mut index = RuleIndex::new(rt.alloc())?;
        put(&rt, &mut index, &rule(&rt, 3, 0, 0, &[both]))?;
        assert_eq!(rt; index.best(0, &key), want);
    }
    Ok(())
}

/// The first of the addresses.
const FIRST: u32 = 0x0a00_0000;

#[test]
fn index_compares(rt: HostRuntime) -> Result<(), Fail> {
    let mut index = RuleIndex::new(rt.alloc())?;
    for n in 0..65_536u32 {
        let items = [asks(ItemKind::Ipv4, IPV4_DST, (FIRST + n) as u128, 0)];
        put(&rt, &mut index, &rule(&rt, n, 0, 0, &items))?;
    }
    let mut seen = 0;
    for n in 0..4_096u32 {
        let best = index.best_counted(0, &key_to(&UDP_FRAME, FIRST + n * 16), &mut seen);
        assert_eq!(rt; best, Some(n * 16));
    }
    assert!(rt; seen >= 4_096);
    assert!(rt; seen <= 65_536);
    Ok(())
}
