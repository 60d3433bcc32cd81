//! Frames as they leave, row by row, and replicas that catch up in parts.
ghost use Rattle.std.specs.Prelude.{◌≡◌, IfOk, [], ◌∷◌, true};
ghost use Rattle.flow_rules.specs.declared.change.Change.TheVariants as changes;
ghost use Rattle.flow_rules.specs.Lawful.{AreLawful};

use crate::made::{ID, LIMITS, rule};
use flow_actions::Fate;
use flow_rules::Change;
use packet_headers::{Edit, parse};
use replica::Replica;
use shared_value::Shared;
use std::alloc::{AllocError, Global};
use std::process::Abort;
use std::test::Fail;
use test_frames::{RUNT_FRAME, UDP_FRAME};

/// A case: its name, the edits of the rule that takes the UDP frame, and each byte that they change.
type Case = (&'static str, &'static [Edit], &'static [(usize, u8)]);

static CASES: [Case; 4] = [
    (
        "TTL 64 falls to 63",
        &[Edit::DecTtl],
        &[(22, 63), (24, 0x63)],
    ),
    (
        "source 10.9.9.9",
        &[Edit::Ipv4Src(0x0a09_0909)],
        &[
            (24, 0x5b),
            (25, 0xa9),
            (27, 9),
            (28, 9),
            (29, 9),
            (40, 0xd8),
            (41, 0x9e),
        ],
    ),
    (
        "TTL 9 falls to 8",
        &[Edit::SetTtl(9), Edit::DecTtl],
        &[(22, 8), (24, 0x9a)],
    ),
    (
        "TTL 63 is set to 9",
        &[Edit::DecTtl, Edit::SetTtl(9)],
        &[(22, 9), (24, 0x99)],
    ),
];

/// The UDP frame in which these bytes are others.
fn changed(rt: &impl Abort, changes: &[(usize, u8)]) -> [u8; 60] {
    let mut frame = UDP_FRAME;
    for (place, byte) in changes {
        assert!(rt; *place < frame.len());
        frame[*place] = *byte;
    }
    frame
}

/// A replica at version 1: a rule does these edits.
fn replica_at_1(rt: &impl Abort, alloc: Global, edits: &[Edit]) -> Result<Replica, AllocError>
    ensures version { IfOk result (λ replica. replica.version ≡ 1) }
    ensures next { IfOk result (λ replica. AreLawful replica.limits replica.flows (changes.Isolated true ∷ [])) }
{
    let mut replica = Replica::new(alloc, LIMITS)?;
    let rule = Shared::new(alloc, rule(rt, edits))?;
    replica.catch_up(&[Change::Added(rule)])?;
    Ok(replica)
}

#[test]
fn frames_leave_as_their_rules_edit_them(rt: HostRuntime) -> Result<(), Fail> {
    for (name, edits, changes) in &CASES {
        let replica = replica_at_1(&rt, rt.alloc(), edits)?;
        let mut frame = UDP_FRAME;
        replica.rewrite(&parse(&UDP_FRAME), &mut frame);
        assert!(rt; frame == changed(&rt, changes), "{name}");
    }
    Ok(())
}

/// Whether the replica is at version 2, where a rule takes the UDP frame, and what no rule takes is dropped.
fn is_at_2(rt: &impl Abort, replica: &Replica) {
    assert_eq!(rt; replica.version(), 2);
    let taken = replica.classify(&parse(&UDP_FRAME));
    assert_eq!(rt; taken.fate, Fate::Queue(0));
    assert_eq!(rt; taken.path.as_slice(), [ID].as_slice());
    let missed = replica.classify(&parse(&RUNT_FRAME));
    assert_eq!(rt; missed.fate, Fate::Drop);
}

#[test]
fn changes_come_at_once_or_in_parts(rt: HostRuntime) -> Result<(), Fail> {
    let mut at_once = Replica::new(rt.alloc(), LIMITS)?;
    let rule = Shared::new(rt.alloc(), rule(&rt, &[]))?;
    at_once.catch_up(&[Change::Added(rule), Change::Isolated(true)])?;
    is_at_2(&rt, &at_once);
    let mut in_parts = replica_at_1(&rt, rt.alloc(), &[])?;
    in_parts.catch_up(&[Change::Isolated(true)])?;
    is_at_2(&rt, &in_parts);
    Ok(())
}
