//! What is counted.
use flow_actions::Action;
use flow_rules::{Attr, Count, Limits};
use indirect_counters::{CounterBank, Indirects};
use std::test::Fail;

#[test]
fn a_bank_counts_frames_and_bytes_by_number(rt: HostRuntime) -> Result<(), Fail> {
    let mut bank = CounterBank::new(rt.alloc(), 3)?;
    bank.add(1, 60);
    bank.add(1, 54);
    bank.add(2, 42);
    assert!(rt; bank.read(0) == (0, 0));
    assert!(rt; bank.read(1) == (2, 114));
    assert!(rt; bank.read(2) == (1, 42));
    bank.reset(1);
    assert!(rt; bank.read(1) == (0, 0));
    assert!(rt; bank.read(2) == (1, 42));
    Ok(())
}

#[test]
fn an_action_counts_frames_and_bytes(rt: HostRuntime) {
    let mut shared = Indirects::new(rt.alloc());
    let attr = Attr {
        group: 0,
        priority: 0,
        ingress: true,
        egress: false,
        transfer: false,
    };
    let limits = Limits {
        rxq: 1,
        flow_max: 1,
    };
    assert!(rt; shared.create(Some(5), &attr, &Action::Count, &limits, false) == Ok(5));
    shared.raise(5, 60);
    shared.raise(5, 54);
    assert!(rt;
        shared.count(5)
            == Some(Count {
                hits: 2,
                bytes: 114
            })
    );
}
