//! What stands at an id.
use flow_actions::{Action, ActionKind};
use flow_rules::{Attr, Cause, Count, Fault, Known, Limits, TplFault};
use indirect_counters::Indirects;

const LIMITS: Limits = Limits {
    rxq: 3,
    flow_max: 64,
};

const INGRESS: Attr = Attr {
    group: 0,
    priority: 0,
    ingress: true,
    egress: false,
    transfer: false,
};

fn refused(cause: Cause) -> Result<u16, TplFault> {
    Err(TplFault::Fault(Fault { cause, at: 0 }))
}

#[test]
fn the_least_id_between_two_is_given(rt: HostRuntime) {
    let mut shared = Indirects::new(rt.alloc());
    assert!(rt; shared.create(Some(0), &INGRESS, &Action::Count, &LIMITS, false) == Ok(0));
    assert!(rt; shared.create(Some(2), &INGRESS, &Action::Mark(7), &LIMITS, false) == Ok(2));
    assert!(rt; shared.create(None, &INGRESS, &Action::Queue(1), &LIMITS, false) == Ok(1));
    assert!(rt; shared.create(None, &INGRESS, &Action::Queue(2), &LIMITS, true) == Ok(3));
}

#[test]
fn a_used_action_is_busy_until_it_is_released(rt: HostRuntime) {
    let mut shared = Indirects::new(rt.alloc());
    assert!(rt; shared.create(Some(5), &INGRESS, &Action::Count, &LIMITS, false) == Ok(5));
    shared.adopt(5);
    assert!(rt;
        shared.destroy(5)
            == Err(Fault {
                cause: Cause::Busy,
                at: 0
            })
    );
    shared.release(5);
    assert!(rt; shared.destroy(5) == Ok(()));
    assert!(rt;
        shared.destroy(5)
            == Err(Fault {
                cause: Cause::NoObject,
                at: 0
            })
    );
}

#[test]
fn a_held_id_is_in_use_and_not_in_effect(rt: HostRuntime) {
    let mut shared = Indirects::new(rt.alloc());
    assert!(rt; shared.create(Some(0), &INGRESS, &Action::Mark(9), &LIMITS, true) == Ok(0));
    assert!(rt;
        shared.create(Some(0), &INGRESS, &Action::Mark(9), &LIMITS, true) == refused(Cause::IdInUse)
    );
    assert!(rt; shared.create(None, &INGRESS, &Action::Count, &LIMITS, false) == Ok(1));
    assert!(rt;
        shared.kind_of(0).is_none() && shared.value(0).is_none() && shared.count(0).is_none()
    );
    assert!(rt;
        shared.destroy(0)
            == Err(Fault {
                cause: Cause::NoObject,
                at: 0
            })
    );
    assert!(rt;
        shared.update(0, &Action::Mark(8), &LIMITS)
            == Err(Fault {
                cause: Cause::NoObject,
                at: 0
            })
    );
}

#[test]
fn a_held_action_takes_effect(rt: HostRuntime) {
    let mut shared = Indirects::new(rt.alloc());
    assert!(rt; shared.create(Some(7), &INGRESS, &Action::Mark(9), &LIMITS, true) == Ok(7));
    shared.activate(7);
    assert!(rt; shared.kind_of(7) == Some(ActionKind::Mark));
    assert!(rt; shared.count(7) == Some(Count { hits: 0, bytes: 0 }));
    assert!(rt; shared.kind_of(65_543).is_none());
}

/// The refusal of an update of what stands at an id.
fn update_cause(shared: &mut Indirects, id: u16, action: &Action) -> Option<Cause> {
    match shared.update(id, action, &LIMITS) {
        Ok(()) => None,
        Err(fault) => Some(fault.cause),
    }
}

#[test]
fn updates_are_refused_in_order(rt: HostRuntime) {
    let mut shared = Indirects::new(rt.alloc());
    assert!(rt; shared.create(Some(4), &INGRESS, &Action::Queue(1), &LIMITS, false) == Ok(4));
    assert!(rt; shared.create(Some(5), &INGRESS, &Action::Count, &LIMITS, false) == Ok(5));
    assert!(rt; update_cause(&mut shared, 6, &Action::Count) == Some(Cause::NoObject));
    assert!(rt; update_cause(&mut shared, 4, &Action::Count) == Some(Cause::KindDiffers));
    assert!(rt; update_cause(&mut shared, 5, &Action::Count) == Some(Cause::CannotUpdate));
    assert!(rt; update_cause(&mut shared, 4, &Action::Queue(3)) == Some(Cause::ActionConf));
    assert!(rt; update_cause(&mut shared, 4, &Action::Queue(2)).is_none());
    assert!(rt; matches!(shared.value(4), Some(Action::Queue(2))));
}

/// The directions of a creation, its action, and why it is refused.
const REFUSALS: [(bool, bool, bool, Action, Cause); 6] = [
    (false, true, true, Action::Drop, Cause::Egress),
    (false, false, true, Action::Drop, Cause::Transfer),
    (false, false, false, Action::Drop, Cause::NoIngress),
    (true, false, false, Action::Jump(99), Cause::KindNotIndirect),
    (true, false, false, Action::Queue(3), Cause::ActionConf),
    (true, false, false, Action::Queue(2), Cause::IdInUse),
];

#[test]
fn creations_are_refused_in_order(rt: HostRuntime) {
    let mut shared = Indirects::new(rt.alloc());
    assert!(rt; shared.create(Some(8), &INGRESS, &Action::Count, &LIMITS, false) == Ok(8));
    for row in REFUSALS.iter() {
        let attr = Attr {
            group: 0,
            priority: 0,
            ingress: row.0,
            egress: row.1,
            transfer: row.2,
        };
        assert!(rt; shared.create(Some(8), &attr, &row.3, &LIMITS, false) == refused(row.4));
    }
}

#[test]
fn there_are_1024_places(rt: HostRuntime) {
    let mut shared = Indirects::new(rt.alloc());
    for id in 0..1_024u16 {
        assert!(rt; shared.create(None, &INGRESS, &Action::Count, &LIMITS, id % 2 == 0) == Ok(id));
    }
    assert!(rt;
        shared.create(None, &INGRESS, &Action::Count, &LIMITS, false) == refused(Cause::TooMany)
    );
}
