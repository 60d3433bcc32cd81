//! Lists as the tests ask for them.
use arrayvec::ArrayVec;
use flow_actions::{ActionKind, MAX_ACTIONS};
use flow_rules::Attr;
use pattern_items::Fields;
use rule_binding::Masks;
use std::process::Abort;
use template_tables::MAX_TEMPLATES;

/// The attributes of a rule of group 1 with priority 4.
pub const INGRESS: Attr = Attr {
    group: 1,
    priority: 4,
    ingress: true,
    egress: false,
    transfer: false,
};

/// The same number for each field.
pub fn each(number: u128) -> Fields {
    Fields { v: [number; 6] }
}

/// A mask list of these kinds, of which the value of just the first is set.
pub fn masks(rt: &impl Abort, list: &[ActionKind]) -> Masks {
    let mut kinds = ArrayVec::new();
    for kind in list {
        assert!(rt; kinds.len() < MAX_ACTIONS);
        kinds.push(*kind);
    }
    let mut set = [false; 16];
    set[0] = true;
    Masks {
        kinds,
        set,
        more: 0,
    }
}

pub fn ids(rt: &impl Abort, list: &[u16]) -> ArrayVec<u16, MAX_TEMPLATES> {
    let mut ids = ArrayVec::new();
    for id in list {
        assert!(rt; ids.len() < MAX_TEMPLATES);
        ids.push(*id);
    }
    ids
}
