//! Rules as asked for, and their first faults.
use arrayvec::ArrayVec;
use flow_actions::{Action, Actions, Rss};
use flow_rules::{Attr, Cause, Fault, Limits, RuleSpec, validate};
use packet_headers::{Edit, ItemKind};
use pattern_items::{Fields, Item, Pattern};
use std::process::Abort;
use test_rules::{NoneShared, actions_of, ingress, pattern_of_kinds};

/// What is wrong with a rule.
#[derive(Clone, Copy, Debug, PartialEq, Eq)]
enum Trouble {
    Group,
    Priority,
    Egress,
    Transfer,
    NoIngress,
    ManyItems,
    /// At item 0.
    SpecMissing,
    /// At item 1.
    Order,
    /// At item 1.
    SpecMissingToo,
    /// At item 1.
    LastBelow,
    ManyActions,
    /// At action 0.
    BadQueue,
    /// At action 1, which is a second fate too.
    BadJump,
    /// At action 1.
    SecondFate,
}

/// Two troubles of one rule, or the same twice.
type Pair = (Trouble, Trouble);

fn has(pair: Pair, trouble: Trouble) -> bool {
    if pair.0 == trouble {
        return true;
    }
    pair.1 == trouble
}

/// The field `ttl` of IPv4 alone.
fn ttl(number: u128) -> Option<Fields> {
    Some(Fields {
        v: [0, number, 0, 0, 0, 0],
    })
}

fn second_item(pair: Pair) -> Item {
    let kind = if has(pair, Trouble::Order) {
        ItemKind::Udp
    } else {
        ItemKind::Ipv4
    };
    let below = has(pair, Trouble::LastBelow);
    let masked = below || has(pair, Trouble::SpecMissingToo);
    Item {
        kind,
        given: if below { ttl(9) } else { None },
        last: if below { ttl(5) } else { None },
        mask: if masked { ttl(255) } else { None },
    }
}

fn pattern(pair: Pair) -> Pattern {
    let mut items = ArrayVec::new();
    items.push(Item {
        kind: ItemKind::Eth,
        given: None,
        last: if has(pair, Trouble::SpecMissing) {
            ttl(1)
        } else {
            None
        },
        mask: None,
    });
    items.push(second_item(pair));
    Pattern {
        items,
        more: if has(pair, Trouble::ManyItems) { 1 } else { 0 },
    }
}

fn actions(pair: Pair) -> Actions {
    let mut list = ArrayVec::new();
    list.push(if has(pair, Trouble::BadQueue) {
        Action::Queue(2)
    } else {
        Action::Queue(1)
    });
    if has(pair, Trouble::BadJump) {
        list.push(Action::Jump(0));
    }
    if has(pair, Trouble::SecondFate) {
        list.push(Action::Drop);
    }
    Actions {
        list,
        more: if has(pair, Trouble::ManyActions) {
            1
        } else {
            0
        },
    }
}

fn rule(pair: Pair) -> RuleSpec {
    RuleSpec {
        attr: Attr {
            group: if has(pair, Trouble::Group) { 16 } else { 0 },
            priority: if has(pair, Trouble::Priority) {
                65_536
            } else {
                0
            },
            ingress: !has(pair, Trouble::NoIngress),
            egress: has(pair, Trouble::Egress),
            transfer: has(pair, Trouble::Transfer),
        },
        pattern: pattern(pair),
        actions: actions(pair),
    }
}

const LIMITS: Limits = Limits {
    rxq: 2,
    flow_max: 1,
};

fn expect_fault(rt: &impl Abort, pair: Pair, cause: Cause, at: u16) {
    let found = validate(&rule(pair), &LIMITS, &NoneShared, 7);
    match found {
        Ok(_) => panic!(rt; "{pair:?} was taken"),
        Err(fault) => assert!(rt; fault == Fault { cause, at }, "{pair:?}"),
    }
}

#[test]
fn of_two_neighbouring_faults_the_first_is_the_answer(rt: HostRuntime) {
    let rows = [
        ((Trouble::Priority, Trouble::Group), Cause::GroupRange, 0),
        (
            (Trouble::Egress, Trouble::Priority),
            Cause::PriorityRange,
            0,
        ),
        ((Trouble::Transfer, Trouble::Egress), Cause::Egress, 0),
        ((Trouble::NoIngress, Trouble::Transfer), Cause::Transfer, 0),
        (
            (Trouble::ManyItems, Trouble::NoIngress),
            Cause::NoIngress,
            0,
        ),
        (
            (Trouble::SpecMissing, Trouble::ManyItems),
            Cause::TooManyItems,
            0,
        ),
        (
            (Trouble::Order, Trouble::SpecMissing),
            Cause::SpecMissing,
            0,
        ),
        (
            (Trouble::SpecMissingToo, Trouble::Order),
            Cause::ItemOrder,
            1,
        ),
        ((Trouble::LastBelow, Trouble::Order), Cause::ItemOrder, 1),
        (
            (Trouble::LastBelow, Trouble::SpecMissing),
            Cause::SpecMissing,
            0,
        ),
        (
            (Trouble::ManyActions, Trouble::SpecMissingToo),
            Cause::SpecMissing,
            1,
        ),
        (
            (Trouble::ManyActions, Trouble::LastBelow),
            Cause::LastBelow,
            1,
        ),
        (
            (Trouble::BadQueue, Trouble::ManyActions),
            Cause::TooManyActions,
            0,
        ),
        (
            (Trouble::SecondFate, Trouble::BadQueue),
            Cause::ActionConf,
            0,
        ),
        ((Trouble::BadJump, Trouble::BadQueue), Cause::ActionConf, 0),
        ((Trouble::BadJump, Trouble::BadJump), Cause::ActionConf, 1),
        (
            (Trouble::SecondFate, Trouble::SecondFate),
            Cause::SecondFate,
            1,
        ),
    ];
    for (pair, cause, at) in rows {
        expect_fault(&rt, pair, cause, at);
    }
}

/// An action, and the kinds of the items of its rule.
type Asked = (&'static [ItemKind], Trial);

/// An action behind a mark.
#[derive(Clone, Copy, Debug)]
enum Trial {
    Set(Edit),
    /// RSS with one queue.
    Spread(u16),
}

/// The items of an IPv6 frame in VXLAN over IPv4.
const TUNNEL: [ItemKind; 6] = [
    ItemKind::Eth,
    ItemKind::Ipv4,
    ItemKind::Udp,
    ItemKind::Vxlan,
    ItemKind::Eth,
    ItemKind::Ipv6,
];

fn tried(trial: Trial) -> Action {
    match trial {
        Trial::Set(edit) => Action::Set(edit),
        Trial::Spread(queue) => {
            let mut queues = ArrayVec::new();
            queues.push(queue);
            Action::Rss(Rss { queues, types: 63 })
        }
    }
}

fn rule_of(asked: Asked) -> RuleSpec {
    let (kinds, trial) = asked;
    RuleSpec {
        attr: ingress(0, 0),
        pattern: pattern_of_kinds(kinds),
        actions: actions_of(&[Action::Mark(7), tried(trial)]),
    }
}

fn fault_of(rt: &impl Abort, asked: Asked) -> Option<Cause> {
    match validate(&rule_of(asked), &LIMITS, &NoneShared, 7) {
        Ok(_) => None,
        Err(fault) => {
            assert_eq!(rt; fault.at, 1);
            Some(fault.cause)
        }
    }
}

static EDITS: [(&str, Asked, Option<Cause>); 13] = [
    (
        "TTL on Ethernet alone",
        (&[ItemKind::Eth], Trial::Set(Edit::SetTtl(9))),
        Some(Cause::ItemNeeded),
    ),
    (
        "an IPv6 source behind VXLAN",
        (&TUNNEL, Trial::Set(Edit::Ipv6Src(1))),
        Some(Cause::ItemNeeded),
    ),
    (
        "an IPv4 source in front of VXLAN",
        (&TUNNEL, Trial::Set(Edit::Ipv4Src(1))),
        None,
    ),
    (
        "a port in front of VXLAN",
        (&TUNNEL, Trial::Set(Edit::PortDst(1))),
        None,
    ),
    (
        "a port without TCP and UDP",
        (
            &[ItemKind::Eth, ItemKind::Ipv4],
            Trial::Set(Edit::PortDst(1)),
        ),
        Some(Cause::ItemNeeded),
    ),
    (
        "TTL of IPv6",
        (&[ItemKind::Ipv6], Trial::Set(Edit::DecTtl)),
        None,
    ),
    (
        "VLAN id 4,095",
        (&[ItemKind::Vlan], Trial::Set(Edit::SetVid(4095))),
        None,
    ),
    (
        "VLAN id 4,096",
        (&[ItemKind::Vlan], Trial::Set(Edit::SetVid(4096))),
        Some(Cause::ActionConf),
    ),
    (
        "VLAN id 4,096 without a tag",
        (&[ItemKind::Eth], Trial::Set(Edit::SetVid(4096))),
        Some(Cause::ActionConf),
    ),
    (
        "the greatest MAC address",
        (&[ItemKind::Eth], Trial::Set(Edit::MacSrc(0xffff_ffff_ffff))),
        None,
    ),
    (
        "a MAC address of 2^48",
        (
            &[ItemKind::Eth],
            Trial::Set(Edit::MacDst(0x1_0000_0000_0000)),
        ),
        Some(Cause::ActionConf),
    ),
    (
        "RSS to queue 1 of 2",
        (&[ItemKind::Eth], Trial::Spread(1)),
        None,
    ),
    (
        "RSS to queue 2 of 2",
        (&[ItemKind::Eth], Trial::Spread(2)),
        Some(Cause::ActionConf),
    ),
];

#[test]
fn edits_need_their_item_and_values_their_range(rt: HostRuntime) {
    for (name, asked, cause) in &EDITS {
        assert!(rt; fault_of(&rt, *asked) == *cause, "{name}");
    }
}
