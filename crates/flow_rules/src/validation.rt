//! The first fault of a rule, or the rule.
ghost use Rattle.std.specs.Prelude.{ℕ, ◌≡◌, ◌≤◌, [], length, nat_le, IfOk, None, All};
ghost use Rattle.std.specs.Option.{option_map};
ghost use Rattle.std.specs.List.{list_any};
ghost use Rattle.header_edit.specs.Field.{has_field};
ghost use Rattle.flow_rules.specs.Faults.{first, attr_faults, direction_faults, is_bad, is_too_wide, is_named, lacks_item, item_fault};
ghost use Rattle.flow_rules.specs.Valid.{IsGood};
ghost use Rattle.flow_rules.specs.Faults.{is_unknown, is_fate_in, is_count, is_shared, is_named_before, faults_at, action_faults, first_fault, rule_of};
ghost use Rattle.std.specs.Result.{result_err};

use crate::fault::{Cause, Fault};
use crate::known::Known;
use crate::limits::Limits;
use crate::rule::Rule;
use crate::spec::{Attr, RuleSpec};
use arrayvec::ArrayVec;
use flow_actions::{Action, Actions, MAX_ACTIONS};
use packet_headers::{Edit, ItemKind};
use pattern_items::{Item, ItemFault, compile};

/// The last group.
const MAX_GROUP: u32 = 15;

/// The greatest priority number.
const MAX_PRIORITY: u32 = 65_535;

/// The greatest MAC address.
const MAX_MAC: u64 = 0xffff_ffff_ffff;

/// The greatest VLAN id.
const MAX_VID: u16 = 4095;

/// The rule of this id that was asked for, or its first fault: the attributes' first, then the pattern's, item by item,
/// then the actions', one by one.
pub fn validate<N: Known>(
    spec_in: &RuleSpec,
    limits: &Limits,
    known: &N,
    id: u32,
) -> Result<Rule, Fault>
    ensures rule { IfOk result (λ rule. rule ≡ rule_of id spec_in.now) }
    ensures fault { result_err result ≡ first_fault limits.now (N.kinds known.now) spec_in.now }
{
    if let Some(fault) = attr_fault(&spec_in.attr) {
        return Err(fault);
    }
    let test = match compile(&spec_in.pattern) {
        Ok(test) => test,
        Err(fault) => return Err(fault_of_item(fault)),
    };
    if spec_in.actions.more > 0 {
        return Err(fault(Cause::TooManyActions, 0));
    }
    if let Some(fault) = action_fault(
        known,
        limits.rxq,
        spec_in.pattern.items.as_slice(),
        spec_in.attr.group,
        spec_in.actions.list.as_slice(),
    ) {
        return Err(fault);
    }
    Ok(Rule {
        id,
        group: spec_in.attr.group,
        priority: spec_in.attr.priority,
        test,
        actions: Actions {
            list: copy_of(&spec_in.actions.list),
            more: 0,
        },
    })
}

fn fault(cause: Cause, at: u16) -> Fault
    ensures { result ≡ record { cause = cause; at = at } }
{
    Fault { cause, at }
}

/// The first fault of the attributes.
pub fn attr_fault(attr: &Attr) -> Option<Fault>
    ensures { result ≡ first (attr_faults attr.now) }
{
    if attr.group > MAX_GROUP {
        return Some(fault(Cause::GroupRange, 0));
    }
    if attr.priority > MAX_PRIORITY {
        return Some(fault(Cause::PriorityRange, 0));
    }
    direction_fault(attr)
}

/// The first fault of the directions.
pub fn direction_fault(attr: &Attr) -> Option<Fault>
    ensures { result ≡ first (direction_faults attr.now) }
{
    if attr.egress {
        return Some(fault(Cause::Egress, 0));
    }
    if attr.transfer {
        return Some(fault(Cause::Transfer, 0));
    }
    if !attr.ingress {
        return Some(fault(Cause::NoIngress, 0));
    }
    None
}

/// A pattern's fault as a rule's.
fn fault_of_item(item: ItemFault) -> Fault
    ensures { result ≡ item_fault item }
{
    match item {
        ItemFault::TooMany => fault(Cause::TooManyItems, 0),
        ItemFault::Order(at) => fault(Cause::ItemOrder, at),
        ItemFault::SpecMissing(at) => fault(Cause::SpecMissing, at),
        ItemFault::LastBelow(at) => fault(Cause::LastBelow, at),
    }
}

/// Whether an action's value is out of its range, in a rule of this group.
pub fn is_bad_value(rxq: u8, group: u32, action: &Action) -> bool
    ensures { result ≡ is_bad rxq group action.now }
{
    match action {
        Action::Void => false,
        Action::Queue(queue) => *queue >= rxq as u16,
        Action::Drop => false,
        Action::Jump(to) => *to > MAX_GROUP || *to <= group,
        Action::Rss(rss) => has_queue_over(rxq, rss.queues.as_slice()),
        Action::Mark(_) => false,
        Action::Count => false,
        Action::Indirect(_) => false,
        Action::Set(edit) => is_too_wide(*edit),
    }
}

/// Whether one of the queues isn't there.
fn has_queue_over(rxq: u8, queues: &[u16]) -> bool
    ensures { result ≡ list_any (nat_le rxq) queues.now }
{
    queues.iter().any(|queue| *queue >= rxq as u16)
}

/// Whether the value of an edit is wider than its field.
fn is_too_wide(edit: Edit) -> bool
    ensures { result ≡ is_too_wide edit }
{
    match edit {
        Edit::MacSrc(address) | Edit::MacDst(address) => address > MAX_MAC,
        Edit::SetVid(vid) => vid > MAX_VID,
        Edit::Ipv4Src(_)
        | Edit::Ipv4Dst(_)
        | Edit::Ipv6Src(_)
        | Edit::Ipv6Dst(_)
        | Edit::PortSrc(_)
        | Edit::PortDst(_)
        | Edit::DecTtl
        | Edit::SetTtl(_) => false,
    }
}

/// Whether an action edits a header that the pattern doesn't name.
fn lacks_item(pattern: &[Item], action: &Action) -> bool
    ensures { result ≡ lacks_item pattern.now action.now }
{
    let Action::Set(edit) = action else {
        return false;
    };
    !is_named(*edit, pattern)
}

/// Whether an item in front of VXLAN names a header with the edit's field.
fn is_named(edit: Edit, pattern: &[Item]) -> bool
    ensures { result ≡ is_named edit pattern.now }
{
    for item in pattern {
        if item.kind == ItemKind::Vxlan {
            return false;
        }
        if has_field(edit, item.kind) {
            return true;
        }
    }
    false
}

/// Whether headers of this kind have the edit's field.
fn has_field(edit: Edit, kind: ItemKind) -> bool
    ensures { result ≡ has_field edit kind }
{
    match edit {
        Edit::MacSrc(_) | Edit::MacDst(_) => kind == ItemKind::Eth,
        Edit::Ipv4Src(_) | Edit::Ipv4Dst(_) => kind == ItemKind::Ipv4,
        Edit::Ipv6Src(_) | Edit::Ipv6Dst(_) => kind == ItemKind::Ipv6,
        Edit::PortSrc(_) | Edit::PortDst(_) => kind == ItemKind::Tcp || kind == ItemKind::Udp,
        Edit::DecTtl | Edit::SetTtl(_) => kind == ItemKind::Ipv4 || kind == ItemKind::Ipv6,
        Edit::SetVid(_) => kind == ItemKind::Vlan,
    }
}

/// The first fault of the actions of a rule of this group and pattern.
pub fn action_fault<N: Known>(
    known: &N,
    rxq: u8,
    pattern: &[Item],
    group: u32,
    list: &[Action],
) -> Option<Fault>
    requires { length list.now ≤ 16 }
    ensures first { result ≡ first (action_faults rxq (N.kinds known.now) pattern.now group 0 [] list.now) }
    ensures values { result ≡ None → All (IsGood group) list.now }
{
    let mut place: u16 = 0;
    for action in list {
        let before = &list[..place as usize];
        if let Some(cause) = cause_at(known, rxq, pattern, group, before, action) {
            return Some(fault(cause, place));
        }
        place += 1;
    }
    None
}

/// Why an action is refused behind those before, in a rule of this group and pattern.
fn cause_at<N: Known>(
    known: &N,
    rxq: u8,
    pattern: &[Item],
    group: u32,
    before: &[Action],
    action: &Action,
) -> Option<Cause>
    ensures { (place : ℕ) → option_map (λ cause. record { cause = cause; at = place }) result
        ≡ first (faults_at rxq (N.kinds known.now) pattern.now group place before.now action.now) }
{
    if is_unknown(known, action) {
        return Some(Cause::NoIndirect);
    }
    if is_bad_value(rxq, group, action) {
        return Some(Cause::ActionConf);
    }
    if lacks_item(pattern, action) {
        return Some(Cause::ItemNeeded);
    }
    if is_fate_in(known, action) && has_fate(known, before) {
        return Some(Cause::SecondFate);
    }
    if is_named_before(before, action) {
        return Some(Cause::SecondCount);
    }
    None
}

/// Whether the shared action that this one stands for isn't in effect.
fn is_unknown<N: Known>(known: &N, action: &Action) -> bool
    ensures { result ≡ is_unknown (N.kinds known.now) action.now }
{
    let Action::Indirect(id) = action else {
        return false;
    };
    known.kind_of(*id).is_none()
}

/// Whether an action says where a frame goes, where a shared one counts as its kind.
fn is_fate_in<N: Known>(known: &N, action: &Action) -> bool
    ensures { result ≡ is_fate_in (N.kinds known.now) action.now }
{
    let Action::Indirect(id) = action else {
        return action.kind().is_fate();
    };
    match known.kind_of(*id) {
        Some(kind) => kind.is_fate(),
        None => false,
    }
}

/// Whether one of the actions says where a frame goes.
fn has_fate<N: Known>(known: &N, list: &[Action]) -> bool
    ensures { result ≡ list_any (is_fate_in (N.kinds known.now)) list.now }
{
    list.iter().any(|action| is_fate_in(known, action))
}

/// Whether one of the actions counts frames for its own rule.
pub fn has_count(list: &[Action]) -> bool
    ensures { result ≡ list_any is_count list.now }
{
    list.iter().any(|action| is_count(action))
}

/// Whether one of the actions is the shared one of this id.
pub fn has_shared(id: u32, list: &[Action]) -> bool
    ensures { result ≡ list_any (is_shared id) list.now }
{
    list.iter().any(|action| is_shared(id, action))
}

/// Whether one of the actions before names the same counter, or the same shared action.
fn is_named_before(before: &[Action], action: &Action) -> bool
    ensures { result ≡ is_named_before before.now action.now }
{
    match action {
        Action::Count => has_count(before),
        Action::Indirect(id) => has_shared(*id, before),
        Action::Void
        | Action::Queue(_)
        | Action::Rss(_)
        | Action::Drop
        | Action::Jump(_)
        | Action::Mark(_)
        | Action::Set(_) => false,
    }
}

/// Whether an action counts frames for its own rule.
pub fn is_count(action: &Action) -> bool
    ensures { result ≡ is_count action.now }
{
    matches!(action, Action::Count)
}

/// Whether an action is the shared one of this id.
fn is_shared(id: u32, action: &Action) -> bool
    ensures { result ≡ is_shared id action.now }
{
    let Action::Indirect(other) = action else {
        return false;
    };
    id == *other
}

/// The same actions.
fn copy_of(list: &ArrayVec<Action, MAX_ACTIONS>) -> ArrayVec<Action, MAX_ACTIONS>
    ensures { result.items ≡ list.now.items }
{
    let mut copy = ArrayVec::new();
    for action in list.as_slice() {
        copy.push(action.copied());
    }
    copy
}
