//! Generated calls: on small queues, small tables and few ids, so that all is soon full, in use or missing.
use crate::dice::Dice;
use arrayvec::ArrayVec;
use flow_actions::{Action, ActionKind, Actions, MAX_ACTIONS};
use flow_calls::{ActionLists, Op, RuleLists, TableTemplates};
use flow_rules::{Attr, RuleSpec};
use packet_headers::ItemKind;
use pattern_items::Pattern;
use rule_binding::Masks;
use shared_value::Shared;
use std::alloc::{AllocError, Global};
use template_tables::MAX_TEMPLATES;
use test_rules::{actions_of, ingress, pattern_of_kinds};

/// Attributes, of which a few are refused.
fn attr(dice: &mut Dice) -> Attr {
    let mut attr = ingress(dice.below(3), dice.below(3));
    attr.egress = dice.is_one_in(24);
    attr
}

/// A pattern of one of three shapes.
fn pattern(dice: &mut Dice) -> Pattern {
    match dice.shape(3) {
        0 => pattern_of_kinds(&[ItemKind::Eth]),
        1 => pattern_of_kinds(&[ItemKind::Eth, ItemKind::Ipv4]),
        _ => pattern_of_kinds(&[]),
    }
}

/// To one of the 4 Rx queues. A few are out of range.
fn to_queue(dice: &mut Dice) -> Action {
    if dice.is_one_in(6) {
        return Action::Queue(4);
    }
    Action::Queue(dice.below(4) as u16)
}

fn by_id(dice: &mut Dice) -> Action {
    Action::Indirect(dice.below(4))
}

/// Actions of one of four shapes.
fn actions(dice: &mut Dice) -> Actions {
    match dice.shape(4) {
        0 => actions_of(&[by_id(dice), Action::Count]),
        1 => actions_of(&[by_id(dice), to_queue(dice)]),
        2 => actions_of(&[by_id(dice), by_id(dice)]),
        _ => actions_of(&[Action::Count, to_queue(dice)]),
    }
}

fn rule(alloc: Global, dice: &mut Dice) -> Result<Shared<RuleSpec>, AllocError> {
    let spec = RuleSpec {
        attr: attr(dice),
        pattern: pattern(dice),
        actions: actions(dice),
    };
    Shared::new(alloc, spec)
}

/// The kinds of these actions. A few lists lack the last one.
fn mask_kinds(dice: &mut Dice, list: &[Action]) -> ArrayVec<ActionKind, MAX_ACTIONS> {
    let mut kinds = ArrayVec::new();
    for action in list {
        if kinds.len() < MAX_ACTIONS {
            kinds.push(action.kind());
        }
    }
    if dice.is_one_in(12) {
        kinds.pop();
    }
    kinds
}

/// A template sets the value of each of its first two actions for all rules, or doesn't.
fn template(alloc: Global, dice: &mut Dice) -> Result<Shared<ActionLists>, AllocError> {
    let actions = actions(dice);
    let kinds = mask_kinds(dice, actions.list.as_slice());
    let mut set = [false; 16];
    set[0] = dice.is_one_in(3);
    set[1] = dice.is_one_in(3);
    let masks = Masks {
        kinds,
        set,
        more: 0,
    };
    Shared::new(alloc, ActionLists { actions, masks })
}

/// One template or two.
fn template_ids(dice: &mut Dice) -> ArrayVec<u16, MAX_TEMPLATES> {
    let mut ids = ArrayVec::new();
    ids.push(dice.id());
    if dice.is_one_in(2) {
        ids.push(dice.id());
    }
    ids
}

/// For how many rules a table is. A few are refused.
fn rules_number(dice: &mut Dice) -> u32 {
    match dice.below(12) {
        0 => 0,
        1 => 65_536,
        2 | 3 | 4 => 1,
        5 | 6 | 7 => 2,
        _ => 5,
    }
}

fn on_pattern_templates(alloc: Global, dice: &mut Dice) -> Result<Op, AllocError> {
    if dice.is_one_in(3) {
        return Ok(Op::PatternTemplateDestroy(dice.id()));
    }
    Ok(Op::PatternTemplateCreate {
        id: dice.asked_id(),
        attr: attr(dice),
        pattern: Shared::new(alloc, pattern(dice))?,
    })
}

fn on_actions_templates(alloc: Global, dice: &mut Dice) -> Result<Op, AllocError> {
    if dice.is_one_in(3) {
        return Ok(Op::ActionsTemplateDestroy(dice.id()));
    }
    Ok(Op::ActionsTemplateCreate {
        id: dice.asked_id(),
        attr: attr(dice),
        lists: template(alloc, dice)?,
    })
}

fn on_tables(alloc: Global, dice: &mut Dice) -> Result<Op, AllocError> {
    if dice.is_one_in(3) {
        return Ok(Op::TableDestroy(dice.id()));
    }
    let templates = TableTemplates {
        patterns: template_ids(dice),
        actions: template_ids(dice),
    };
    Ok(Op::TableCreate {
        id: dice.asked_id(),
        attr: attr(dice),
        rules_number: rules_number(dice),
        templates: Shared::new(alloc, templates)?,
    })
}

/// An action to share. A few can't be shared.
fn object(alloc: Global, dice: &mut Dice) -> Result<Shared<Action>, AllocError> {
    let action = match dice.below(12) {
        0 => Action::Drop,
        1 | 2 | 3 => to_queue(dice),
        4 | 5 | 6 => Action::Count,
        _ => Action::Mark(dice.below(9)),
    };
    Shared::new(alloc, action)
}

fn on_objects(alloc: Global, dice: &mut Dice) -> Result<Op, AllocError> {
    Ok(match dice.below(8) {
        0 | 1 | 2 => Op::IndirectUpdate {
            id: dice.id(),
            action: object(alloc, dice)?,
        },
        3 => Op::IndirectDestroy(dice.id()),
        4 => Op::IndirectQuery(dice.id()),
        _ => Op::IndirectCreate {
            id: dice.asked_id(),
            attr: attr(dice),
            action: object(alloc, dice)?,
        },
    })
}

fn on_rules(alloc: Global, dice: &mut Dice, given: u32) -> Result<Op, AllocError> {
    Ok(match dice.below(16) {
        0 => Op::Flush,
        1 => Op::List,
        2 => Op::Validate(rule(alloc, dice)?),
        3 | 4 | 5 => Op::Query(dice.rule(given)),
        6 | 7 | 8 | 9 => Op::Destroy(dice.rule(given)),
        _ => Op::Create(rule(alloc, dice)?),
    })
}

/// Queues for so few operations that they are often full. Some numbers are refused.
fn configure(dice: &mut Dice) -> Op {
    let (queues, size) = match dice.below(12) {
        0 => (0, 4),
        1 => (9, 4),
        2 => (2, 0),
        3 => (2, 1025),
        4 | 5 => (3, 1),
        6 | 7 => (2, 2),
        _ => (2, 4),
    };
    Op::Configure { queues, size }
}

fn on_queued_objects(alloc: Global, dice: &mut Dice) -> Result<Op, AllocError> {
    let queue = dice.queue();
    let postpone = dice.is_one_in(2);
    Ok(match dice.below(3) {
        0 => Op::QueueIndirectCreate {
            queue,
            postpone,
            id: dice.asked_id(),
            attr: attr(dice),
            action: object(alloc, dice)?,
        },
        1 => Op::QueueIndirectUpdate {
            queue,
            postpone,
            id: dice.id(),
            action: object(alloc, dice)?,
        },
        _ => Op::QueueIndirectDestroy {
            queue,
            postpone,
            id: dice.id(),
        },
    })
}

fn enqueue(alloc: Global, dice: &mut Dice) -> Result<Op, AllocError> {
    let lists = RuleLists {
        pattern: pattern(dice),
        actions: actions(dice),
    };
    Ok(Op::QueueCreate {
        queue: dice.queue(),
        postpone: dice.is_one_in(2),
        table: dice.id(),
        pt: dice.place(),
        act: dice.place(),
        lists: Shared::new(alloc, lists)?,
    })
}

fn on_queues(alloc: Global, dice: &mut Dice, given: u32) -> Result<Op, AllocError> {
    Ok(match dice.below(16) {
        0 | 1 => Op::Push(dice.queue()),
        2 | 3 | 4 | 5 => Op::Pull(dice.queue()),
        6 | 7 | 8 => Op::QueueDestroy {
            queue: dice.queue(),
            postpone: dice.is_one_in(2),
            rule: dice.rule(given),
        },
        9 | 10 => on_queued_objects(alloc, dice)?,
        _ => enqueue(alloc, dice)?,
    })
}

/// A call that makes something that others need.
pub(crate) fn first_call(alloc: Global, dice: &mut Dice) -> Result<Op, AllocError> {
    Ok(match dice.below(8) {
        0 => configure(dice),
        1 | 2 => on_pattern_templates(alloc, dice)?,
        3 | 4 => on_actions_templates(alloc, dice)?,
        5 => on_tables(alloc, dice)?,
        _ => on_objects(alloc, dice)?,
    })
}

/// Any call, where so many rule ids were given.
pub(crate) fn call(alloc: Global, dice: &mut Dice, given: u32) -> Result<Op, AllocError> {
    Ok(match dice.below(16) {
        0 => first_call(alloc, dice)?,
        1 => on_tables(alloc, dice)?,
        2 => on_objects(alloc, dice)?,
        3 | 4 => on_rules(alloc, dice, given)?,
        _ => on_queues(alloc, dice, given)?,
    })
}
