//! What `flow configure PORT ..`, `flow queue PORT ..`, `flow push PORT ..` and `flow pull PORT ..` ask.
ghost use Rattle.std.specs.Prelude.{◌≡◌, IfOk, map, option_map};
ghost use Rattle.flow_calls.specs.declared.call.Op.TheVariants as ops;
ghost use Rattle.flow_grammar.specs.Queues as spec;

use crate::destroys::{Object, read_destroys};
use crate::indirect_actions::{IndirectVerb, created_words, indirect_verb, read_new_action};
use crate::numbers::{id_behind, number_16, number_behind};
use crate::op_list::{OpList, one_op};
use crate::rule_lists::read_rule_lists;
use crate::words::{behind, first_meaning, if_last};
use flow_calls::{Op, RuleLists};
use rule_words::flag_and_rest;
use shared_value::Shared;
use std::alloc::{AllocError, Global};

/// What is asked of a flow queue.
#[derive(Clone, Copy)]
pub(crate) enum QueueVerb {
    Create,
    Destroy,
    IndirectAction,
}

static VERBS: [(&str, QueueVerb); 3] = [
    ("create", QueueVerb::Create),
    ("destroy", QueueVerb::Destroy),
    ("indirect_action", QueueVerb::IndirectAction),
];

/// `queues_number NUMBER queues_size NUMBER`.
#[tactic(auto, unfolding(crate::specs::Queues::configure_of))]
pub(crate) fn read_configure(words: &[&[u8]]) -> Option<Op>
    ensures { result ≡ spec.configure_of (map (λ word. word.now) words.now) }
{
    let (queues, rest) = number_behind(b"queues_number", words)?;
    let (size, rest) = number_behind(b"queues_size", rest)?;
    if_last(rest, Op::Configure { queues, size })
}

/// `queue QUEUE`, of a push.
#[tactic(auto, unfolding(crate::specs::Queues::push_of))]
pub(crate) fn read_push(words: &[&[u8]]) -> Option<Op>
    ensures { result ≡ spec.push_of (map (λ word. word.now) words.now) }
{
    let (queue, rest) = id_behind(b"queue", words)?;
    if_last(rest, Op::Push(queue))
}

/// `queue QUEUE`, of a pull.
#[tactic(auto, unfolding(crate::specs::Queues::pull_of))]
pub(crate) fn read_pull(words: &[&[u8]]) -> Option<Op>
    ensures { result ≡ spec.pull_of (map (λ word. word.now) words.now) }
{
    let (queue, rest) = id_behind(b"queue", words)?;
    if_last(rest, Op::Pull(queue))
}

/// The ops that the words behind `flow queue PORT` ask for.
#[tactic(auto, unfolding(crate::specs::Queues::queue_asked))]
pub(crate) fn read_queue(alloc: Global, words: &[&[u8]]) -> Result<Option<OpList>, AllocError>
    ensures { IfOk result (λ ops. ops ≡ spec.queue_asked (map (λ word. word.now) words.now)) }
{
    let Some((verb, rest)) = first_meaning(&VERBS, words) else {
        return Ok(None);
    };
    let Some((queue, rest)) = number_16(rest) else {
        return Ok(None);
    };
    read_asked(alloc, verb, queue, rest)
}

/// The ops that the words behind a verb and its queue ask for.
fn read_asked(
    alloc: Global,
    verb: QueueVerb,
    queue: u16,
    words: &[&[u8]],
) -> Result<Option<OpList>, AllocError>
    ensures { IfOk result (λ ops. ops ≡ spec.asked verb queue (map (λ word. word.now) words.now)) }
{
    match verb {
        QueueVerb::Create => one_op(alloc, read_create(alloc, queue, words)?),
        QueueVerb::Destroy => read_rule_destroys(alloc, queue, words),
        QueueVerb::IndirectAction => one_op(alloc, read_action(alloc, queue, words)?),
    }
}

/// `[postpone BOOL]`: what it says, or what was said before where it isn't there, and the words behind.
fn postponed<'w, 'a>(before: bool, words: &'w [&'a [u8]]) -> Option<(bool, &'w [&'a [u8]])>
    ensures { option_map (λ read. (read.0, map (λ word. word.now) read.1.now)) result
        ≡ spec.postponed before (map (λ word. word.now) words.entry.now) }
{
    let Some((word, rest)) = words.split_first() else {
        return Some((before, words));
    };
    if *word != b"postpone".as_slice() {
        return Some((before, words));
    }
    flag_and_rest(rest)
}

/// `template_table ID pattern_template INDEX actions_template INDEX`, and the words behind.
#[tactic(auto, unfolding(crate::specs::Queues::place_of))]
fn table_place<'w, 'a>(words: &'w [&'a [u8]]) -> Option<(u16, u16, u16, &'w [&'a [u8]])>
    ensures { option_map (λ read. (read.0, read.1, read.2, map (λ word. word.now) read.3.now)) result
        ≡ spec.place_of (map (λ word. word.now) words.entry.now) }
{
    let (table, rest) = id_behind(b"template_table", words)?;
    let (pt, rest) = id_behind(b"pattern_template", rest)?;
    let (act, rest) = id_behind(b"actions_template", rest)?;
    Some((table, pt, act, rest))
}

/// The creation of a rule of a table.
fn read_create(alloc: Global, queue: u16, words: &[&[u8]]) -> Result<Option<Op>, AllocError>
    ensures { IfOk result (λ op. op ≡ spec.create_of queue (map (λ word. word.now) words.now)) }
{
    let Some((postpone, (table, pt, act), lists)) = create_words(queue, words) else {
        return Ok(None);
    };
    let lists = Shared::new(alloc, lists)?;
    Ok(Some(Op::QueueCreate {
        queue,
        postpone,
        table,
        pt,
        act,
        lists,
    }))
}

/// `[postpone BOOL] template_table .. [postpone BOOL] pattern ITEMS actions ACTIONS`: of two `postpone` the later counts.
#[tactic(auto, unfolding(crate::specs::Queues::create_of))]
fn create_words(_queue: u16, words: &[&[u8]]) -> Option<(bool, (u16, u16, u16), RuleLists)>
    ensures { option_map (λ read. ops.QueueCreate _queue read.0 read.1.0 read.1.1 read.1.2 read.2) result
        ≡ spec.create_of _queue (map (λ word. word.now) words.now) }
{
    let (early, rest) = postponed(false, words)?;
    let (table, pt, act, rest) = table_place(rest)?;
    let (postpone, rest) = postponed(early, rest)?;
    let rest = behind(b"pattern", rest)?;
    let lists = read_rule_lists(rest)?;
    Some((postpone, (table, pt, act), lists))
}

/// `[postpone BOOL] rule RULE { rule RULE }`.
#[tactic(auto, unfolding(crate::specs::Queues::destroys_on))]
fn read_rule_destroys(
    alloc: Global,
    queue: u16,
    words: &[&[u8]],
) -> Result<Option<OpList>, AllocError>
    ensures { IfOk result (λ ops. ops ≡ spec.destroys_on queue (map (λ word. word.now) words.now)) }
{
    let Some((postpone, rest)) = postponed(false, words) else {
        return Ok(None);
    };
    read_destroys(alloc, Object::Queued { queue, postpone }, rest)
}

/// `VERB ..` of an action that rules share.
fn read_action(alloc: Global, queue: u16, words: &[&[u8]]) -> Result<Option<Op>, AllocError>
    ensures { IfOk result (λ op. op ≡ spec.action_of queue (map (λ word. word.now) words.now)) }
{
    let Some((verb, rest)) = indirect_verb(words) else {
        return Ok(None);
    };
    match verb {
        IndirectVerb::Create => read_action_create(alloc, queue, rest),
        IndirectVerb::Update => read_action_update(alloc, queue, rest),
        IndirectVerb::Destroy => Ok(read_action_destroy(queue, rest)),
        IndirectVerb::Query => Ok(None),
    }
}

/// `[postpone BOOL] [action_id ID] DIRS action ACTION / end`.
#[tactic(auto, unfolding(crate::specs::Queues::action_create_of))]
fn read_action_create(alloc: Global, queue: u16, words: &[&[u8]]) -> Result<Option<Op>, AllocError>
    ensures { IfOk result (λ op. op ≡ spec.action_create_of queue (map (λ word. word.now) words.now)) }
{
    let Some((postpone, rest)) = postponed(false, words) else {
        return Ok(None);
    };
    let Some((id, attr, action)) = created_words(rest) else {
        return Ok(None);
    };
    let action = Shared::new(alloc, action)?;
    Ok(Some(Op::QueueIndirectCreate {
        queue,
        postpone,
        id,
        attr,
        action,
    }))
}

/// `ID [postpone BOOL] action ACTION / end`.
#[tactic(auto, unfolding(crate::specs::Queues::action_update_of))]
fn read_action_update(alloc: Global, queue: u16, words: &[&[u8]]) -> Result<Option<Op>, AllocError>
    ensures { IfOk result (λ op. op ≡ spec.action_update_of queue (map (λ word. word.now) words.now)) }
{
    let Some((id, rest)) = number_16(words) else {
        return Ok(None);
    };
    let Some((postpone, rest)) = postponed(false, rest) else {
        return Ok(None);
    };
    let Some(action) = read_new_action(rest) else {
        return Ok(None);
    };
    let action = Shared::new(alloc, action)?;
    Ok(Some(Op::QueueIndirectUpdate {
        queue,
        postpone,
        id,
        action,
    }))
}

/// `[postpone BOOL] action_id ID`.
#[tactic(auto, unfolding(crate::specs::Queues::action_destroy_of))]
fn read_action_destroy(queue: u16, words: &[&[u8]]) -> Option<Op>
    ensures { result ≡ spec.action_destroy_of queue (map (λ word. word.now) words.now) }
{
    let (postpone, rest) = postponed(false, words)?;
    let (id, rest) = id_behind(b"action_id", rest)?;
    if_last(
        rest,
        Op::QueueIndirectDestroy {
            queue,
            postpone,
            id,
        },
    )
}
