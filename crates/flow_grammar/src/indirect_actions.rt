//! What `flow indirect_action PORT ..` asks.
ghost use Rattle.std.specs.Prelude.{◌≡◌, IfOk, map, option_map};
ghost use Rattle.flow_calls.specs.declared.call.Op.TheVariants as ops;
ghost use Rattle.flow_grammar.specs.IndirectActions as spec;
ghost use Rattle.flow_grammar.specs.Words.{first_meaning};

use crate::destroys::{Object, read_destroys};
use crate::numbers::{given_id, number_16};
use crate::op_list::{OpList, one_op};
use crate::words::{behind, first_meaning, if_last};
use flow_actions::Action;
use flow_calls::Op;
use flow_rules::Attr;
use rule_words::{read_action, read_directions};
use shared_value::Shared;
use std::alloc::{AllocError, Global};

/// What is asked of an action that rules share.
#[derive(Clone, Copy)]
pub(crate) enum IndirectVerb {
    Create,
    Update,
    Destroy,
    Query,
}

static VERBS: [(&str, IndirectVerb); 4] = [
    ("create", IndirectVerb::Create),
    ("update", IndirectVerb::Update),
    ("destroy", IndirectVerb::Destroy),
    ("query", IndirectVerb::Query),
];

/// What the first word asks of an action that rules share, and the words behind it.
pub(crate) fn indirect_verb<'w, 'a>(words: &'w [&'a [u8]]) -> Option<(IndirectVerb, &'w [&'a [u8]])>
    ensures { option_map (λ read. (read.0, map (λ word. word.now) read.1.now)) result
        ≡ first_meaning spec.verbs (map (λ word. word.now) words.entry.now) }
{
    first_meaning(&VERBS, words)
}

/// The ops that the words behind `flow indirect_action PORT` ask for.
pub(crate) fn read_indirect(alloc: Global, words: &[&[u8]]) -> Result<Option<OpList>, AllocError>
    ensures { IfOk result (λ ops. ops ≡ spec.indirect_asked (map (λ word. word.now) words.now)) }
{
    let Some((verb, rest)) = indirect_verb(words) else {
        return Ok(None);
    };
    read_asked(alloc, verb, rest)
}

/// The ops that the words behind a verb ask for.
fn read_asked(
    alloc: Global,
    verb: IndirectVerb,
    words: &[&[u8]],
) -> Result<Option<OpList>, AllocError>
    ensures { IfOk result (λ ops. ops ≡ spec.asked verb (map (λ word. word.now) words.now)) }
{
    match verb {
        IndirectVerb::Create => one_op(alloc, read_create(alloc, words)?),
        IndirectVerb::Update => one_op(alloc, read_update(alloc, words)?),
        IndirectVerb::Destroy => read_destroys(alloc, Object::Indirect, words),
        IndirectVerb::Query => one_op(alloc, read_query(words)),
    }
}

/// `[action_id ID] DIRS action ACTION / end`.
fn read_create(alloc: Global, words: &[&[u8]]) -> Result<Option<Op>, AllocError>
    ensures { IfOk result (λ op. op ≡ spec.create_of (map (λ word. word.now) words.now)) }
{
    let Some((id, attr, action)) = created_words(words) else {
        return Ok(None);
    };
    let action = Shared::new(alloc, action)?;
    Ok(Some(Op::IndirectCreate { id, attr, action }))
}

#[tactic(auto, unfolding(crate::specs::IndirectActions::created_of))]
pub(crate) fn created_words(words: &[&[u8]]) -> Option<(Option<u16>, Attr, Action)>
    ensures { result ≡ spec.created_of (map (λ word. word.now) words.now) }
{
    let (id, rest) = given_id(b"action_id", words)?;
    let (attr, rest) = read_directions(b"action", rest)?;
    let action = read_last_action(rest)?;
    Some((id, attr, action))
}

/// `ID action ACTION / end`.
fn read_update(alloc: Global, words: &[&[u8]]) -> Result<Option<Op>, AllocError>
    ensures { IfOk result (λ op. op ≡ spec.update_of (map (λ word. word.now) words.now)) }
{
    let Some((id, action)) = updated_words(words) else {
        return Ok(None);
    };
    let action = Shared::new(alloc, action)?;
    Ok(Some(Op::IndirectUpdate { id, action }))
}

#[tactic(auto, unfolding(crate::specs::IndirectActions::update_of))]
fn updated_words(words: &[&[u8]]) -> Option<(u16, Action)>
    ensures { option_map (λ read. ops.IndirectUpdate read.0 read.1) result ≡ spec.update_of (map (λ word. word.now) words.now) }
{
    let (id, rest) = number_16(words)?;
    let action = read_new_action(rest)?;
    Some((id, action))
}

/// `action ACTION / end`.
#[tactic(auto, unfolding(crate::specs::IndirectActions::new_action_of))]
pub(crate) fn read_new_action(words: &[&[u8]]) -> Option<Action>
    ensures { result ≡ spec.new_action_of (map (λ word. word.now) words.now) }
{
    let rest = behind(b"action", words)?;
    read_last_action(rest)
}

/// `ID`.
#[tactic(auto, unfolding(crate::specs::IndirectActions::query_of))]
fn read_query(words: &[&[u8]]) -> Option<Op>
    ensures { result ≡ spec.query_of (map (λ word. word.now) words.now) }
{
    let (id, rest) = number_16(words)?;
    if_last(rest, Op::IndirectQuery(id))
}

/// The action of words that end with it.
#[tactic(auto, unfolding(crate::specs::IndirectActions::last_action_of))]
fn read_last_action(words: &[&[u8]]) -> Option<Action>
    ensures { result ≡ spec.last_action_of (map (λ word. word.now) words.now) }
{
    let (action, rest) = read_action(words)?;
    let rest = behind(b"end", rest)?;
    if_last(rest, action)
}
