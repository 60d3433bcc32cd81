//! Lines that destroy things by their ids.
ghost use Rattle.std.specs.Prelude.{◌≡◌, ◌<◌, ◌≤◌, ◌^◌, IfOk, IfSome, map, option_map};
ghost use Rattle.flow_grammar.specs.Destroys.{id_word, id_bits, listed_ids, destroy_of, destroys_of};
ghost use Rattle.rule_words.specs.Ids.{AreBelow};

use crate::op_list::OpList;
use flow_calls::Op;
use rule_words::{IdList, read_ids};
use std::alloc::{AllocError, Global};

/// What a line destroys.
#[derive(Clone, Copy)]
pub(crate) enum Object {
    Rule,
    /// An action that rules share.
    Indirect,
    PatternTemplate,
    ActionsTemplate,
    /// A template table.
    Table,
    /// A rule of a table, by way of this flow queue.
    Queued { queue: u16, postpone: bool },
}

/// The most ids of a line that destroys: it asks for as many calls.
const MAX_DESTROYED: usize = 64;

impl Object {
    /// The word in front of each id.
    fn id_word(self) -> &'static [u8]
        ensures { result.now ≡ id_word self }
    {
        match self {
            Object::Rule => b"rule",
            Object::Indirect => b"action_id",
            Object::PatternTemplate => b"pattern_template",
            Object::ActionsTemplate => b"actions_template",
            Object::Table => b"table",
            Object::Queued { .. } => b"rule",
        }
    }

    /// How many bits an id has.
    fn id_bits(self) -> u8
        ensures value { result ≡ id_bits self }
        ensures narrow { result ≤ 32 }
    {
        match self {
            Object::Rule => 32,
            Object::Indirect => 16,
            Object::PatternTemplate => 16,
            Object::ActionsTemplate => 16,
            Object::Table => 16,
            Object::Queued { .. } => 32,
        }
    }

    /// The call that destroys the one of this id.
    fn destroy(self, id: u32) -> Op
        requires { id < 2 ^ id_bits self }
        ensures { result ≡ destroy_of self id }
    {
        match self {
            Object::Rule => Op::Destroy(id),
            Object::Indirect => Op::IndirectDestroy(id as u16),
            Object::PatternTemplate => Op::PatternTemplateDestroy(id as u16),
            Object::ActionsTemplate => Op::ActionsTemplateDestroy(id as u16),
            Object::Table => Op::TableDestroy(id as u16),
            Object::Queued { queue, postpone } => Op::QueueDestroy {
                queue,
                postpone,
                rule: id,
            },
        }
    }
}

/// `WORD ID { WORD ID }`.
#[tactic(auto, unfolding(crate::specs::Destroys::listed_ids))]
fn read_listed(word: &[u8], bits: u8, words: &[&[u8]]) -> Option<IdList>
    requires { bits ≤ 32 }
    ensures value { option_map (λ ids. ids.items) result
        ≡ listed_ids word.now bits (map (λ word. word.now) words.now) }
    ensures small { IfSome result (λ ids. AreBelow (2 ^ bits) ids.items) }
{
    let (ids, rest) = read_ids(word, bits, MAX_DESTROYED, words)?;
    if !rest.is_empty() {
        return None;
    }
    Some(ids)
}

/// The calls that destroy these.
fn destroy_ops(alloc: Global, object: Object, ids: &IdList) -> Result<OpList, AllocError>
    requires { AreBelow (2 ^ id_bits object) ids.now.items }
    ensures { IfOk result (λ destroys. destroys ≡ map (destroy_of object) ids.now.items) }
{
    let mut destroys = OpList::new(alloc);
    for id in ids.as_slice() {
        destroys.push(object.destroy(*id))?;
    }
    Ok(destroys)
}

/// The calls that words ask for that destroy things of one kind.
pub(crate) fn read_destroys(
    alloc: Global,
    object: Object,
    words: &[&[u8]],
) -> Result<Option<OpList>, AllocError>
    ensures { IfOk result (λ ops. ops ≡ destroys_of object (map (λ word. word.now) words.now)) }
{
    let Some(ids) = read_listed(object.id_word(), object.id_bits(), words) else {
        return Ok(None);
    };
    let destroys = destroy_ops(alloc, object, &ids)?;
    Ok(Some(destroys))
}
