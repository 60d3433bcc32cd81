//! The verbs of flow lines.
ghost use Rattle.std.specs.Prelude.{◌≡◌, IfOk, map};
ghost use Rattle.flow_grammar.specs.Forms as spec;
ghost use Rattle.rule_words.specs.Vocabulary.{meaning_of};

use crate::destroys::{Object, read_destroys};
use crate::indirect_actions::read_indirect;
use crate::op_list::{OpList, one_op};
use crate::queues::{read_configure, read_pull, read_push, read_queue};
use crate::rule_lists::read_rule_lists;
use crate::templates::{Made, read_made};
use crate::words::{behind, if_last};
use flow_calls::{Op, RuleLists};
use flow_rules::RuleSpec;
use rule_words::{first_number, flag_and_rest, meaning, read_attributes};
use shared_value::Shared;
use std::alloc::{AllocError, Global};

/// What a flow line asks for.
#[derive(Clone, Copy)]
pub(crate) enum Verb {
    Validate,
    Create,
    Destroy,
    Flush,
    List,
    Isolate,
    Query,
    IndirectAction,
    PatternTemplate,
    ActionsTemplate,
    TemplateTable,
    Configure,
    Queue,
    Push,
    Pull,
}

static VERBS: [(&str, Verb); 15] = [
    ("validate", Verb::Validate),
    ("create", Verb::Create),
    ("destroy", Verb::Destroy),
    ("flush", Verb::Flush),
    ("list", Verb::List),
    ("isolate", Verb::Isolate),
    ("query", Verb::Query),
    ("indirect_action", Verb::IndirectAction),
    ("pattern_template", Verb::PatternTemplate),
    ("actions_template", Verb::ActionsTemplate),
    ("template_table", Verb::TemplateTable),
    ("configure", Verb::Configure),
    ("queue", Verb::Queue),
    ("push", Verb::Push),
    ("pull", Verb::Pull),
];

/// The verb that a word is.
pub(crate) fn verb_of(word: &[u8]) -> Option<Verb>
    ensures { result ≡ meaning_of spec.verbs word.now }
{
    meaning(&VERBS, word)
}

/// The ops that the words behind a verb and its port ask for.
pub(crate) fn read_ops(
    alloc: Global,
    verb: Verb,
    words: &[&[u8]],
) -> Result<Option<OpList>, AllocError>
    ensures { IfOk result (λ ops. ops ≡ spec.asked verb (map (λ word. word.now) words.now)) }
{
    match verb {
        Verb::Validate => {
            let Some(rule) = read_rule(words) else {
                return Ok(None);
            };
            let rule = Shared::new(alloc, rule)?;
            one_op(alloc, Some(Op::Validate(rule)))
        }
        Verb::Create => {
            let Some(rule) = read_rule(words) else {
                return Ok(None);
            };
            let rule = Shared::new(alloc, rule)?;
            one_op(alloc, Some(Op::Create(rule)))
        }
        Verb::Destroy => read_destroys(alloc, Object::Rule, words),
        Verb::Flush => one_op(alloc, if_last(words, Op::Flush)),
        Verb::List => one_op(alloc, if_last(words, Op::List)),
        Verb::Isolate => one_op(alloc, read_switch(words)),
        Verb::Query => one_op(alloc, read_query(words)),
        Verb::IndirectAction => read_indirect(alloc, words),
        Verb::PatternTemplate => read_made(alloc, Made::Pattern, words),
        Verb::ActionsTemplate => read_made(alloc, Made::Actions, words),
        Verb::TemplateTable => read_made(alloc, Made::Table, words),
        Verb::Configure => one_op(alloc, read_configure(words)),
        Verb::Queue => read_queue(alloc, words),
        Verb::Push => one_op(alloc, read_push(words)),
        Verb::Pull => one_op(alloc, read_pull(words)),
    }
}

/// `ATTRS pattern ITEMS actions ACTIONS`.
#[tactic(auto, unfolding(crate::specs::Forms::rule_of))]
fn read_rule(words: &[&[u8]]) -> Option<RuleSpec>
    ensures { result ≡ spec.rule_of (map (λ word. word.now) words.now) }
{
    let (attr, rest) = read_attributes(b"pattern", words)?;
    let RuleLists { pattern, actions } = read_rule_lists(rest)?;
    Some(RuleSpec {
        attr,
        pattern,
        actions,
    })
}

/// `RULE count`.
#[tactic(auto, unfolding(crate::specs::Forms::query_of))]
fn read_query(words: &[&[u8]]) -> Option<Op>
    ensures { result ≡ spec.query_of (map (λ word. word.now) words.now) }
{
    let (id, rest) = first_number(32, words)?;
    let rest = behind(b"count", rest)?;
    if !rest.is_empty() {
        return None;
    }
    Some(Op::Query(id as u32))
}

/// `BOOL`.
#[tactic(auto, unfolding(crate::specs::Forms::switch_of))]
fn read_switch(words: &[&[u8]]) -> Option<Op>
    ensures { result ≡ spec.switch_of (map (λ word. word.now) words.now) }
{
    let (on, rest) = flag_and_rest(words)?;
    if !rest.is_empty() {
        return None;
    }
    Some(Op::Isolate(on))
}
