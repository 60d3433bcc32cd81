//! What `flow pattern_template PORT ..`, `flow actions_template PORT ..` and `flow template_table PORT ..` ask.
ghost use Rattle.std.specs.Prelude.{◌≡◌, ◌<◌, ◌≤◌, ◌^◌, IfOk, length, map, option_map};
ghost use Rattle.flow_calls.specs.declared.call.Op.TheVariants as ops;
ghost use Rattle.flow_grammar.specs.Templates as spec;
ghost use Rattle.rule_words.specs.Ids.{AreBelow, ids_of};

use crate::destroys::{Object, read_destroys};
use crate::numbers::{given_id, number_32};
use crate::op_list::{OpList, one_op};
use crate::words::{behind, first_meaning, last};
use arrayvec::ArrayVec;
use flow_calls::{ActionLists, Op, TableTemplates};
use flow_rules::Attr;
use pattern_items::Pattern;
use rule_binding::Masks;
use rule_words::{
    IdList, read_actions, read_attributes, read_directions, read_ids, read_items, read_masks,
};
use shared_value::Shared;
use std::alloc::{AllocError, Global};

/// The most templates of a kind that a table names.
const MAX_TEMPLATES: usize = 8;

/// What a line makes, or destroys.
#[derive(Clone, Copy)]
pub(crate) enum Made {
    /// A pattern template.
    Pattern,
    /// An actions template.
    Actions,
    /// A template table.
    Table,
}

impl Made {
    /// What a line of this kind destroys.
    fn object(self) -> Object
        ensures { result ≡ spec.object_of self }
    {
        match self {
            Made::Pattern => Object::PatternTemplate,
            Made::Actions => Object::ActionsTemplate,
            Made::Table => Object::Table,
        }
    }
}

/// What is asked of templates, and of tables.
#[derive(Clone, Copy)]
pub(crate) enum TemplateVerb {
    Create,
    Destroy,
}

static VERBS: [(&str, TemplateVerb); 2] = [
    ("create", TemplateVerb::Create),
    ("destroy", TemplateVerb::Destroy),
];

/// The ops that the words behind `flow pattern_template PORT`, and those of actions templates and tables, ask for.
pub(crate) fn read_made(
    alloc: Global,
    made: Made,
    words: &[&[u8]],
) -> Result<Option<OpList>, AllocError>
    ensures { IfOk result (λ ops. ops ≡ spec.made_asked made (map (λ word. word.now) words.now)) }
{
    let Some((verb, rest)) = first_meaning(&VERBS, words) else {
        return Ok(None);
    };
    match verb {
        TemplateVerb::Create => one_op(alloc, read_created(alloc, made, rest)?),
        TemplateVerb::Destroy => read_destroys(alloc, made.object(), rest),
    }
}

/// What a line makes.
fn read_created(alloc: Global, made: Made, words: &[&[u8]]) -> Result<Option<Op>, AllocError>
    ensures { IfOk result (λ op. op ≡ spec.created_of made (map (λ word. word.now) words.now)) }
{
    match made {
        Made::Pattern => read_pattern(alloc, words),
        Made::Actions => read_lists(alloc, words),
        Made::Table => read_table(alloc, words),
    }
}

/// `[pattern_template_id ID] DIRS template ITEMS`.
fn read_pattern(alloc: Global, words: &[&[u8]]) -> Result<Option<Op>, AllocError>
    ensures { IfOk result (λ op. op ≡ spec.pattern_of (map (λ word. word.now) words.now)) }
{
    let Some((id, attr, pattern)) = pattern_words(words) else {
        return Ok(None);
    };
    let pattern = Shared::new(alloc, pattern)?;
    Ok(Some(Op::PatternTemplateCreate { id, attr, pattern }))
}

#[tactic(auto, unfolding(crate::specs::Templates::pattern_of))]
fn pattern_words(words: &[&[u8]]) -> Option<(Option<u16>, Attr, Pattern)>
    ensures { option_map (λ read. ops.PatternTemplateCreate read.0 read.1 read.2) result ≡ spec.pattern_of (map (λ word. word.now) words.now) }
{
    let (id, rest) = given_id(b"pattern_template_id", words)?;
    let (attr, rest) = read_directions(b"template", rest)?;
    let pattern = last(read_items(rest))?;
    Some((id, attr, pattern))
}

/// `[actions_template_id ID] DIRS template ACTIONS mask ACTIONS`.
fn read_lists(alloc: Global, words: &[&[u8]]) -> Result<Option<Op>, AllocError>
    ensures { IfOk result (λ op. op ≡ spec.actions_template_of (map (λ word. word.now) words.now)) }
{
    let Some((id, attr, lists)) = list_words(words) else {
        return Ok(None);
    };
    let lists = Shared::new(alloc, lists)?;
    Ok(Some(Op::ActionsTemplateCreate { id, attr, lists }))
}

#[tactic(auto, unfolding(crate::specs::Templates::actions_template_of))]
fn list_words(words: &[&[u8]]) -> Option<(Option<u16>, Attr, ActionLists)>
    ensures { option_map (λ read. ops.ActionsTemplateCreate read.0 read.1 read.2) result
        ≡ spec.actions_template_of (map (λ word. word.now) words.now) }
{
    let (id, rest) = given_id(b"actions_template_id", words)?;
    let (attr, rest) = read_directions(b"template", rest)?;
    let lists = both_lists(rest)?;
    Some((id, attr, lists))
}

/// `ACTIONS mask ACTIONS`.
#[tactic(auto, unfolding(crate::specs::Templates::lists_of))]
fn both_lists(words: &[&[u8]]) -> Option<ActionLists>
    ensures { result ≡ spec.lists_of (map (λ word. word.now) words.now) }
{
    let (actions, rest) = read_actions(words)?;
    let rest = behind(b"mask", rest)?;
    let masks = last(read_masks(rest))?;
    Some(ActionLists { actions, masks })
}

/// `[table_id ID] ATTRS rules_number NUMBER pattern_template ID {..} actions_template ID {..}`.
fn read_table(alloc: Global, words: &[&[u8]]) -> Result<Option<Op>, AllocError>
    ensures { IfOk result (λ op. op ≡ spec.table_of (map (λ word. word.now) words.now)) }
{
    let Some((id, attr, rules_number, templates)) = table_words(words) else {
        return Ok(None);
    };
    let templates = Shared::new(alloc, templates)?;
    Ok(Some(Op::TableCreate {
        id,
        attr,
        rules_number,
        templates,
    }))
}

#[tactic(auto, unfolding(crate::specs::Templates::table_of))]
fn table_words(words: &[&[u8]]) -> Option<(Option<u16>, Attr, u32, TableTemplates)>
    ensures { option_map (λ read. ops.TableCreate read.0 read.1 read.2 read.3) result ≡ spec.table_of (map (λ word. word.now) words.now) }
{
    let (id, rest) = given_id(b"table_id", words)?;
    let (attr, rest) = read_attributes(b"rules_number", rest)?;
    let (rules_number, rest) = number_32(rest)?;
    let templates = both_kinds(rest)?;
    Some((id, attr, rules_number, templates))
}

/// `pattern_template ID {..} actions_template ID {..}`.
#[tactic(auto, unfolding(crate::specs::Templates::templates_of))]
fn both_kinds(words: &[&[u8]]) -> Option<TableTemplates>
    ensures { result ≡ spec.templates_of (map (λ word. word.now) words.now) }
{
    let (patterns, rest) = template_ids(b"pattern_template", words)?;
    let actions = last(template_ids(b"actions_template", rest))?;
    Some(TableTemplates { patterns, actions })
}

/// 1 to 8 ids of templates, each behind this word, and the words behind them.
fn template_ids<'w, 'a>(
    name: &[u8],
    words: &'w [&'a [u8]],
) -> Option<(ArrayVec<u16, MAX_TEMPLATES>, &'w [&'a [u8]])>
    ensures { option_map (λ read. (read.0.items, map (λ word. word.now) read.1.now)) result
        ≡ ids_of name.now 16 8 (map (λ word. word.now) words.entry.now) }
{
    let (ids, rest) = read_ids(name, 16, MAX_TEMPLATES, words)?;
    Some((short_ids(&ids), rest))
}

/// Ids of 16 bits.
fn short_ids(ids: &IdList) -> ArrayVec<u16, MAX_TEMPLATES>
    requires short { length ids.now.items ≤ 8 }
    requires small { AreBelow (2 ^ 16) ids.now.items }
    ensures { result.items ≡ ids.now.items }
{
    let mut short = ArrayVec::new();
    for id in ids.as_slice() {
        short.push(short_id(*id));
    }
    short
}

fn short_id(id: u32) -> u16
    requires { id < 2 ^ 16 }
    ensures { result ≡ id }
{
    id as u16
}
