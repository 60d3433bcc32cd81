//! What lines and calls say, as short texts for the tests.
use flow_actions::{Action, Actions, Rss};
use flow_calls::{ActionLists, BadKind, Op, RuleLists, TableTemplates};
use flow_grammar::{Line, read_line};
use flow_rules::{Attr, RuleSpec};
use packet_headers::ItemKind;
use pattern_items::{Fields, Item, Pattern};
use rule_binding::Masks;
use std::alloc::{AllocError, Global};
use std::fmt::Write;
use std::process::Abort;
use std::test::Fail;

/// The numbers that aren't 0, by their places, behind a name.
fn show_fields(out: &mut String, name: &str, fields: &Option<Fields>) -> Result<(), AllocError> {
    let Some(fields) = fields else {
        return Ok(());
    };
    write!(out, " {name}")?;
    for (place, number) in fields.v.iter().enumerate() {
        if *number != 0 {
            write!(out, " {place}={number:x}")?;
        }
    }
    Ok(())
}

fn kind_text(kind: ItemKind) -> &'static str {
    match kind {
        ItemKind::Void => "void",
        ItemKind::Eth => "eth",
        ItemKind::Vlan => "vlan",
        ItemKind::Ipv4 => "ipv4",
        ItemKind::Ipv6 => "ipv6",
        ItemKind::Tcp => "tcp",
        ItemKind::Udp => "udp",
        ItemKind::Vxlan => "vxlan",
    }
}

fn show_item(out: &mut String, item: &Item) -> Result<(), AllocError> {
    out.push_str(", ")?;
    out.push_str(kind_text(item.kind))?;
    show_fields(out, "spec", &item.given)?;
    show_fields(out, "last", &item.last)?;
    show_fields(out, "mask", &item.mask)
}

fn show_action(out: &mut String, action: &Action) -> Result<(), AllocError> {
    match action {
        Action::Void => out.push_str(" void"),
        Action::Queue(queue) => {
            let queue = *queue;
            write!(out, " {queue}")
        }
        Action::Rss(rss) => show_rss(out, rss),
        Action::Drop => out.push_str(" drop"),
        Action::Jump(group) => {
            let group = *group;
            write!(out, " jump {group}")
        }
        Action::Mark(mark) => {
            let mark = *mark;
            write!(out, " mark {mark}")
        }
        Action::Count => out.push_str(" count"),
        Action::Indirect(id) => {
            let id = *id;
            write!(out, " indirect {id}")
        }
        Action::Set(edit) => write!(out, " {edit:?}"),
    }
}

/// The types as a number, and the queues.
fn show_rss(out: &mut String, rss: &Rss) -> Result<(), AllocError> {
    let types = rss.types;
    write!(out, " rss {types} of")?;
    for queue in rss.queues.as_slice() {
        write!(out, " {queue}")?;
    }
    Ok(())
}

/// The actions, of which a queue is its number, and how many stood behind the first 16.
fn show_actions(out: &mut String, actions: &Actions) -> Result<(), AllocError> {
    for action in actions.list.as_slice() {
        show_action(out, action)?;
    }
    let more = actions.more;
    if more != 0 {
        write!(out, " {more} more")?;
    }
    Ok(())
}

/// The attributes that aren't those of `ingress` alone.
fn show_attr(out: &mut String, attr: &Attr) -> Result<(), AllocError> {
    let group = attr.group;
    if group != 0 {
        write!(out, " group {group}")?;
    }
    let priority = attr.priority;
    if priority != 0 {
        write!(out, " priority {priority}")?;
    }
    if !attr.ingress {
        out.push_str(" no-ingress")?;
    }
    if attr.egress {
        out.push_str(" egress")?;
    }
    if attr.transfer {
        out.push_str(" transfer")?;
    }
    Ok(())
}

/// The items, and how many stood behind the first 16.
fn show_items(out: &mut String, pattern: &Pattern) -> Result<(), AllocError> {
    for item in pattern.items.as_slice() {
        show_item(out, item)?;
    }
    let more = pattern.more;
    if more != 0 {
        write!(out, ", {more} more")?;
    }
    Ok(())
}

/// The actions, the attributes, and the items.
fn show_rule(out: &mut String, verb: &str, rule: &RuleSpec) -> Result<(), AllocError> {
    out.push_str(verb)?;
    show_actions(out, &rule.actions)?;
    show_attr(out, &rule.attr)?;
    show_items(out, &rule.pattern)
}

fn bad_text(kind: BadKind) -> &'static str {
    match kind {
        BadKind::Arguments => "bad",
        BadKind::Port => "port",
        BadKind::NotStarted => "not-started",
        BadKind::AlreadyStarted => "already-started",
    }
}

/// The creation of an action that rules share, with its id where it has one.
fn show_indirect(
    out: &mut String,
    id: &Option<u16>,
    attr: &Attr,
    action: &Action,
) -> Result<(), AllocError> {
    out.push_str("indirect")?;
    if let Some(id) = id {
        let id = *id;
        write!(out, " {id}")?;
    }
    out.push_str(" create")?;
    show_action(out, action)?;
    show_attr(out, attr)
}

/// The creation of a template or a table, with its id where it has one.
fn show_made(out: &mut String, name: &str, id: &Option<u16>) -> Result<(), AllocError> {
    out.push_str(name)?;
    if let Some(id) = id {
        let id = *id;
        write!(out, " {id}")?;
    }
    out.push_str(" create")
}

/// Whether the action at a place of a mask list is set.
fn is_set_at(masks: &Masks, place: usize) -> bool {
    match masks.set.get(place) {
        Some(set) => *set,
        None => false,
    }
}

/// The kinds of a mask list, those that are set with `=`, and how many stood behind the first 16.
fn show_lists(out: &mut String, lists: &ActionLists) -> Result<(), AllocError> {
    show_actions(out, &lists.actions)?;
    out.push_str(", mask")?;
    for (place, kind) in lists.masks.kinds.as_slice().iter().enumerate() {
        write!(out, " {kind:?}")?;
        if is_set_at(&lists.masks, place) {
            out.push_str("=")?;
        }
    }
    let more = lists.masks.more;
    if more != 0 {
        write!(out, " {more} more")?;
    }
    Ok(())
}

/// The ids of a table's templates.
fn show_table(
    out: &mut String,
    rules_number: u32,
    templates: &TableTemplates,
) -> Result<(), AllocError> {
    write!(out, " for {rules_number} of")?;
    for id in templates.patterns.as_slice() {
        write!(out, " {id}")?;
    }
    out.push_str(" with")?;
    for id in templates.actions.as_slice() {
        write!(out, " {id}")?;
    }
    Ok(())
}

/// The end of a thing of this name and id.
fn show_end(out: &mut String, name: &str, id: u16) -> Result<(), AllocError> {
    write!(out, "{name} {id} destroy;")
}

/// The calls on templates and tables.
fn show_template_op(out: &mut String, op: &Op) -> Result<(), AllocError> {
    match op {
        Op::PatternTemplateCreate { id, attr, pattern } => {
            show_made(out, "pattern", id)?;
            show_attr(out, attr)?;
            show_items(out, pattern.get())
        }
        Op::PatternTemplateDestroy(id) => show_end(out, "pattern", *id),
        Op::ActionsTemplateCreate { id, attr, lists } => {
            show_made(out, "actions", id)?;
            show_attr(out, attr)?;
            show_lists(out, lists.get())
        }
        Op::ActionsTemplateDestroy(id) => show_end(out, "actions", *id),
        Op::TableCreate {
            id,
            attr,
            rules_number,
            templates,
        } => {
            show_made(out, "table", id)?;
            show_attr(out, attr)?;
            show_table(out, *rules_number, templates.get())
        }
        Op::TableDestroy(id) => show_end(out, "table", *id),
        _ => Ok(()),
    }
}

/// The flow queue of an operation, and whether it is only held.
fn show_queue(out: &mut String, queue: u16, postpone: bool) -> Result<(), AllocError> {
    write!(out, "queue {queue} ")?;
    if postpone {
        out.push_str("held ")?;
    }
    Ok(())
}

/// The creation of a rule of a table: the table and the indexes of its templates, the actions and the items.
fn show_bound(
    out: &mut String,
    table: u16,
    pt: u16,
    act: u16,
    lists: &RuleLists,
) -> Result<(), AllocError> {
    write!(out, "create {table}.{pt}.{act}")?;
    show_actions(out, &lists.actions)?;
    show_items(out, &lists.pattern)
}

/// A new value of an action that rules share.
fn show_update(out: &mut String, id: u16, action: &Action) -> Result<(), AllocError> {
    write!(out, "indirect {id} update")?;
    show_action(out, action)
}

/// The operations on flow queues.
fn show_queued(out: &mut String, op: &Op) -> Result<(), AllocError> {
    match op {
        Op::QueueCreate {
            queue,
            postpone,
            table,
            pt,
            act,
            lists,
        } => {
            show_queue(out, *queue, *postpone)?;
            show_bound(out, *table, *pt, *act, lists.get())
        }
        Op::QueueDestroy {
            queue,
            postpone,
            rule,
        } => {
            show_queue(out, *queue, *postpone)?;
            let rule = *rule;
            write!(out, "destroy {rule};")
        }
        Op::QueueIndirectCreate {
            queue,
            postpone,
            id,
            attr,
            action,
        } => {
            show_queue(out, *queue, *postpone)?;
            show_indirect(out, id, attr, action.get())
        }
        _ => Ok(()),
    }
}

/// The other operations on flow queues, and what else is asked of them.
fn show_queue_op(out: &mut String, op: &Op) -> Result<(), AllocError> {
    match op {
        Op::QueueIndirectUpdate {
            queue,
            postpone,
            id,
            action,
        } => {
            show_queue(out, *queue, *postpone)?;
            show_update(out, *id, action.get())
        }
        Op::QueueIndirectDestroy {
            queue,
            postpone,
            id,
        } => {
            show_queue(out, *queue, *postpone)?;
            show_end(out, "indirect", *id)
        }
        Op::Configure { queues, size } => {
            let queues = *queues;
            let size = *size;
            write!(out, "configure {queues} of {size}")
        }
        Op::Push(queue) => {
            let queue = *queue;
            write!(out, "push {queue}")
        }
        Op::Pull(queue) => {
            let queue = *queue;
            write!(out, "pull {queue}")
        }
        _ => show_queued(out, op),
    }
}

pub(crate) fn show_op(out: &mut String, op: &Op) -> Result<(), AllocError> {
    match op {
        Op::Validate(rule) => show_rule(out, "validate", rule.get()),
        Op::Create(rule) => show_rule(out, "create", rule.get()),
        Op::Destroy(id) => {
            let id = *id;
            write!(out, "destroy {id};")
        }
        Op::Flush => out.push_str("flush"),
        Op::Query(id) => {
            let id = *id;
            write!(out, "query {id}")
        }
        Op::List => out.push_str("list"),
        Op::Isolate(true) => out.push_str("isolate on"),
        Op::Isolate(false) => out.push_str("isolate off"),
        Op::IndirectCreate { id, attr, action } => show_indirect(out, id, attr, action.get()),
        Op::IndirectUpdate { id, action } => show_update(out, *id, action.get()),
        Op::IndirectDestroy(id) => show_end(out, "indirect", *id),
        Op::IndirectQuery(id) => {
            let id = *id;
            write!(out, "indirect {id} query")
        }
        Op::PatternTemplateCreate { .. }
        | Op::PatternTemplateDestroy(_)
        | Op::ActionsTemplateCreate { .. }
        | Op::ActionsTemplateDestroy(_)
        | Op::TableCreate { .. }
        | Op::TableDestroy(_) => show_template_op(out, op),
        Op::Configure { .. }
        | Op::QueueCreate { .. }
        | Op::QueueDestroy { .. }
        | Op::QueueIndirectCreate { .. }
        | Op::QueueIndirectUpdate { .. }
        | Op::QueueIndirectDestroy { .. }
        | Op::Push(_)
        | Op::Pull(_) => show_queue_op(out, op),
        Op::Start(None) => out.push_str("start"),
        Op::Start(Some(count)) => {
            let count = *count;
            write!(out, "start {count}")
        }
        Op::Stop => out.push_str("stop"),
        Op::Quit => out.push_str("quit"),
        Op::Bad(kind) => out.push_str(bad_text(*kind)),
    }
}

/// What a line says.
pub(crate) fn shown(alloc: Global, line: &[u8]) -> Result<String, AllocError> {
    let mut out = String::new(alloc);
    match read_line(alloc, line)? {
        Line::Calls(ops) => {
            for op in ops.as_slice() {
                show_op(&mut out, op)?;
            }
        }
        Line::Start(count) => show_op(&mut out, &Op::Start(count))?,
        Line::Stop => out.push_str("stop")?,
        Line::Quit => out.push_str("quit")?,
        Line::Blank => out.push_str("blank")?,
        Line::Bad(kind) => out.push_str(bad_text(kind))?,
    }
    Ok(out)
}

/// What a line says that creates a rule for queue 0 with these items.
fn shown_items(alloc: Global, items: &[u8]) -> Result<String, AllocError> {
    let mut line = Vec::new(alloc);
    line.extend_from_slice(b"flow create 0 ingress pattern ")?;
    line.extend_from_slice(items)?;
    line.extend_from_slice(b" actions queue index 0 / end")?;
    shown(alloc, &line)
}

fn push_times(bytes: &mut Vec<u8>, middle: &[u8], times: u32) -> Result<(), AllocError> {
    for _ in 0..times {
        bytes.extend_from_slice(middle)?;
    }
    Ok(())
}

/// A front, then a middle so many times, then a back.
pub(crate) fn repeated(
    alloc: Global,
    front: &[u8],
    middle: &[u8],
    times: u32,
    back: &[u8],
) -> Result<Vec<u8>, AllocError> {
    let mut bytes = Vec::from_slice(alloc, front)?;
    push_times(&mut bytes, middle, times)?;
    bytes.extend_from_slice(back)?;
    Ok(bytes)
}

/// A row's text as a failure tells it.
pub(crate) fn text_of(line: &[u8]) -> &str {
    match str::from_utf8(line) {
        Ok(text) => text,
        Err(_) => "bytes that are no text",
    }
}

/// What a line says that creates a rule for all frames with these actions.
pub(crate) fn shown_actions(alloc: Global, actions: &[u8]) -> Result<String, AllocError> {
    let mut line = Vec::new(alloc);
    line.extend_from_slice(b"flow create 0 ingress pattern end actions ")?;
    line.extend_from_slice(actions)?;
    shown(alloc, &line)
}

/// Whether each line says what stands beside it.
pub(crate) fn each_says(
    rt: &impl Abort,
    alloc: Global,
    rows: &[(&[u8], &str)],
) -> Result<(), Fail> {
    for (line, want) in rows {
        let found = shown(alloc, line)?;
        assert_eq!(rt; found.as_str(), *want, "at {}", text_of(line));
    }
    Ok(())
}

/// The same of the lines that create a rule for queue 0 with these items.
pub(crate) fn each_item_list_says(
    rt: &impl Abort,
    alloc: Global,
    rows: &[(&[u8], &str)],
) -> Result<(), Fail> {
    for (items, want) in rows {
        let found = shown_items(alloc, items)?;
        assert_eq!(rt; found.as_str(), *want, "at {}", text_of(items));
    }
    Ok(())
}
