//! A table of an index, and which table is a rule's.
ghost use Rattle.std.specs.Prelude.{◌≡◌, IsTrue, List, IfOk, IfSome, None, Some};
ghost use Rattle.std.specs.Option.{option_map};
ghost use Rattle.rule_index.specs.Tables.{digest_in, IsEven, lines_of, IsOf, IsAt, IsHome, Grows};

use crate::digest::{Digester, digest_by};
use crate::line::{ShapeLine, are_lines_by, lines_by};
use crate::tables::Tables;
use crate::turn::{cut, order_of};
use crate::wanted::Wanted;
use flow_rules::Rule;
use packet_headers::Key;
use pattern_items::Shape;
use std::alloc::{AllocError, Global};

/// The rules of one group and priority whose tests have these lines, or, without lines, that have a range.
#[derive(Drop)]
pub(crate) struct Table {
    pub(crate) group: u32,
    pub(crate) priority: u32,
    /// Whether frames of one digest are accepted by the same rules.
    pub(crate) exact: bool,
    pub(crate) lines: Option<Vec<ShapeLine>>,
}

/// Where rules are at home that accept the same frames, or may do so: a table, and a digest there.
#[derive(Clone, Copy, PartialEq, Eq, Hash)]
pub(crate) struct Home {
    pub(crate) digest: u128,
    pub(crate) table: usize,
}

impl Table {
    /// The digest that a frame has in this table, where a rule of it may accept the frame.
    #[inline]
    pub(crate) fn digest(&self, key: &Key) -> Option<u128>
        ensures { result ≡ digest_in self.now key.now }
    {
        match &self.lines {
            None => Some(0),
            Some(lines) => digest_by(
                Digester {
                    lines: lines.as_slice(),
                    exact: self.exact,
                },
                key,
            ),
        }
    }
}

/// Whether these are the lines of a shape, or there are neither.
fn are_lines_of(lines: &Option<Vec<ShapeLine>>, shape: &Option<Shape>) -> bool
    requires { IsEven shape.now }
    ensures { IsTrue result → option_map (λ l. l.items) lines.now ≡ lines_of shape.now }
{
    let Some(shape) = shape else {
        return lines.is_none();
    };
    let Some(lines) = lines else {
        return false;
    };
    are_lines_by(
        lines.as_slice(),
        shape.kinds.as_slice(),
        shape.masks.as_slice(),
    )
}

/// The lines of a shape, if there is one.
fn lines_of(alloc: Global, shape: &Option<Shape>) -> Result<Option<Vec<ShapeLine>>, AllocError>
    requires { IsEven shape.now }
    ensures { IfOk result (λ lines. option_map (λ l. l.items) lines ≡ lines_of shape.now) }
{
    let Some(shape) = shape else {
        return Ok(None);
    };
    let lines = lines_by(alloc, shape.kinds.as_slice(), shape.masks.as_slice())?;
    Ok(Some(lines))
}

/// Whether a table is what is wanted.
fn is_of(table: &Table, wanted: &Wanted) -> bool
    requires { IsEven wanted.now.shape }
    ensures { IsTrue result → IsOf table.now wanted.now }
{
    if table.group != wanted.group {
        return false;
    }
    if table.priority != wanted.priority {
        return false;
    }
    if table.exact != wanted.exact {
        return false;
    }
    are_lines_of(&table.lines, &wanted.shape)
}

/// The table that is what is wanted, if there is one.
fn table_of(tables: &Tables, wanted: &Wanted) -> Option<usize>
    requires { IsEven wanted.now.shape }
    ensures { IfSome result (IsAt tables.now.list wanted.now) }
{
    let order = order_of(wanted.group, wanted.priority);
    let turns = tables.turns();
    for place in cut(turns, order)..turns.len() {
        let turn = turns[place];
        if turn.order != order {
            return None;
        }
        if is_of(&tables.list()[turn.number], wanted) {
            return Some(turn.number);
        }
    }
    None
}

/// A table as it is wanted.
fn table_for(alloc: Global, wanted: &Wanted) -> Result<Table, AllocError>
    requires { IsEven wanted.now.shape }
    ensures { IfOk result (λ table. IsOf table wanted.now) }
{
    let lines = lines_of(alloc, &wanted.shape)?;
    Ok(Table {
        group: wanted.group,
        priority: wanted.priority,
        exact: wanted.exact,
        lines,
    })
}

/// The number of the wanted table, which is made where there is none.
fn number_of(alloc: Global, tables: &mut Tables, wanted: &Wanted) -> Result<usize, AllocError>
    requires { IsEven wanted.now.shape }
    ensures grows { Grows tables.old.list tables.new.list }
    ensures is { IfOk result (IsAt tables.new.list wanted.now) }
{
    if let Some(number) = table_of(tables, wanted) {
        return Ok(number);
    }
    let table = table_for(alloc, wanted)?;
    let number = tables.list().len();
    tables.push(table)?;
    Ok(number)
}

/// Where a rule is at home.
pub(crate) fn home_of(alloc: Global, tables: &mut Tables, rule: &Rule) -> Result<Home, AllocError>
    ensures grows { Grows tables.old.list tables.new.list }
    ensures home { IfOk result (IsHome tables.new.list rule.now) }
{
    let wanted = Wanted::by(rule);
    let table = number_of(alloc, tables, &wanted)?;
    Ok(Home {
        digest: wanted.digest,
        table,
    })
}
