//! The lines of a shape: what its tests have in common.
ghost use Rattle.std.specs.Prelude.{◌≡◌, ◌≤◌, length, IfOk, IsTrue};
ghost use Rattle.rule_index.specs.Lines.{line_by, lines_by};

use packet_headers::ItemKind;
use pattern_items::Fields;
use std::alloc::{AllocError, Global};

/// What the tests of a shape say of one item: its kind, and by which masks its fields are compared.
#[derive(Clone, Copy, PartialEq, Eq, Debug)]
pub struct ShapeLine {
    pub kind: ItemKind,
    pub masks: Fields,
}

/// The lines of these kinds and masks.
#[tactic(auto, using(crate::proofs::Lists::lines_more))]
pub(crate) fn lines_by(
    alloc: Global,
    kinds: &[ItemKind],
    masks: &[Fields],
) -> Result<Vec<ShapeLine>, AllocError>
    requires { length kinds.now ≡ length masks.now }
    ensures { IfOk result (λ lines. lines.items ≡ lines_by kinds.now masks.now) }
{
    let mut lines = Vec::new(alloc);
    for place in 0..kinds.len() {
        lines.push(ShapeLine {
            kind: kinds[place],
            masks: masks[place],
        })?;
    }
    Ok(lines)
}

/// Whether this is the line of this kind and these masks.
fn is_line(line: &ShapeLine, kind: ItemKind, masks: &Fields) -> bool
    ensures { IsTrue result → line.now ≡ line_by kind masks.now }
{
    if line.kind != kind {
        return false;
    }
    line.masks == *masks
}

/// Whether these are the lines of these kinds and masks.
#[tactic(auto, using(crate::proofs::Lists::lines_next))]
pub(crate) fn are_lines_by(lines: &[ShapeLine], kinds: &[ItemKind], masks: &[Fields]) -> bool
    requires { length kinds.now ≡ length masks.now }
    ensures { IsTrue result → lines.now ≡ lines_by kinds.now masks.now }
{
    if lines.len() != kinds.len() {
        return false;
    }
    for place in 0..lines.len() {
        if !is_line(&lines[place], kinds[place], &masks[place]) {
            return false;
        }
    }
    true
}
