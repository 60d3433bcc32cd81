//! The lines of a script.
ghost use Rattle.std.specs.Prelude.{◌≡◌, ◌-◌, ◌==◌, IfOk, length, map, slice_get};
ghost use Rattle.std.specs.List.{slice_split};
ghost use Rattle.std.specs.Str.Lines.{strip_carriage_return};
ghost use Rattle.flow_grammar.specs.Lines.{lines_with_returns, is_empty_line};

use std::alloc::{AllocError, Global};

/// The lines between LFs, each with the CR at its end where it has one.
pub(crate) fn lines_of(alloc: Global, script: &[u8]) -> Result<Vec<&[u8]>, AllocError>
    ensures { IfOk result (λ lines. map (λ line. line.now) lines.items
        ≡ lines_with_returns script.now) }
{
    let mut lines = split_at_feeds(alloc, script)?;
    if ends_empty(&lines) {
        let _ = lines.pop();
    }
    Ok(lines)
}

fn split_at_feeds(alloc: Global, script: &[u8]) -> Result<Vec<&[u8]>, AllocError>
    ensures { IfOk result (λ lines. map (λ line. line.now) lines.items
        ≡ slice_split (λ byte. byte == 10) script.now) }
{
    script.split(|byte| *byte == b'\n').collect(alloc)
}

/// Whether there is a last line, and it is empty.
fn ends_empty(lines: &[&[u8]]) -> bool
    ensures { result
        ≡ is_empty_line (slice_get (map (λ line. line.now) lines.now) (length lines.now - 1)) }
{
    match lines.last() {
        Some(line) => line.is_empty(),
        None => false,
    }
}

/// The line without the one CR at its end, if it has one.
pub(crate) fn without_carriage_return(line: &[u8]) -> &[u8]
    ensures { result.now ≡ strip_carriage_return line.entry.now }
{
    match line.split_last() {
        Some((b'\r', front)) => front,
        _ => line,
    }
}
