//! What a line says.
ghost use Rattle.std.specs.Prelude.{◌≡◌, IfOk, map};
ghost use Rattle.flow_grammar.specs.Line.{line_of, line_of_words};

use crate::forms::{command_of, read_command};
use crate::op_list::OpList;
use crate::words::{are_printable, words_of};
use flow_calls::BadKind;
use std::alloc::{AllocError, Global};

/// What a line says, wherever it stands.
#[derive(Drop)]
pub enum Line {
    /// Calls on the port, in order.
    Calls(OpList),
    /// `start` or `forward`: opens a phase over all frames that remain, or over so many of them.
    Start(Option<u32>),
    /// `stop`: closes a phase.
    Stop,
    /// `quit`: ends the script.
    Quit,
    /// No word.
    Blank,
    /// A line that isn't carried out.
    Bad(BadKind),
}

/// Reads a line, without its line end. Every line says one thing: one that fits no form is `Bad(Arguments)`, and one that
/// fits a flow form with a port other than 0 is `Bad(Port)`.
pub fn read_line(alloc: Global, line: &[u8]) -> Result<Line, AllocError>
    ensures { IfOk result (λ said. said ≡ line_of line.now) }
{
    let words = words_of(alloc, line)?;
    if !are_printable(&words) {
        return Ok(Line::Bad(BadKind::Arguments));
    }
    read_words(alloc, &words)
}

/// What a line of these words says.
fn read_words(alloc: Global, words: &[&[u8]]) -> Result<Line, AllocError>
    ensures { IfOk result (λ said. said ≡ line_of_words (map (λ word. word.now) words.now)) }
{
    let Some((word, rest)) = words.split_first() else {
        return Ok(Line::Blank);
    };
    let Some(command) = command_of(word) else {
        return Ok(Line::Bad(BadKind::Arguments));
    };
    match read_command(alloc, command, rest)? {
        Some(said) => Ok(said),
        None => Ok(Line::Bad(BadKind::Arguments)),
    }
}
