//! The forms of a line.
ghost use Rattle.std.specs.Prelude.{◌≡◌, IfOk, map};
ghost use Rattle.flow_grammar.specs.Forms as spec;
ghost use Rattle.rule_words.specs.Vocabulary.{meaning_of};

use crate::line::Line;
use crate::numbers::number_32;
use crate::op_list::OpList;
use crate::verbs::{read_ops, verb_of};
use crate::words::if_last;
use flow_calls::BadKind;
use rule_words::meaning;
use std::alloc::{AllocError, Global};

/// The most frames of a `forward`: as many as phases reach.
const MAX_FRAMES: u32 = 1_048_576;

/// The only port of the session.
const PORT: u32 = 0;

/// What the first word of a line names.
#[derive(Clone, Copy)]
pub(crate) enum Command {
    Flow,
    Start,
    Forward,
    Stop,
    Quit,
}

static COMMANDS: [(&str, Command); 5] = [
    ("flow", Command::Flow),
    ("start", Command::Start),
    ("forward", Command::Forward),
    ("stop", Command::Stop),
    ("quit", Command::Quit),
];

/// The command that a word is.
pub(crate) fn command_of(word: &[u8]) -> Option<Command>
    ensures { result ≡ meaning_of spec.commands word.now }
{
    meaning(&COMMANDS, word)
}

/// What the words behind a command say.
pub(crate) fn read_command(
    alloc: Global,
    command: Command,
    words: &[&[u8]],
) -> Result<Option<Line>, AllocError>
    ensures { IfOk result (λ said. said ≡ spec.said_by command (map (λ word. word.now) words.now)) }
{
    match command {
        Command::Flow => flow_line(alloc, words),
        Command::Start => Ok(if_last(words, Line::Start(None))),
        Command::Forward => Ok(forward_line(words)),
        Command::Stop => Ok(if_last(words, Line::Stop)),
        Command::Quit => Ok(if_last(words, Line::Quit)),
    }
}

/// `NUMBER`.
#[tactic(auto, unfolding(crate::specs::Forms::forward_line))]
fn forward_line(words: &[&[u8]]) -> Option<Line>
    ensures { result ≡ spec.forward_line (map (λ word. word.now) words.now) }
{
    let (count, rest) = number_32(words)?;
    if !rest.is_empty() {
        return None;
    }
    if count == 0 || count > MAX_FRAMES {
        return None;
    }
    Some(Line::Start(Some(count)))
}

/// `VERB PORT ..`.
#[tactic(auto, unfolding(crate::specs::Forms::flow_line))]
fn flow_line(alloc: Global, words: &[&[u8]]) -> Result<Option<Line>, AllocError>
    ensures { IfOk result (λ said. said ≡ spec.flow_line (map (λ word. word.now) words.now)) }
{
    let Some((word, rest)) = words.split_first() else {
        return Ok(None);
    };
    let Some(verb) = verb_of(word) else {
        return Ok(None);
    };
    let Some((port, rest)) = number_32(rest) else {
        return Ok(None);
    };
    let Some(ops) = read_ops(alloc, verb, rest)? else {
        return Ok(None);
    };
    Ok(Some(on_port(port, ops)))
}

/// A flow line asks for its ops, or for none where it names another port.
fn on_port(port: u32, ops: OpList) -> Line
    ensures { result ≡ spec.on_port port ops }
{
    if port != PORT {
        return Line::Bad(BadKind::Port);
    }
    Line::Calls(ops)
}
