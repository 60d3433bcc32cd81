//! The program of a script.
ghost use Rattle.std.specs.Prelude.{◌≡◌, true, false, IfOk, OnOk};
ghost use Rattle.flow_grammar.specs.Program.{program_of};
ghost use Rattle.flow_grammar.specs.Limits.{is_too_large};

use crate::draft::Draft;
use crate::line::read_line;
use crate::lines::{lines_of, without_carriage_return};
use crate::part::Program;
use crate::program_fault::ProgramFault;
use std::alloc::Global;

/// The most lines of a script, those behind `quit` too: so that the number of a line, and what a line asks for, stay small.
const MAX_LINES: usize = 65_536;

/// The most calls of a script, the closings that `quit` and the script's end add among them: a call takes some 6 KB, so
/// those of the largest script take some 400 MB.
const MAX_CALLS: usize = 65_536;

/// Reads a script: all its lines up to `quit`, or to its end. One with more than 65,536 lines or calls is too large.
pub fn program(alloc: Global, script: &[u8]) -> Result<Program, ProgramFault>
    ensures program { IfOk result (λ program. program ≡ program_of script.now) }
    ensures within_limits { OnOk result (is_too_large script.now ≡ false) }
    ensures too_large { result ≡ Err ProgramFault.TooLarge → is_too_large script.now ≡ true }
{
    let lines = lines_of(alloc, script)?;
    if lines.len() > MAX_LINES {
        return Err(ProgramFault::TooLarge);
    }
    let mut draft = Draft::new(alloc);
    let mut number: u32 = 1;
    for line in &lines {
        let said = read_line(alloc, without_carriage_return(line))?;
        let ended = draft.add(alloc, number, said)?;
        number += 1;
        if draft.count() > MAX_CALLS {
            return Err(ProgramFault::TooLarge);
        }
        if ended {
            let program = draft.finish(alloc, number)?;
            return Ok(program);
        }
    }
    let program = draft.finish(alloc, number)?;
    Ok(program)
}
