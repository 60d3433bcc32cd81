//! A program as far as its lines were read.
ghost use Rattle.std.specs.Prelude.{◌≡◌, ◌+◌, ◌≤◌, ◌^◌, ◌<◌, ◌∷◌, ◌++◌, [], IfOk, OnOk, length};
ghost use Rattle.flow_grammar.specs.Draft.{program_with, TakesIn, IsCounted};
ghost use Rattle.flow_grammar.specs.Program as spec;
ghost use Rattle.flow_grammar.specs.Program.{calls_at, section_of, phase_of};

use crate::call_list::CallList;
use crate::line::Line;
use crate::owners::{Dealt, deal};
use crate::part::{Part, Program};
use flow_calls::{At, BadKind, Call, Op};
use std::alloc::{AllocError, Global};
use std::mem;

/// How the phase that is open began.
#[derive(Clone, Copy)]
struct Opening {
    line: u32,
    count: Option<u32>,
}

/// The parts that are whole, and the calls of the section or of the phase that is open.
#[derive(Drop)]
pub(crate) struct Draft {
    parts: Vec<Part>,
    opening: Option<Opening>,
    calls: CallList,
    /// How many calls the program has if the script ends here, the closing of an open phase among them.
    count: usize,
}

impl Draft {
    /// With no line.
    pub(crate) fn new(alloc: Global) -> Draft
        ensures parts { result.parts.items ≡ [] }
        ensures opening { result.opening ≡ None }
        ensures calls { result.calls ≡ [] }
        ensures count { result.count ≡ 0 }
    {
        Draft {
            parts: Vec::new(alloc),
            opening: None,
            calls: CallList::new(alloc),
            count: 0,
        }
    }

    /// How many calls the program has if the script ends here.
    pub(crate) fn count(&self) -> usize
        ensures { result ≡ self.now.count }
    {
        self.count
    }

    /// Adds the line of this number, and tells whether it ends the script.
    pub(crate) fn add(&mut self, alloc: Global, number: u32, said: Line) -> Result<bool, AllocError>
        requires counted { IsCounted self.old }
        requires room { self.old.count < 2 ^ 32 }
        ensures takes_in { IfOk result (λ ended. TakesIn self.old self.new number said ended) }
        ensures counted { OnOk result (IsCounted self.new) }
    {
        match said {
            Line::Calls(ops) => {
                self.count += ops.len();
                add_ops(&mut self.calls, number, ops.into_ops())?;
                Ok(false)
            }
            Line::Start(count) => self.start(alloc, number, count),
            Line::Stop => self.stop(alloc, number),
            Line::Quit => self.quit(alloc, number),
            Line::Blank => Ok(false),
            Line::Bad(kind) => {
                self.push(number, 1, Op::Bad(kind))?;
                Ok(false)
            }
        }
    }

    /// Puts a call behind those of the open part.
    fn push(&mut self, line: u32, part: u16, op: Op) -> Result<(), AllocError>
        requires { self.old.count < 2 ^ 32 }
        ensures { OnOk result (self.new
            ≡ record self.old { calls = self.old.calls ++ spec.call_at line part op ∷ []; count = self.old.count + 1 }) }
    {
        self.calls.push(call_at(line, part, op))?;
        self.count += 1;
        Ok(())
    }

    /// Opens a phase, unless one is open.
    fn start(&mut self, alloc: Global, number: u32, count: Option<u32>) -> Result<bool, AllocError>
        requires counted { IsCounted self.old }
        requires room { self.old.count < 2 ^ 32 }
        ensures takes_in { IfOk result (λ ended. TakesIn self.old self.new number (Line.Start count) ended) }
        ensures counted { OnOk result (IsCounted self.new) }
    {
        if self.opening.is_some() {
            self.push(number, 1, Op::Bad(BadKind::AlreadyStarted))?;
            return Ok(false);
        }
        self.end_section(alloc)?;
        self.opening = Some(Opening {
            line: number,
            count,
        });
        self.count += 2;
        Ok(false)
    }

    /// Closes the phase that is open.
    fn stop(&mut self, alloc: Global, number: u32) -> Result<bool, AllocError>
        requires counted { IsCounted self.old }
        requires room { self.old.count < 2 ^ 32 }
        ensures takes_in { IfOk result (λ ended. TakesIn self.old self.new number Line.Stop ended) }
        ensures counted { OnOk result (IsCounted self.new) }
    {
        let Some(opening) = self.opening else {
            self.push(number, 1, Op::Bad(BadKind::NotStarted))?;
            return Ok(false);
        };
        self.end_phase(alloc, number, opening)?;
        Ok(false)
    }

    /// Ends the script, and first the phase that is open.
    fn quit(&mut self, alloc: Global, number: u32) -> Result<bool, AllocError>
        requires counted { IsCounted self.old }
        requires room { self.old.count < 2 ^ 32 }
        ensures takes_in { IfOk result (λ ended. TakesIn self.old self.new number Line.Quit ended) }
        ensures counted { OnOk result (IsCounted self.new) }
    {
        let Some(opening) = self.opening else {
            self.push(number, 1, Op::Quit)?;
            return Ok(true);
        };
        self.end_phase(alloc, number, opening)?;
        self.push(number, 2, Op::Quit)?;
        Ok(true)
    }

    /// Ends the section, which is a part where it has a call.
    fn end_section(&mut self, alloc: Global) -> Result<(), AllocError>
        ensures parts { OnOk result (self.new.parts.items ≡ self.old.parts.items ++ section_of self.old.calls) }
        ensures calls { OnOk result (self.new.calls ≡ []) }
        ensures opening { self.new.opening ≡ self.old.opening }
        ensures count { self.new.count ≡ self.old.count }
    {
        if self.calls.is_empty() {
            return Ok(());
        }
        let calls = mem::replace(&mut self.calls, CallList::new(alloc));
        self.parts.push(Part::Section(calls))?;
        Ok(())
    }

    /// Ends the phase that began so.
    fn end_phase(&mut self, alloc: Global, number: u32, opening: Opening) -> Result<(), AllocError>
        ensures parts { OnOk result (self.new.parts.items
            ≡ self.old.parts.items ++ phase_of opening self.old.calls number ∷ []) }
        ensures calls { OnOk result (self.new.calls ≡ []) }
        ensures opening { self.new.opening ≡ None }
        ensures count { self.new.count ≡ self.old.count }
    {
        self.opening = None;
        let calls = mem::replace(&mut self.calls, CallList::new(alloc));
        let Dealt { shell, agents } = deal(alloc, calls)?;
        self.parts.push(Part::Phase {
            opening: call_at(opening.line, 1, Op::Start(opening.count)),
            count: opening.count,
            shell,
            agents,
            closing: call_at(number, 1, Op::Stop),
        })?;
        Ok(())
    }

    /// The program of a script that ends in front of the line of this number.
    pub(crate) fn finish(mut self, alloc: Global, number: u32) -> Result<Program, AllocError>
        ensures { IfOk result (λ program. program ≡ program_with self number []) }
    {
        match self.opening {
            Some(opening) => self.end_phase(alloc, number, opening)?,
            None => self.end_section(alloc)?,
        }
        let Draft {
            parts,
            opening: _,
            calls: _,
            count: _,
        } = self;
        Ok(Program::new(parts))
    }
}

fn call_at(line: u32, part: u16, op: Op) -> Call
    ensures { result ≡ spec.call_at line part op }
{
    Call {
        at: At { line, part },
        op,
    }
}

/// Puts the calls of a line behind the others.
fn add_ops(calls: &mut CallList, line: u32, ops: Vec<Op>) -> Result<(), AllocError>
    requires { length ops.items ≤ 64 }
    ensures { OnOk result (calls.new ≡ calls.old ++ calls_at line 1 ops.items) }
{
    let mut part: u16 = 1;
    for op in ops {
        calls.push(call_at(line, part, op))?;
        part += 1;
    }
    Ok(())
}
