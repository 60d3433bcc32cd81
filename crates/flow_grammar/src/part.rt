//! A program and its parts.
ghost use Rattle.std.specs.Prelude.{◌≡◌, ◌<◌, length, slice_get};

use crate::call_list::CallList;
use flow_calls::Call;
use std::marker::Model;

/// A part of a program: calls outside phases, or a phase.
#[derive(Drop)]
pub enum Part {
    /// Calls of the shell up to the next phase, at least one.
    Section(CallList),
    /// A phase over `count` of the frames that remain, or over all of them.
    Phase {
        /// The call that opens it.
        opening: Call,
        count: Option<u32>,
        /// The shell's calls in the phase.
        shell: CallList,
        /// The calls of the agents of the flow queues 0 to 7 in the phase.
        agents: [CallList; 8],
        /// The call that closes it: the script's own, or one behind its last line.
        closing: Call,
    },
}

/// The parts of a script in order.
#[derive(Drop)]
pub struct Program {
    parts: Vec<Part>,
}

impl Model for Program {
    ghost use Rattle.std.specs.Prelude.{List};
    ghost use Rattle.flow_grammar.specs.declared.part.Part.{Part};

    ghost Value = { List Part };

    ghost view = { λ program. program.parts.items };
}

impl Program {
    pub(crate) fn new(parts: Vec<Part>) -> Program
        ensures { result ≡ parts.items }
    {
        Program { parts }
    }

    /// How many parts there are.
    pub fn len(&self) -> usize
        ensures { result ≡ length self.now }
    {
        self.parts.len()
    }

    /// The part at a place, counted from 0.
    pub fn get(&self, i: usize) -> &Part
        requires { i < length self.now }
        ensures { slice_get self.now i ≡ Some result.now }
    {
        &self.parts[i]
    }

    /// All parts.
    pub fn as_slice(&self) -> &[Part]
        ensures { result.now ≡ self.now }
    {
        self.parts.as_slice()
    }
}
