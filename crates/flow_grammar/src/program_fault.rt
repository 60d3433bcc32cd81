//! Why a script has no program.
use std::alloc::AllocError;

/// Why a script has no program.
#[derive(Clone, Copy, Debug, PartialEq, Eq)]
pub enum ProgramFault {
    /// More than 65,536 lines, or more than 65,536 calls.
    TooLarge,
    NoMemory,
}

impl From<AllocError> for ProgramFault {
    ghost use Rattle.std.specs.Prelude.{◌≡◌};
    ghost use Rattle.flow_grammar.specs.declared.program_fault.ProgramFault.TheVariants.{NoMemory};

    ghost from_gives = { λ _ fault. fault ≡ NoMemory };

    fn from(_value: AllocError) -> ProgramFault {
        ProgramFault::NoMemory
    }
}
