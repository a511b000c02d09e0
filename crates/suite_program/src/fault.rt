//! Why classes are no program, or no accepted one.

ghost use Rattle.std.specs.Prelude.{◌≡◌};
ghost use Rattle.suite_program.specs.declared.fault.ProgramEnd.TheVariants.{Memory as NoMemory};

use class_model::{Memory, Name};

/// The first fault of the classes of a suite.
#[derive(Drop)]
pub enum ProgramFault {
    /// Two classes have this name.
    Duplicate {
        name: Name,
    },
    /// The superclass of this class, or one of its interfaces, is missing.
    SuperMissing {
        name: Name,
    },
    /// This class stands above itself.
    SuperCycle {
        name: Name,
    },
    /// The superclass of this class, or one of its interfaces, is of a wrong kind.
    SuperKind {
        name: Name,
    },
    /// The code of this class is refused: its method by name and descriptor written together, the
    /// number of the instruction, and that of the rule, of which there are 13.
    Code {
        class: Name,
        method: Name,
        at: u32,
        rule: u8,
    },
}

/// Why there is no program.
#[derive(Drop)]
pub enum ProgramEnd {
    Refused(ProgramFault),
    /// Memory has run out.
    Memory,
}

impl From<Memory> for ProgramEnd {
    ghost from_gives = { λ _ e. e ≡ NoMemory };

    fn from(_: Memory) -> Self {
        ProgramEnd::Memory
    }
}
