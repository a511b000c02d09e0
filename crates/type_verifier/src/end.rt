//! Why a program isn't accepted.

ghost use Rattle.std.specs.Prelude.{◌≡◌};
ghost use Rattle.type_verifier.specs.declared.end.VerifyEnd.TheVariants.{Memory as NoMemory};

use class_model::{ClassId, Memory};

/// The rule that refuses a program, and where: the class, the method by its place there, and the
/// instruction, which is the first one for rules 1 and 2.
#[derive(Clone, Copy)]
pub struct VerifyFault {
    pub class: ClassId,
    pub method: u32,
    pub at: u32,
    pub rule: u8,
}

/// Why there is no answer that all code is accepted.
#[derive(Clone, Copy)]
pub enum VerifyEnd {
    /// The first fault.
    Refused(VerifyFault),
    /// Memory has run out.
    Memory,
}

impl From<Memory> for VerifyEnd {
    ghost from_gives = { λ _ e. e ≡ NoMemory };

    fn from(_: Memory) -> Self {
        VerifyEnd::Memory
    }
}
