//! Why a text is no class.

ghost use Rattle.std.specs.Prelude.{◌≡◌};
ghost use Rattle.class_asm.specs.declared.fault.AsmFault.TheVariants as asm_fault;

use class_model::Memory;
use std::alloc::{AllocError, AllocFailed};
use thiserror::Error;

/// Why a text is no class.
#[derive(Clone, Copy, Debug, Error)]
pub enum AsmFault {
    /// The first line at fault, counted from 1.
    #[error("line {line} is at fault")]
    Line { line: u64 },
    #[error("out of memory")]
    Memory,
}

impl From<Memory> for AsmFault {
    ghost from_gives = { λ _ e. e ≡ asm_fault.Memory };

    fn from(_e: Memory) -> AsmFault {
        AsmFault::Memory
    }
}

impl From<AllocError> for AsmFault {
    ghost from_gives = { λ _ e. e ≡ asm_fault.Memory };

    fn from(_e: AllocError) -> AsmFault {
        AsmFault::Memory
    }
}

impl<T: Drop> From<AllocFailed<T>> for AsmFault {
    ghost from_gives = { λ _ e. e ≡ asm_fault.Memory };

    fn from(_e: AllocFailed<T>) -> AsmFault {
        AsmFault::Memory
    }
}
