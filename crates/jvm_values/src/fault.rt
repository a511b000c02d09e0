//! Why an allocation was refused.

ghost use Rattle.std.specs.Prelude.{◌≡◌};
ghost use Rattle.jvm_values.specs.declared.fault.HeapFault.TheVariants.{Memory as NoMemory};

use class_model::Memory;
use std::alloc::{AllocError, AllocFailed};
use thiserror::Error;

/// Why the heap made no object.
#[derive(Clone, Copy, Debug, Error)]
pub enum HeapFault {
    /// The words in use would pass the heap's limit.
    #[error("the heap is full")]
    Full,
    /// Memory has run out.
    #[error("out of memory")]
    Memory,
}

impl From<Memory> for HeapFault {
    ghost from_gives = { λ _ e. e ≡ NoMemory };

    fn from(_: Memory) -> Self {
        HeapFault::Memory
    }
}

impl From<AllocError> for HeapFault {
    ghost from_gives = { λ _ e. e ≡ NoMemory };

    fn from(_: AllocError) -> Self {
        HeapFault::Memory
    }
}

impl<T: Drop> From<AllocFailed<T>> for HeapFault {
    ghost from_gives = { λ _ e. e ≡ NoMemory };

    fn from(_: AllocFailed<T>) -> Self {
        HeapFault::Memory
    }
}
