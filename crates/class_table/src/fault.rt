//! Why there is no program of given classes.

ghost use Rattle.std.specs.Prelude.{◌≡◌};
ghost use Rattle.class_table.specs.declared.fault.TableFault.TheVariants.{Memory as NoMemory};

use class_model::{Memory, Name};
use std::alloc::{AllocError, AllocFailed};
use thiserror::Error;

/// Why there is no program of these classes.
#[derive(Debug, Drop, Error)]
pub enum TableFault {
    /// Two classes have this name.
    #[error("two classes have one name")]
    Duplicate { name: Name },
    /// The superclass of this class or one of its interfaces is no class of the program.
    #[error("a superclass or an interface is missing")]
    SuperMissing { name: Name },
    /// This class stands above itself.
    #[error("a class stands above itself")]
    SuperCycle { name: Name },
    /// The superclass of this class is final or an interface, or an interface has another
    /// superclass than Object, or one of its interfaces is none.
    #[error("a superclass or an interface is of a wrong kind")]
    SuperKind { name: Name },
    /// Memory has run out.
    #[error("out of memory")]
    Memory,
}

impl From<Memory> for TableFault {
    ghost from_gives = { λ _ e. e ≡ NoMemory };

    fn from(_: Memory) -> Self {
        TableFault::Memory
    }
}

impl From<AllocError> for TableFault {
    ghost from_gives = { λ _ e. e ≡ NoMemory };

    fn from(_: AllocError) -> Self {
        TableFault::Memory
    }
}

impl<T: Drop> From<AllocFailed<T>> for TableFault {
    ghost from_gives = { λ _ e. e ≡ NoMemory };

    fn from(_: AllocFailed<T>) -> Self {
        TableFault::Memory
    }
}
