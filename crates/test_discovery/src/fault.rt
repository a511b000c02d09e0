//! Why a class of the tests folder is refused.

ghost use Rattle.std.specs.Prelude.{◌≡◌};
ghost use Rattle.test_discovery.specs.declared.fault.TestFault.TheVariants.{Memory as NoMemory};

use class_model::{Memory, Name};
use std::alloc::{AllocError, AllocFailed};

/// A rule that a method with a part in a test breaks.
#[derive(Clone, Copy)]
pub enum Rule {
    /// It takes or gives something.
    B1,
    /// It is static and of the instance, or isn't static and of the class.
    B2,
    /// It is abstract or private, or its name begins with `<`.
    B3,
    /// Its test class declares no constructor that takes nothing.
    B4,
    /// What is expected is no class.
    B5,
}

/// Why the tests aren't found.
#[derive(Drop)]
pub enum TestFault {
    /// A method that is looked at for this test class breaks a rule. Its name and its descriptor
    /// stand together.
    BadTest {
        class: Name,
        method: Name,
        rule: Rule,
    },
    /// A runner, an extension or a rule of its own stands on the class, a field or a method.
    RunnerUsed {
        class: Name,
    },
    /// Memory has run out.
    Memory,
}

impl From<Memory> for TestFault {
    ghost from_gives = { λ _ e. e ≡ NoMemory };

    fn from(_: Memory) -> Self {
        TestFault::Memory
    }
}

impl From<AllocError> for TestFault {
    ghost from_gives = { λ _ e. e ≡ NoMemory };

    fn from(_: AllocError) -> Self {
        TestFault::Memory
    }
}

impl<T: Drop> From<AllocFailed<T>> for TestFault {
    ghost from_gives = { λ _ e. e ≡ NoMemory };

    fn from(_: AllocFailed<T>) -> Self {
        TestFault::Memory
    }
}
