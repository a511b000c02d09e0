//! Why sources aren't read.

ghost use Rattle.std.specs.Prelude.{◌≡◌};
ghost use Rattle.report_sources.specs.declared.fault.SourceFault.TheVariants as fault;

use class_model::Memory;

/// Why sources aren't read.
#[derive(Clone, Copy)]
pub enum SourceFault {
    /// They have more bytes than are read. With the first source that is too much they have so
    /// many.
    TooMany { bytes: u64 },
    /// A call of the tree failed.
    Failed,
    /// Memory has run out.
    Memory,
}

impl From<Memory> for SourceFault {
    ghost from_gives = { λ _ f. f ≡ fault.Memory };

    fn from(_: Memory) -> Self {
        SourceFault::Memory
    }
}
