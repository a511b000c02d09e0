//! Why an edit makes nothing.

ghost use Rattle.std.specs.Prelude.{◌≡◌};
ghost use Rattle.mutant_apply.specs.declared.refusal.Refusal.TheVariants as refusal;

use class_model::Memory;

/// Why an edit makes nothing.
#[derive(Clone, Copy)]
pub enum Refusal {
    /// A bound of the format is passed.
    NoLayout,
    Memory,
}

impl From<Memory> for Refusal {
    ghost from_gives = { λ _ e. e ≡ refusal.Memory };

    fn from(_e: Memory) -> Refusal {
        Refusal::Memory
    }
}
