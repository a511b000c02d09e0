//! Objects that aren't initialised, and where they stand in a frame.

ghost use Rattle.std.specs.Prelude.{◌≡◌, IfOk, map};
ghost use Rattle.std.specs.List.{list_any};
ghost use Rattle.vframes.specs.Fresh.{is_fresh, slot_replaced};

use crate::slot_type::SlotType;
use class_model::Memory;
use std::alloc::Global;

/// An object that isn't initialised: `this`, or what the `new` at an instruction gave.
#[derive(Clone, Copy)]
pub enum Fresh {
    This,
    New(u32),
}

impl Fresh {
    /// Whether a type is that of this object.
    pub fn is_of(self, t: SlotType) -> bool
        ensures { result ≡ is_fresh self t }
    {
        match (self, t) {
            (Fresh::This, SlotType::UninitThis) => true,
            (Fresh::New(at), SlotType::Uninit(other)) => other == at,
            (_, _) => false,
        }
    }

    /// Whether it stands among these types.
    pub fn is_among(self, types: &[SlotType]) -> bool
        ensures { result ≡ list_any (is_fresh self) types.now }
    {
        types.iter().any(|t| self.is_of(*t))
    }

    // What stands in the place of a type.
    fn replaced(self, t: SlotType, with: SlotType) -> SlotType
        ensures { result ≡ slot_replaced self with t }
    {
        if self.is_of(t) { with } else { t }
    }

    /// These types with another one in the place of this object's, wherever it stands.
    pub fn replace(
        self,
        alloc: Global,
        types: &[SlotType],
        with: SlotType,
    ) -> Result<Vec<SlotType>, Memory>
        ensures { IfOk result (λ ts. ts.items ≡ map (slot_replaced self with) types.now) }
    {
        let mut replaced = Vec::with_capacity(alloc, types.len())?;
        for t in types {
            replaced.push(self.replaced(*t, with))?;
        }
        Ok(replaced)
    }
}
