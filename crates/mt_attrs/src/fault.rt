//! Why the items of an attribute can't be read, before it is known whose end cuts them.

ghost use Rattle.std.specs.Prelude.{◌≡◌};
ghost use Rattle.mt_attrs.specs.Item.{want_of_memory};
ghost use Rattle.mt_attrs.specs.Attributes.{fault_of};
ghost use Rattle.mt_attrs.specs.declared.fault.ItemFault.TheVariants as item_fault;

use class_model::{ClassFault, Memory};

/// The first fault that reading meets. A place is a byte offset in the file, from 0.
#[derive(Clone, Copy)]
pub enum ItemFault {
    /// Fewer than `need` bytes are left for the item that begins at `at`: the file or an attribute
    /// ends there.
    Short { at: u64, need: u64 },
    Bad(ClassFault),
}

impl From<Memory> for ItemFault {
    ghost from_gives = { λ _ e. e ≡ want_of_memory };

    fn from(_e: Memory) -> ItemFault {
        ItemFault::Bad(ClassFault::Memory)
    }
}

impl From<ClassFault> for ItemFault {
    ghost from_gives = { λ fault e. e ≡ item_fault.Bad fault };

    fn from(fault: ClassFault) -> ItemFault {
        ItemFault::Bad(fault)
    }
}
