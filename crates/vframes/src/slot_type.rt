//! Verification types by number.

ghost use Rattle.std.specs.Prelude.{◌≡◌, ◌<◌, List, true, false};
ghost use Rattle.program_rules.specs.Types.{LongType};
ghost use Rattle.type_rules.specs.Assignability.{width as width_of};
ghost use Rattle.type_rules.specs.Frames.{is_uninit_this};
ghost use Rattle.vframes.specs.View.{type_of, IsNoPair};
ghost use Rattle.vframes.specs.declared.named.Named.{Named};

/// A verification type (JVMS 4.10.1.2). A class or an array has the number of its name among those
/// that its class mentions.
#[derive(Clone, Copy)]
pub enum SlotType {
    Top,
    Int,
    Long,
    Null,
    UninitThis,
    Uninit(u32),
    Obj(usize),
}

impl SlotType {
    /// The words that a value of this type takes.
    pub fn width(self) -> u32
        ensures value { (ns : List Named) → result ≡ width_of (type_of ns self) }
        ensures small { result < 3 }
    {
        match self {
            SlotType::Long => 2,
            SlotType::Top => 1,
            SlotType::Int => 1,
            SlotType::Null => 1,
            SlotType::UninitThis => 1,
            SlotType::Uninit(_) => 1,
            SlotType::Obj(_) => 1,
        }
    }

    /// Whether it is `this` that isn't initialised.
    pub fn is_uninit_this(self) -> bool
        ensures { (ns : List Named) → result ≡ is_uninit_this (type_of ns self) }
    {
        match self {
            SlotType::UninitThis => true,
            SlotType::Top => false,
            SlotType::Int => false,
            SlotType::Long => false,
            SlotType::Null => false,
            SlotType::Uninit(_) => false,
            SlotType::Obj(_) => false,
        }
    }

    /// Whether a value of this type takes two words.
    pub fn is_wide(self) -> bool
        ensures long { (ns : List Named) → result ≡ true → type_of ns self ≡ LongType }
        ensures word { (ns : List Named) → result ≡ false → IsNoPair (type_of ns self) }
    {
        match self {
            SlotType::Long => true,
            SlotType::Top => false,
            SlotType::Int => false,
            SlotType::Null => false,
            SlotType::UninitThis => false,
            SlotType::Uninit(_) => false,
            SlotType::Obj(_) => false,
        }
    }
}
