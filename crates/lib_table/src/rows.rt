//! What a row of the table has. Each kind of row is a word of `specs/Stated.antt`.

use class_model::VItem;

/// An entry of a constant pool.
#[derive(Clone, Copy)]
pub enum ConstRow {
    Utf8(&'static str),
    Class(u16),
    Text(u16),
    Pair(u16, u16),
    Method(u16, u16),
}

/// An instruction of a written method, its opcode first.
#[derive(Clone, Copy)]
pub enum InsnRow {
    /// One without an operand.
    Op(u8),
    /// A jump to an instruction.
    Jump(u8, u32),
    /// `iinc` of a local.
    Increment(u16, i16),
    /// One that names an entry of the pool.
    Pool(u8, u16),
}

/// A frame without a stack, by its instruction: with the locals of the frame before it, and with
/// these more.
#[derive(Clone, Copy)]
pub enum FrameRow {
    Same(u32),
    More(u32, &'static [VItem]),
}

/// A written method: its entries in the constant pool of its class, its code, and its frames with
/// the index of the name of their table. Indices count in the pool of the class.
#[derive(Clone, Copy)]
pub struct CodeRow {
    pub pool: &'static [ConstRow],
    pub insns: &'static [InsnRow],
    pub table: u16,
    pub frames: &'static [FrameRow],
}

/// A public method: a native one by its number, each with its name and its descriptor.
#[derive(Clone, Copy)]
pub enum MethodRow {
    Native(u16, &'static str, &'static str),
    StaticNative(u16, &'static str, &'static str),
    Abstract(&'static str, &'static str),
    Written(&'static str, &'static str, &'static CodeRow),
    StaticWritten(&'static str, &'static str, &'static CodeRow),
}

/// A public class: its name, its superclass, its interfaces and its methods.
#[derive(Clone, Copy)]
pub enum ClassRow {
    Class(&'static str, &'static str, &'static [&'static str], &'static [MethodRow]),
    FinalClass(&'static str, &'static str, &'static [&'static str], &'static [MethodRow]),
    AbstractClass(&'static str, &'static str, &'static [&'static str], &'static [MethodRow]),
    /// An interface, whose superclass is Object.
    Interface(&'static str, &'static [&'static str], &'static [MethodRow]),
    /// The class above all others.
    Root(&'static str, &'static [MethodRow]),
    /// A class with private fields, by name and descriptor, and without interfaces.
    WithFields(
        &'static str,
        &'static str,
        &'static [(&'static str, &'static str)],
        &'static [MethodRow],
    ),
}
