//! Instructions as the bytes have them.

use class_model::{Arg, Seq};

/// An instruction before its targets are known: a jump has an offset in bytes, from the
/// instruction's first byte, in place of the number of an instruction.
#[derive(Drop)]
pub struct RawInsn {
    pub op: u8,
    pub wide: bool,
    pub operand: Operand,
}

/// What stands behind an opcode, with offsets for targets.
#[derive(Drop)]
pub enum Operand {
    /// It has no target.
    Done(Arg),
    /// A jump's offset.
    To(i32),
    /// A `tableswitch`: the default's offset, the lowest key, and an offset for each key from there
    /// on.
    Table(i32, i32, Seq<i32>),
    /// A `lookupswitch`: the default's offset, and each key with its offset.
    Lookup(i32, Seq<(i32, i32)>),
}

/// The items of a `tableswitch`: the default's offset, the lowest and the highest key, and an
/// offset for each key between them.
#[derive(Drop)]
pub struct TableItems {
    pub default: i32,
    pub low: i32,
    pub high: i32,
    pub offsets: Seq<i32>,
}

/// An instruction and its place in the code.
#[derive(Drop)]
pub struct Placed {
    pub place: u64,
    pub insn: RawInsn,
}
