ghost use Rattle.std.specs.Prelude.{◌≡◌, IfOk};
ghost use Rattle.class_model.specs.declared.instruction.Arg.TheVariants as arg;

use crate::boxed::Boxed;
use crate::copies::Copied;
use crate::list::Seq;
use crate::memory::Memory;

/// An instruction (JVMS 6.5). It keeps the opcode as read, so a list of instructions has one
/// spelling.
#[derive(Drop)]
pub struct Insn {
    pub op: u8,
    /// Whether `wide` stands before it.
    pub wide: bool,
    pub arg: Arg,
}

/// What stands behind an opcode. A place in the code is an instruction number, counted from 0.
#[derive(Drop)]
pub enum Arg {
    None,
    /// The constant of `bipush` and `sipush`.
    Number(i16),
    /// An index of the constant pool.
    Pool(u16),
    /// The number of a local variable.
    Local(u16),
    /// The local variable of `iinc` and what is added to it.
    Inc(u16, i16),
    /// Where a jump goes.
    To(u32),
    /// A `tableswitch`: where the default goes; the lowest key, and where each key from there on
    /// goes.
    Table(u32, Boxed<(i32, Seq<u32>)>),
    /// A `lookupswitch`: where the default goes, and each key with where it goes.
    Lookup(u32, Boxed<Seq<(i32, u32)>>),
    /// What an array of `newarray` holds.
    Kind(u8),
    /// The class of `multianewarray` and the number of its dimensions.
    Multi(u16, u8),
}

impl Insn {
    /// An equal value.
    pub fn copy(&self) -> Result<Insn, Memory>
        ensures { IfOk result (λ c. c ≡ self.now) }
    {
        Ok(Insn {
            op: self.op,
            wide: self.wide,
            arg: self.arg.copy()?,
        })
    }
}

impl Copied for Insn {
    fn copied(&self) -> Result<Insn, Memory> {
        self.copy()
    }
}

impl Arg {
    /// The operands of a `tableswitch`.
    pub fn table(default: u32, low: i32, targets: Seq<u32>) -> Result<Arg, Memory>
        ensures { IfOk result (λ made. made ≡ arg.Table default (low, targets)) }
    {
        let alloc = targets.allocator();
        let table = Boxed::new(alloc, (low, targets))?;
        Ok(Arg::Table(default, table))
    }

    /// The operands of a `lookupswitch`.
    pub fn lookup(default: u32, keys: Seq<(i32, u32)>) -> Result<Arg, Memory>
        ensures { IfOk result (λ made. made ≡ arg.Lookup default keys) }
    {
        let alloc = keys.allocator();
        let keys = Boxed::new(alloc, keys)?;
        Ok(Arg::Lookup(default, keys))
    }

    /// An equal value.
    pub fn copy(&self) -> Result<Arg, Memory>
        ensures { IfOk result (λ c. c ≡ self.now) }
    {
        match self {
            Arg::None => Ok(Arg::None),
            Arg::Number(value) => Ok(Arg::Number(*value)),
            Arg::Pool(index) => Ok(Arg::Pool(*index)),
            Arg::Local(local) => Ok(Arg::Local(*local)),
            Arg::Inc(local, by) => Ok(Arg::Inc(*local, *by)),
            Arg::To(target) => Ok(Arg::To(*target)),
            Arg::Table(default, table) => {
                let (low, targets) = table.get();
                Arg::table(*default, *low, targets.copy()?)
            }
            Arg::Lookup(default, keys) => Arg::lookup(*default, keys.get().copy()?),
            Arg::Kind(kind) => Ok(Arg::Kind(*kind)),
            Arg::Multi(index, dimensions) => Ok(Arg::Multi(*index, *dimensions)),
        }
    }
}
