ghost use Rattle.std.specs.Prelude.{◌≡◌, IfOk};

use crate::copies::Copied;
use crate::instruction::Insn;
use crate::list::{Name, Seq};
use crate::memory::Memory;

/// The replacement of one instruction of a class: the number of its method, its own number there,
/// what stands in its place, and by how many words the method's stack may grow higher.
#[derive(Drop)]
pub struct Edit {
    pub method: u32,
    pub at: u32,
    pub with: Seq<NewInsn>,
    pub more_stack: u16,
}

/// An instruction that stands in the place of another, before it has entries of the constant pool.
#[derive(Drop)]
pub enum NewInsn {
    Plain(Insn),
    /// An `iinc` of this local variable by this constant, which may pass the bounds of both forms.
    Inc(u16, i32),
    /// An `ldc_w` of the empty string.
    EmptyText,
    /// An `invokestatic` of the method of this class, name and descriptor.
    Call(Name, Name, Name),
}

impl Edit {
    /// An equal value.
    pub fn copy(&self) -> Result<Edit, Memory>
        ensures { IfOk result (λ c. c ≡ self.now) }
    {
        Ok(Edit {
            method: self.method,
            at: self.at,
            with: self.with.copy()?,
            more_stack: self.more_stack,
        })
    }
}

impl NewInsn {
    /// An equal value.
    pub fn copy(&self) -> Result<NewInsn, Memory>
        ensures { IfOk result (λ c. c ≡ self.now) }
    {
        match self {
            NewInsn::Plain(insn) => Ok(NewInsn::Plain(insn.copy()?)),
            NewInsn::Inc(local, by) => Ok(NewInsn::Inc(*local, *by)),
            NewInsn::EmptyText => Ok(NewInsn::EmptyText),
            NewInsn::Call(class, name, desc) => Ok(NewInsn::Call(
                class.copy()?,
                name.copy()?,
                desc.copy()?,
            )),
        }
    }
}

impl Copied for NewInsn {
    fn copied(&self) -> Result<NewInsn, Memory> {
        self.copy()
    }
}
