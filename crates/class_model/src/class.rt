ghost use Rattle.std.specs.Prelude.{◌≡◌, IfOk};

use crate::attribute::Attr;
use crate::constant::Const;
use crate::copies::Copied;
use crate::list::Seq;
use crate::memory::Memory;

/// A class file (JVMS 4.1). Indices are those of the constant pool, counted from 1.
#[derive(Drop)]
pub struct Class {
    pub minor: u16,
    pub major: u16,
    pub pool: Seq<Const>,
    pub flags: u16,
    pub this: u16,
    /// The superclass, or 0 for `java/lang/Object`.
    pub parent: u16,
    pub interfaces: Seq<u16>,
    pub fields: Seq<Member>,
    pub methods: Seq<Member>,
    pub attrs: Seq<Attr>,
}

/// A field or a method (JVMS 4.5, 4.6): its access flags and the indices of its name and its
/// descriptor.
#[derive(Drop)]
pub struct Member {
    pub flags: u16,
    pub name: u16,
    pub desc: u16,
    pub attrs: Seq<Attr>,
}

/// A class of a program, by its number there.
#[derive(Clone, Copy, PartialEq, Eq)]
pub struct ClassId(pub u32);

impl Class {
    /// An equal value.
    pub fn copy(&self) -> Result<Class, Memory>
        ensures { IfOk result (λ c. c ≡ self.now) }
    {
        Ok(Class {
            minor: self.minor,
            major: self.major,
            pool: self.pool.copy()?,
            flags: self.flags,
            this: self.this,
            parent: self.parent,
            interfaces: self.interfaces.copy()?,
            fields: self.fields.copy()?,
            methods: self.methods.copy()?,
            attrs: self.attrs.copy()?,
        })
    }
}

impl Member {
    /// An equal value.
    pub fn copy(&self) -> Result<Member, Memory>
        ensures { IfOk result (λ c. c ≡ self.now) }
    {
        Ok(Member {
            flags: self.flags,
            name: self.name,
            desc: self.desc,
            attrs: self.attrs.copy()?,
        })
    }
}

impl Copied for Member {
    fn copied(&self) -> Result<Member, Memory> {
        self.copy()
    }
}

impl Copied for ClassId {
    fn copied(&self) -> Result<ClassId, Memory> {
        Ok(*self)
    }
}
