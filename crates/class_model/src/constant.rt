ghost use Rattle.std.specs.Prelude.{◌≡◌, ◌++◌, IfOk, OnOk};

use crate::copies::Copied;
use crate::list::{Name, Seq};
use crate::memory::Memory;

/// An entry of the constant pool (JVMS 4.4). An index counts the entries from 1.
#[derive(Drop)]
pub enum Const {
    /// A text: tag 1.
    Utf8(Name),
    /// Tag 3.
    Integer(i32),
    /// Tag 4, its bits carried unread.
    Float(u32),
    /// Tag 5. It takes two places: the second holds `Second`.
    Long(i64),
    /// Tag 6, its bits carried unread. It takes two places: the second holds `Second`.
    Double(u64),
    /// A class by the index of its name: tag 7.
    Class(u16),
    /// A string by the index of its text, CONSTANT_String: tag 8.
    Text(u16),
    /// A field by the indices of its class and its pair: tag 9.
    Field(u16, u16),
    /// A class's method by the indices of its class and its pair: tag 10.
    Method(u16, u16),
    /// An interface's method by the indices of its class and its pair, CONSTANT_InterfaceMethodref:
    /// tag 11.
    IMethod(u16, u16),
    /// A name and a descriptor by their indices, CONSTANT_NameAndType: tag 12.
    Pair(u16, u16),
    /// A method handle, by its kind and the index of the member: tag 15.
    Handle(u8, u16),
    /// A method type by the index of its descriptor, CONSTANT_MethodType: tag 16.
    MethodKind(u16),
    /// A dynamic call site, by the number of its bootstrap method and the index of its pair: tag
    /// 18.
    Dynamic(u16, u16),
    /// The place behind a `Long` or a `Double`, which nothing may use.
    Second,
}

impl Const {
    /// An equal value.
    pub fn copy(&self) -> Result<Const, Memory>
        ensures { IfOk result (λ c. c ≡ self.now) }
    {
        match self {
            Const::Utf8(units) => Ok(Const::Utf8(units.copy()?)),
            Const::Integer(value) => Ok(Const::Integer(*value)),
            Const::Float(bits) => Ok(Const::Float(*bits)),
            Const::Long(value) => Ok(Const::Long(*value)),
            Const::Double(bits) => Ok(Const::Double(*bits)),
            Const::Class(name) => Ok(Const::Class(*name)),
            Const::Text(text) => Ok(Const::Text(*text)),
            Const::Field(class, pair) => Ok(Const::Field(*class, *pair)),
            Const::Method(class, pair) => Ok(Const::Method(*class, *pair)),
            Const::IMethod(class, pair) => Ok(Const::IMethod(*class, *pair)),
            Const::Pair(name, desc) => Ok(Const::Pair(*name, *desc)),
            Const::Handle(kind, member) => Ok(Const::Handle(*kind, *member)),
            Const::MethodKind(desc) => Ok(Const::MethodKind(*desc)),
            Const::Dynamic(bootstrap, pair) => Ok(Const::Dynamic(*bootstrap, *pair)),
            Const::Second => Ok(Const::Second),
        }
    }
}

impl Copied for Const {
    fn copied(&self) -> Result<Const, Memory> {
        self.copy()
    }
}

/// Adds entries at the end of a pool.
pub fn push_entries(pool: &mut Seq<Const>, added: &[Const]) -> Result<(), Memory>
    ensures { OnOk result (pool.new ≡ pool.old ++ added.now) }
{
    for entry in added {
        pool.push(entry.copy()?)?;
    }
    Ok(())
}
