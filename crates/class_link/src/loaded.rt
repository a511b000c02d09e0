//! Where the classes of a program come from.

use crate::shared::Shared;
use class_model::{Attr, Class, Code, Const, Name, Seq, SharedBytes};

/// A class file and what it says.
#[derive(Drop)]
pub struct Loaded {
    pub bytes: SharedBytes,
    pub class: Class,
}

/// A class file that an edit makes of another one: what is made anew, and the bytes of the whole.
/// All else is the other's.
#[derive(Drop)]
pub struct EditedFile {
    pub original: Shared<Loaded>,
    /// The place of the edited method among those of the class, and its attributes.
    pub method: usize,
    pub attrs: Seq<Attr>,
    /// The entries that stand behind those of the constant pool.
    pub added: Seq<Const>,
    pub bytes: SharedBytes,
}

/// What stands behind the head of a method of the library.
#[derive(Drop)]
pub enum LibBody {
    /// A native method by its number.
    Native(u16),
    /// Code, whose indices count in the constant pool of its class.
    Written(Code),
    Abstract,
}

#[derive(Drop)]
pub struct LibField {
    pub name: Name,
    pub desc: Name,
    pub flags: u16,
}

#[derive(Drop)]
pub struct LibMethod {
    pub name: Name,
    pub desc: Name,
    pub flags: u16,
    pub body: LibBody,
}

/// A class that comes with the machine.
#[derive(Drop)]
pub struct LibClass {
    pub name: Name,
    pub parent: Option<Name>,
    pub interfaces: Seq<Name>,
    pub flags: u16,
    /// What the indices in the codes of its methods count in, from 1.
    pub pool: Seq<Const>,
    pub fields: Seq<LibField>,
    pub methods: Seq<LibMethod>,
}

/// Where a class comes from.
#[derive(Drop)]
pub enum ClassBody {
    File(Shared<Loaded>),
    Edited(EditedFile),
    Library(LibClass),
}
