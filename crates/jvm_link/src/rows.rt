//! What is kept, by the number of a class and an index of its constant pool.

ghost use Rattle.jvm_link.specs.References.{IsRight, IsTableOf};

use crate::held::{Held, hold};
use crate::{Callee, Site};
use class_model::{ClassId, Memory};
use class_table::Program;
use program_rules::Fault;

/// The class of an object, or of the elements of an array.
#[derive(Clone, Copy)]
pub struct Receiver {
    pub class: ClassId,
    pub array: bool,
}

/// What an index of a constant pool resolves to, with the class that its name stands for; or what
/// an object selects there, of the resolved method or by name, with the object's class.
#[derive(Clone, Copy)]
pub enum Kept {
    Class(ClassId),
    Field(ClassId, Result<Site, Fault>),
    Method(ClassId, Result<Callee, Fault>),
    Virtual(Receiver, Result<Callee, Fault>),
    Named(Receiver, Result<Callee, Fault>),
}

/// Keeps what is right for an index of a class.
#[tactic(auto, using(crate::proofs::Keeping::kept_more, crate::proofs::Keeping::kept_same))]
pub fn keep(
    rows: &mut Vec<Held<Kept>>,
    program: &Program,
    class: ClassId,
    index: u32,
    kept: Kept,
) -> Result<(), Memory>
    requires table { IsTableOf program.now rows.old.items }
    requires right { IsRight program.now class.0 index kept }
    ensures { IsTableOf program.now rows.new.items }
{
    hold(rows, class, index, kept)?;
    Ok(())
}
