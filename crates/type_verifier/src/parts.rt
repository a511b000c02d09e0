//! What the verifier makes of a method's head and its code.

ghost use Rattle.std.specs.Prelude.{IfOk, OnOk};
ghost use Rattle.type_verifier.specs.Tables.{IsTable, Adds, NameLasts};
ghost use Rattle.type_verifier.specs.ProgramTables.{AreParts};

use crate::{Difference, Names, Own, differences, first_types, given_of, handlers_of};
use class_link::{LinkedCode, LinkedMethod};
use class_model::Memory;
use type_rows::Given;
use vframes::{Handler, SlotType};

/// What a method's head and its code say by number: its class, the receiver with the arguments,
/// what it gives, the frames that it states, and its handlers.
#[derive(Drop)]
pub struct Parts {
    pub class: usize,
    pub first: Vec<SlotType>,
    pub given: Given,
    pub differences: Vec<Difference>,
    pub handlers: Vec<Handler>,
}

/// The parts of a method of the class of this number, and of its code.
pub fn parts_of(
    names: &mut Names,
    own: &Own,
    class: usize,
    method: &LinkedMethod,
    code: &LinkedCode,
) -> Result<Parts, Memory>
    requires table { IsTable own.now.program.now names.old }
    requires class { NameLasts names.old.list.items class own.now.name.now }
    ensures adds { OnOk result (Adds own.now.program.now names.old names.new) }
    ensures parts { IfOk result (AreParts own.now method.now code.now names.new.list.items) }
{
    let first = first_types(names, own.program, own.name, class, method)?;
    let given = given_of(names, own.program, &method.result)?;
    let differences = differences(names, own.program, code.frames.as_slice())?;
    let handlers = handlers_of(names, own.program, code.rows.as_slice())?;
    Ok(Parts {
        class,
        first,
        given,
        differences,
        handlers,
    })
}
