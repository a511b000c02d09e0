//! Names as texts of ASCII characters.

ghost use Rattle.std.specs.Prelude.{◌≡◌, IfOk, OnOk};
ghost use Rattle.type_verifier.specs.Tables.{IsTable, Adds, NameLasts};

use crate::names::Names;
use class_model::names::ascii_bytes;
use class_model::{Memory, Name, Seq};
use class_table::Program;
use std::alloc::Global;

/// The number of the name of these characters.
pub fn number_of(names: &mut Names, program: &Program, text: &[u8]) -> Result<usize, Memory>
    requires { IsTable program.now names.old }
    ensures adds { OnOk result (Adds program.now names.old names.new) }
    ensures number { IfOk result (λ k. NameLasts names.new.list.items k text.now) }
{
    let alloc = *names.list.allocator();
    let name = ascii_bytes(alloc, text)?;
    let number = names.number(program, &name)?;
    Ok(number)
}
