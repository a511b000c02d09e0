//! The bytes of the class files of a program.

ghost use Rattle.std.specs.Prelude.{◌≡◌};
ghost use Rattle.std.specs.Option.{option_copied};
ghost use Rattle.run_records.specs.Asking.{bytes_in, held_by};

use class_model::{Name, SharedBytes};
use class_table::{ClassBody, Program};

/// The bytes of the class file that a class is of, if it is of one.
pub fn bytes_in(body: &ClassBody) -> Option<&SharedBytes>
    ensures { option_copied result ≡ bytes_in body.now }
{
    match body {
        ClassBody::File(loaded) => Some(&loaded.bytes),
        ClassBody::Edited(file) => Some(&file.bytes),
        ClassBody::Library(_) => None,
    }
}

/// Those of the class of a name, if a program has such a class, and it is of a class file.
pub fn bytes_of<'a>(p: &'a Program, name: &Name) -> Option<&'a SharedBytes>
    ensures { option_copied result ≡ held_by p.now name.now }
{
    let id = p.find(name)?;
    bytes_in(p.info(id).body())
}
