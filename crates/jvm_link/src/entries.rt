//! What an index of a class's constant pool means.

ghost use Rattle.std.specs.Prelude.{◌≡◌, slice_get};
ghost use Rattle.std.specs.Option.{option_copied};
ghost use Rattle.class_table.specs.Table.{entries_at};

use class_link::Entry;
use class_model::ClassId;
use class_table::Program;

/// What an index of a class's constant pool means, where there is one.
pub fn entry(program: &Program, class: ClassId, index: u32) -> Option<&Entry>
    ensures { option_copied result ≡ slice_get (entries_at program.now class.0) index }
{
    program.get(class)?.linked().entries.get(index as usize)
}
