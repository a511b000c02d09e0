//! Marks of what a run reached.

ghost use Rattle.std.specs.Prelude.{OnOk, ◌≡◌};
ghost use Rattle.jvm_marks.specs.Marks.{with_pair};

use class_model::{ClassId, Memory};
use jvm_marks::Reached;

/// Counts a line of a class among those that were reached.
pub fn note(reached: &mut Reached, class: ClassId, line: u16) -> Result<bool, Memory>
    ensures { OnOk result (reached.new ≡ with_pair class.0 line reached.old) }
{
    let marked = line;
    reached.note(class, marked)
}
