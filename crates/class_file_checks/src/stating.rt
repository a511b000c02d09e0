//! The call of `class_asm` for the lines of a class.

ghost use Rattle.codec_rules.specs.Meets.{Gives};
ghost use Rattle.class_asm.specs.Classes.{stated_by};
ghost use Rattle.class_asm.specs.declared.fault.AsmFault.TheVariants as asm_fault;

use asm_words::{Line, StatedClass};
use class_asm::{AsmFault, End};
use std::alloc::Global;

/// The class that lines state, and the line that ends it. `last` is the line behind the text.
pub fn stated_by(alloc: Global, last: u64, lines: &[Line]) -> Result<(StatedClass, End), AsmFault>
    ensures { Gives asm_fault.Memory (λ x. x) (stated_by last lines.now) result }
{
    class_asm::stated_by(alloc, last, lines)
}
