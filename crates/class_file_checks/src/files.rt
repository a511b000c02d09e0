//! Whole class files: the calls of `class_reader` and `class_writer`.

ghost use Rattle.std.specs.Prelude.{◌≡◌, IfOk, MatchResult};
ghost use Rattle.class_model.specs.declared.fault.ClassFault.TheVariants as fault;
ghost use Rattle.class_model.specs.declared.fault.LayoutFault.TheVariants as layout_fault;
ghost use Rattle.codec_rules.specs.Meets.{Gives};
ghost use Rattle.class_reader.specs.Reading.{class_of_file};
ghost use Rattle.class_reader.specs.Spells.{Spells};
ghost use Rattle.class_writer.specs.Writing.{layout, HasClassForm};

use class_model::{Bytes, Class, ClassFault, LayoutFault};
use std::alloc::Global;

/// `read_class`.
pub fn read_class(alloc: Global, bytes: &[u8]) -> Result<Class, ClassFault>
    ensures found { IfOk result (λ class. Spells bytes.now class) }
    ensures only { (class : Class) → Spells bytes.now class →
        MatchResult result (λ c. c ≡ class) (λ e. e ≡ fault.Memory) }
    ensures exact { Gives fault.Memory (λ class. class) (class_of_file bytes.now) result }
{
    class_reader::read_class(alloc, bytes)
}

/// `write_class`.
pub fn write_class(alloc: Global, class: &Class) -> Result<Bytes, LayoutFault>
    requires { HasClassForm class.now }
    ensures { Gives layout_fault.Memory (λ bytes. bytes) (layout class.now) result }
{
    class_writer::write_class(alloc, class)
}
