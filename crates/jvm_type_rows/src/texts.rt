// Names and field descriptors as texts (JVMS 4.2.1, 4.3.2).

ghost use Rattle.std.specs.Prelude.{◌≡◌, nat_eq, length};
ghost use Rattle.program_rules.specs.Names.{same, without_first};
ghost use Rattle.program_rules.specs.Subtypes.{is_above_arrays};
ghost use Rattle.jvm_type_rows.specs.Instances.{name_in, begins_class};

use class_link::names::{is_array_name, without_last};
use class_model::names::is_text;
/// Whether a text is empty.
pub fn is_empty(text: &[u16]) -> bool
    ensures { result ≡ nat_eq (length text.now) 0 }
{
    text.len() == 0
}

/// Whether two texts are the same.
pub fn is_same(one: &[u16], other: &[u16]) -> bool
    ensures { result ≡ same one.now other.now }
{
    one == other
}

/// Whether a descriptor begins as a class's one (JVMS 4.3.2).
pub fn begins_class(descriptor: &[u16]) -> bool
    ensures { result ≡ begins_class descriptor.now }
{
    match descriptor {
        [] => false,
        [unit, ..] => *unit == b'L' as u16,
    }
}

/// Whether each array is of what this descriptor says (JLS 4.10.3).
pub fn is_above_arrays(descriptor: &[u16]) -> bool
    ensures { result ≡ is_above_arrays descriptor.now }
{
    is_text(descriptor, b"Ljava/lang/Object;")
        || is_text(descriptor, b"Ljava/lang/Cloneable;")
        || is_text(descriptor, b"Ljava/io/Serializable;")
}

/// A text without its first unit.
pub fn without_first(text: &[u16]) -> &[u16]
    ensures { result.now ≡ without_first text.now }
{
    match text {
        [_, rest @ ..] => rest,
        [] => text,
    }
}

/// The name of a class or an array that a field descriptor says, if the text is one of either.
pub fn name_in(descriptor: &[u16]) -> &[u16]
    ensures { result.now ≡ name_in descriptor.now }
{
    if is_array_name(descriptor) {
        return descriptor;
    }
    without_last(without_first(descriptor))
}
