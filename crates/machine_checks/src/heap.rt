//! A call of the heap whose clauses are several.

ghost use Rattle.std.specs.Prelude.{◌≡◌, ◌↔◌, OnOk, OnErr, IfOk, Err};
ghost use Rattle.jvm_values.specs.declared.fault.HeapFault.TheVariants.{Full};
ghost use Rattle.jvm_values.specs.Contents.{next_number, IsPassedBy, with_object};
ghost use Rattle.jvm_values.specs.Words.{new_array, array_words};

use jvm_values::{ArrayKind, Heap, HeapFault};

/// Makes an array of so many elements, each with its first value.
pub fn array(heap: &mut Heap, of: ArrayKind, len: u32) -> Result<u32, HeapFault>
    ensures number { IfOk result (λ number. number ≡ next_number heap.old) }
    ensures heap { OnOk result
        (heap.new ≡ with_object heap.old (new_array of len) (array_words len)) }
    ensures full { (result ≡ Err Full) ↔ IsPassedBy heap.old (array_words len) }
    ensures err { OnErr result (heap.new ≡ heap.old) }
{
    heap.array(of, len)
}
