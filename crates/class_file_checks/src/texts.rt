//! Texts and descriptors: calls of `class_model`.

ghost use Rattle.std.specs.Prelude.{◌≡◌, ◌≢◌, List, ℕ, Some, None, Ok, Err, IfOk, MatchResult};
ghost use Rattle.class_model.specs.Text.{IsUnits, IsFirstBad, text, units_of};
ghost use Rattle.class_model.specs.Descriptor.{FieldType, MethodDescriptor, IsFieldDescriptor, IsMethodDescriptor, MeansField, MeansMethod};
ghost use Rattle.class_model.specs.DescriptorReading.{field_kind, method_kinds};
ghost use Rattle.class_model.specs.declared.fault.TextFault.TheVariants as text_fault;
ghost use Rattle.class_model.specs.declared.fault.DescFault.TheVariants as desc_fault;

use class_model::{DescFault, Kind, MethodType, Name, TextFault};
use std::alloc::Global;

/// `read_text`.
pub fn read_text(alloc: Global, bytes: &[u8]) -> Result<Name, TextFault>
    ensures found { IfOk result (λ name. IsUnits name × (bytes.now ≡ text name)) }
    ensures only { (name : List ℕ) → IsUnits name → bytes.now ≡ text name
        → MatchResult result (λ read. read ≡ name) (λ fault. fault ≡ text_fault.Memory) }
    ensures bad { (at : ℕ) → result ≡ Err (text_fault.BadText at) → IsFirstBad bytes.now at }
    ensures exact { MatchResult result (λ name. units_of bytes.now ≡ Some name)
        (λ fault. fault ≢ text_fault.Memory → units_of bytes.now ≡ None) }
{
    class_model::read_text(alloc, bytes)
}

/// `parse_field`.
pub fn parse_field(alloc: Global, desc: &Name) -> Result<Kind, DescFault>
    ensures found { IfOk result (λ kind. MeansField desc.now (Some kind)) }
    ensures float { result ≡ Err desc_fault.Float → MeansField desc.now None }
    ensures bad { result ≡ Err desc_fault.Bad → (t : FieldType) → ¬ IsFieldDescriptor desc.now t }
    ensures exact { MatchResult result (λ meant. field_kind desc.now ≡ Ok meant)
        (λ fault. fault ≢ desc_fault.Memory → field_kind desc.now ≡ Err fault) }
{
    class_model::parse_field(alloc, desc)
}

/// `parse_method`.
pub fn parse_method(alloc: Global, desc: &Name) -> Result<MethodType, DescFault>
    ensures found { IfOk result (λ types. MeansMethod desc.now (Some types)) }
    ensures float { result ≡ Err desc_fault.Float → MeansMethod desc.now None }
    ensures bad { result ≡ Err desc_fault.Bad → (m : MethodDescriptor) →
        ¬ IsMethodDescriptor desc.now m }
    ensures exact { MatchResult result (λ meant. method_kinds desc.now ≡ Ok meant)
        (λ fault. fault ≢ desc_fault.Memory → method_kinds desc.now ≡ Err fault) }
{
    class_model::parse_method(alloc, desc)
}
