//! Descriptors (JVMS 4.3.2, 4.3.3).

ghost use Rattle.std.specs.Prelude.{◌≡◌, ◌≢◌, ◌<◌, ◌≤◌, ◌∷◌, length, None, Some, Ok, Err, IfOk, MatchResult};
ghost use Rattle.class_model.specs.Descriptor.{FieldType, MethodDescriptor, IsFieldDescriptor, IsMethodDescriptor, MeansField, MeansMethod};
ghost use Rattle.class_model.specs.DescriptorReading.{field_kind, method_kinds};
ghost use Rattle.class_model.specs.Steps.{base_letter, object_kind, element_kind, kind_at, parameter_at, kinds_at, returned_kind, with_last};
ghost use Rattle.class_model.specs.declared.fault.DescFault.TheVariants as desc_fault;

use crate::declared_name::{is_class_name, parted_at};
use crate::fault::DescFault;
use crate::kind::{Kind, MethodType};
use crate::list::{Name, Seq};
use crate::memory::Memory;
use std::alloc::Global;

const OPEN_PARENTHESIS: u16 = b'(' as u16;

const CLOSE_PARENTHESIS: u16 = b')' as u16;

const BRACKET: u16 = b'[' as u16;

const OBJECT: u16 = b'L' as u16;

const SEMICOLON: u16 = b';' as u16;

const VOID: u16 = b'V' as u16;

const BYTE: u16 = b'B' as u16;

const CHAR: u16 = b'C' as u16;

const DOUBLE: u16 = b'D' as u16;

const FLOAT: u16 = b'F' as u16;

const INT: u16 = b'I' as u16;

const LONG: u16 = b'J' as u16;

const SHORT: u16 = b'S' as u16;

const BOOLEAN: u16 = b'Z' as u16;

/// The class behind an `L`, and what stands behind its semicolon.
fn object_at(alloc: Global, units: &[u16]) -> Result<(Option<Kind>, &[u16]), DescFault>
    ensures found { MatchResult result (λ x. object_kind units.now ≡ Some (x.0, x.1.now))
        (λ fault. fault ≢ desc_fault.Memory →
        (fault ≡ desc_fault.Bad) × (object_kind units.now ≡ None)) }
    ensures shorter { IfOk result (λ x. length x.1.now ≤ length units.now) }
{
    match parted_at(units, SEMICOLON) {
        Some((name, behind)) if is_class_name(name) => {
            Ok((Some(Kind::Ref(Seq::from_slice(alloc, name)?)), behind))
        }
        _ => Err(DescFault::Bad),
    }
}

/// The base type of a letter, if it is one: none where it is a float or a double.
fn base_of(letter: u16) -> Option<Option<Kind>>
    ensures { result ≡ base_letter letter }
{
    match letter {
        BYTE => Some(Some(Kind::Byte)),
        CHAR => Some(Some(Kind::Char)),
        DOUBLE | FLOAT => Some(None),
        INT => Some(Some(Kind::Int)),
        LONG => Some(Some(Kind::Long)),
        SHORT => Some(Some(Kind::Short)),
        BOOLEAN => Some(Some(Kind::Boolean)),
        _ => None,
    }
}

/// The base type or the class whose first unit is known, and what stands behind it.
fn element_at(alloc: Global, first: u16, units: &[u16]) -> Result<(Option<Kind>, &[u16]), DescFault>
    ensures found { MatchResult result (λ x. element_kind first units.now ≡ Some (x.0, x.1.now))
        (λ fault. fault ≢ desc_fault.Memory →
        (fault ≡ desc_fault.Bad) × (element_kind first units.now ≡ None)) }
    ensures shorter { IfOk result (λ x. length x.1.now ≤ length units.now) }
{
    if first == OBJECT {
        return object_at(alloc, units);
    }
    match base_of(first) {
        Some(kind) => Ok((kind, units)),
        None => Err(DescFault::Bad),
    }
}

/// The array whose text begins with the descriptor, and what stands behind it. Its component stands
/// behind the first bracket.
fn array_at<'a>(
    alloc: Global,
    desc: &'a [u16],
    component: &'a [u16],
) -> Result<(Option<Kind>, &'a [u16]), DescFault>
    requires { desc.now ≡ 91 ∷ component.now }
    ensures found { MatchResult result (λ x. kind_at desc.now ≡ Some (x.0, x.1.now))
        (λ fault. fault ≢ desc_fault.Memory →
        (fault ≡ desc_fault.Bad) × (kind_at desc.now ≡ None)) }
    ensures shorter { IfOk result (λ x. length x.1.now < length desc.now) }
{
    let mut component = component;
    while let [BRACKET, behind @ ..] = component {
        component = behind;
    }
    let [first, units @ ..] = component else {
        return Err(DescFault::Bad);
    };
    let (kind, behind) = element_at(alloc, *first, units)?;
    let text = &desc[..desc.len() - behind.len()];
    match kind {
        Some(_) => Ok((Some(Kind::Ref(Seq::from_slice(alloc, text)?)), behind)),
        None => Ok((None, behind)),
    }
}

/// The field type at the front, and what stands behind it.
fn kind_at(alloc: Global, units: &[u16]) -> Result<(Option<Kind>, &[u16]), DescFault>
    ensures found { MatchResult result (λ x. kind_at units.now ≡ Some (x.0, x.1.now))
        (λ fault. fault ≢ desc_fault.Memory →
        (fault ≡ desc_fault.Bad) × (kind_at units.now ≡ None)) }
    ensures shorter { IfOk result (λ x. length x.1.now < length units.now) }
{
    match units {
        [BRACKET, component @ ..] => array_at(alloc, units, component),
        [first, behind @ ..] => element_at(alloc, *first, behind),
        [] => Err(DescFault::Bad),
    }
}

fn read_field(alloc: Global, desc: &[u16]) -> Result<Kind, DescFault>
    ensures { MatchResult result (λ meant. field_kind desc.now ≡ Ok meant)
        (λ fault. fault ≢ desc_fault.Memory → field_kind desc.now ≡ Err fault) }
{
    let (kind, behind) = kind_at(alloc, desc)?;
    if !behind.is_empty() {
        return Err(DescFault::Bad);
    }
    kind.ok_or(DescFault::Float)
}

/// The kinds with one more at the end, or none where either has a float or a double.
fn with_last(kinds: Option<Seq<Kind>>, last: Option<Kind>) -> Result<Option<Seq<Kind>>, Memory>
    ensures { IfOk result (λ all. all ≡ with_last kinds last) }
{
    match (kinds, last) {
        (Some(mut kinds), Some(last)) => {
            kinds.push(last)?;
            Ok(Some(kinds))
        }
        _ => Ok(None),
    }
}

/// The kind of the parameter at the front, or none where a closing parenthesis stands there, and
/// what stands behind.
fn parameter_at(alloc: Global, units: &[u16]) -> Result<(Option<Option<Kind>>, &[u16]), DescFault>
    ensures found { MatchResult result (λ x. parameter_at units.now ≡ Some (x.0, x.1.now))
        (λ fault. fault ≢ desc_fault.Memory →
        (fault ≡ desc_fault.Bad) × (parameter_at units.now ≡ None)) }
    ensures shorter { IfOk result (λ x. length x.1.now < length units.now) }
{
    match units {
        [CLOSE_PARENTHESIS, behind @ ..] => Ok((None, behind)),
        _ => {
            let (kind, behind) = kind_at(alloc, units)?;
            Ok((Some(kind), behind))
        }
    }
}

/// The kinds of the field types up to a closing parenthesis, and what stands behind it.
#[tactic(auto, using(crate::proofs::ParameterLaws::begins, crate::proofs::ParameterLaws::misses))]
fn parameters_at(alloc: Global, units: &[u16]) -> Result<(Option<Seq<Kind>>, &[u16]), DescFault>
    ensures { MatchResult result (λ x. kinds_at units.now ≡ Some (x.0, x.1.now))
        (λ fault. fault ≢ desc_fault.Memory →
        (fault ≡ desc_fault.Bad) × (kinds_at units.now ≡ None)) }
{
    let mut kinds = Some(Seq::new(alloc));
    let mut rest = units;
    loop {
        let (parameter, behind) = parameter_at(alloc, rest)?;
        let Some(kind) = parameter else {
            return Ok((kinds, behind));
        };
        kinds = with_last(kinds, kind)?;
        rest = behind;
    }
}

/// What the whole text says of a result: `Some(None)` for void, and none where it is or holds a
/// float or a double.
fn returned_kind(alloc: Global, units: &[u16]) -> Result<Option<Option<Kind>>, DescFault>
    ensures { MatchResult result (λ x. returned_kind units.now ≡ Some x)
        (λ fault. fault ≢ desc_fault.Memory →
        (fault ≡ desc_fault.Bad) × (returned_kind units.now ≡ None)) }
{
    if let [VOID] = units {
        return Ok(Some(None));
    }
    let (kind, behind) = kind_at(alloc, units)?;
    if !behind.is_empty() {
        return Err(DescFault::Bad);
    }
    Ok(kind.map(Some))
}

fn read_method(alloc: Global, desc: &[u16]) -> Result<MethodType, DescFault>
    ensures { MatchResult result (λ meant. method_kinds desc.now ≡ Ok meant)
        (λ fault. fault ≢ desc_fault.Memory → method_kinds desc.now ≡ Err fault) }
{
    let [OPEN_PARENTHESIS, units @ ..] = desc else {
        return Err(DescFault::Bad);
    };
    let (args, behind) = parameters_at(alloc, units)?;
    let ret = returned_kind(alloc, behind)?;
    match (args, ret) {
        (Some(args), Some(ret)) => Ok(MethodType { args, ret }),
        _ => Err(DescFault::Float),
    }
}

/// What a field of this descriptor holds. `Bad` comes exactly where the text is outside the
/// grammar, and `Float` exactly where it is in the grammar and has a float or a double as a kind.
pub fn parse_field(alloc: Global, desc: &Name) -> Result<Kind, DescFault>
    ensures found { IfOk result (λ kind. MeansField desc.now (Some kind)) }
    ensures float { result ≡ Err desc_fault.Float → MeansField desc.now None }
    ensures bad { result ≡ Err desc_fault.Bad → (t : FieldType) → ¬ IsFieldDescriptor desc.now t }

    // the same as a function of the text, for definitions that go on from it
    ensures exact { MatchResult result (λ meant. field_kind desc.now ≡ Ok meant)
        (λ fault. fault ≢ desc_fault.Memory → field_kind desc.now ≡ Err fault) }
{
    read_field(alloc, desc.as_slice())
}

/// What a method of this descriptor takes and gives, with the faults of `parse_field`.
pub fn parse_method(alloc: Global, desc: &Name) -> Result<MethodType, DescFault>
    ensures found { IfOk result (λ types. MeansMethod desc.now (Some types)) }
    ensures float { result ≡ Err desc_fault.Float → MeansMethod desc.now None }
    ensures bad { result ≡ Err desc_fault.Bad → (m : MethodDescriptor) →
        ¬ IsMethodDescriptor desc.now m }

    // the same as a function of the text, for definitions that go on from it
    ensures exact { MatchResult result (λ meant. method_kinds desc.now ≡ Ok meant)
        (λ fault. fault ≢ desc_fault.Memory → method_kinds desc.now ≡ Err fault) }
{
    read_method(alloc, desc.as_slice())
}
