//! What the begin of a class asks of a field and of a method.

ghost use Rattle.std.specs.Prelude.{◌≡◌, List};
ghost use Rattle.std.specs.Option.{option_map, option_copied};
ghost use Rattle.program_rules.specs.Kinds.{is_int_kind, is_long_kind, is_text_kind};
ghost use Rattle.program_rules.specs.Linked.{fits_kind};
ghost use Rattle.program_rules.specs.Outlines.{head_of, is_coded, is_class_initializer};
ghost use Rattle.class_link.specs.declared.linked.Entry.{Entry};
ghost use Rattle.class_link.specs.Symbols.{kind_of};
ghost use Rattle.class_link.specs.View.{method_of, field_of, constant_of};
ghost use Rattle.jvm_initialization.specs.Constants.{static_constant};

use class_link::{FieldConstant, LinkedBody, LinkedField, LinkedMethod};
use class_model::Kind;
use class_model::flags::{is_abstract, is_static};
use class_model::names::is_text;

// ---- fields

fn is_int(kind: &Kind) -> bool
    ensures { result ≡ is_int_kind (kind_of kind.now) }
{
    match kind {
        Kind::Boolean | Kind::Byte | Kind::Char | Kind::Short | Kind::Int => true,
        Kind::Long | Kind::Ref(_) => false,
    }
}

fn is_long(kind: &Kind) -> bool
    ensures { result ≡ is_long_kind (kind_of kind.now) }
{
    matches!(kind, Kind::Long)
}

fn is_string(kind: &Kind) -> bool
    ensures { result ≡ is_text_kind (kind_of kind.now) }
{
    match kind {
        Kind::Ref(name) => is_text(name.as_slice(), b"java/lang/String"),
        Kind::Boolean | Kind::Byte | Kind::Char | Kind::Short | Kind::Int | Kind::Long => false,
    }
}

// Whether a constant is one for a field of a kind (JVMS 4.7.2).
fn fits(constant: &Option<FieldConstant>, kind: &Kind) -> bool
    ensures { result ≡ fits_kind (option_map constant_of constant.now) (kind_of kind.now) }
{
    match constant {
        None => false,
        Some(FieldConstant::Int(_)) => is_int(kind),
        Some(FieldConstant::Long(_)) => is_long(kind),
        Some(FieldConstant::Text(_)) => is_string(kind),
    }
}

/// The constant that a field gets at the begin of its class, if it gets one. Each field of an
/// interface counts as static.
pub fn static_constant(field: &LinkedField, all_static: bool) -> Option<&FieldConstant>
    ensures { option_map constant_of (option_copied result)
        ≡ static_constant all_static (field_of field.now) }
{
    if !(all_static || is_static(field.flags)) {
        return None;
    }
    if !fits(&field.constant, &field.kind) {
        return None;
    }
    field.constant.as_ref()
}

// ---- methods

// Whether a call of a method runs code of a class file. That of an abstract one doesn't, whatever
// its body is.
fn is_coded(method: &LinkedMethod) -> bool
    ensures { (es : List Entry) → result ≡ is_coded (head_of (method_of es method.now)).callable }
{
    if is_abstract(method.flags) {
        return false;
    }
    matches!(method.body, LinkedBody::Code(_))
}

/// Whether a method is the initializer of its class (JVMS 2.9.2).
pub fn is_initializer(method: &LinkedMethod) -> bool
    ensures { (es : List Entry) → result ≡ is_class_initializer (method_of es method.now) }
{
    is_text(method.name.as_slice(), b"<clinit>")
        && is_text(method.desc.as_slice(), b"()V")
        && is_static(method.flags)
        && is_coded(method)
}
