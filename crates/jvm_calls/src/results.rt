// What the running frame gives back (JVMS 6.5).

ghost use Rattle.std.specs.Prelude.{◌≡◌};
ghost use Rattle.std.specs.Option.{option_map};
ghost use Rattle.program_rules.specs.Kinds.{narrow, is_int_kind, is_long_kind};
ghost use Rattle.machine_rules.specs.Calls.{is_reference_kind};
ghost use Rattle.class_link.specs.Symbols.{kind_of};
ghost use Rattle.jvm_calls.specs.Returns.{IsGiven, int_result, long_result, reference_result};

use class_model::Kind;
use jvm_arith::narrow;
use jvm_frames::Frames;
use program_rules::Value;

// Whether the values of a kind are ints.
fn is_int(kind: &Kind) -> bool
    ensures { result ≡ is_int_kind (kind_of kind.now) }
{
    matches!(
        kind,
        Kind::Boolean | Kind::Byte | Kind::Char | Kind::Short | Kind::Int
    )
}

// Whether they are longs.
fn is_long(kind: &Kind) -> bool
    ensures { result ≡ is_long_kind (kind_of kind.now) }
{
    matches!(kind, Kind::Long)
}

// Whether they are references.
fn is_reference(kind: &Kind) -> bool
    ensures { result ≡ is_reference_kind (kind_of kind.now) }
{
    matches!(kind, Kind::Ref(_))
}

// What is left of an int at a kind.
#[inline(always)]
fn narrow_to(kind: &Kind, z: i32) -> i32
    ensures { result ≡ narrow (kind_of kind.now) z }
{
    match kind {
        Kind::Boolean => narrow(Kind::Boolean, z),
        Kind::Byte => narrow(Kind::Byte, z),
        Kind::Char => narrow(Kind::Char, z),
        Kind::Short => narrow(Kind::Short, z),
        Kind::Int => z,
        Kind::Long => z,
        Kind::Ref(_) => z,
    }
}

/// The int on the top, where the method's result is an int or of a small kind, to which it is
/// narrowed.
#[tactic(auto, using(crate::proofs::Given::top_gives, crate::proofs::Given::none_gives, crate::proofs::Given::always_none, crate::proofs::Given::no_int))]
#[inline(always)]
pub fn int_result(frames: &Frames, kind: &Option<Kind>) -> Option<Value>
    ensures { IsGiven (int_result (option_map kind_of kind.now)) result frames.now }
{
    let Some(kind) = kind else {
        return None;
    };
    if !is_int(kind) {
        return None;
    }
    match frames.top() {
        Some(Value::Int(z)) => Some(Value::Int(narrow_to(kind, z))),
        Some(Value::Long(_)) => None,
        Some(Value::Ref(_)) => None,
        Some(Value::Null) => None,
        None => None,
    }
}

/// The long on the top, where the method's result is one.
#[tactic(auto, using(crate::proofs::Given::top_gives, crate::proofs::Given::none_gives, crate::proofs::Given::always_none, crate::proofs::Given::no_long))]
#[inline(always)]
pub fn long_result(frames: &Frames, kind: &Option<Kind>) -> Option<Value>
    ensures { IsGiven (long_result (option_map kind_of kind.now)) result frames.now }
{
    let Some(kind) = kind else {
        return None;
    };
    if !is_long(kind) {
        return None;
    }
    match frames.top() {
        Some(Value::Long(z)) => Some(Value::Long(z)),
        Some(Value::Int(_)) => None,
        Some(Value::Ref(_)) => None,
        Some(Value::Null) => None,
        None => None,
    }
}

/// The reference on the top, where the method's result is one.
#[tactic(auto, using(crate::proofs::Given::top_gives, crate::proofs::Given::none_gives, crate::proofs::Given::always_none, crate::proofs::Given::no_reference))]
#[inline(always)]
pub fn reference_result(frames: &Frames, kind: &Option<Kind>) -> Option<Value>
    ensures { IsGiven (reference_result (option_map kind_of kind.now)) result frames.now }
{
    let Some(kind) = kind else {
        return None;
    };
    if !is_reference(kind) {
        return None;
    }
    match frames.top() {
        Some(Value::Ref(x)) => Some(Value::Ref(x)),
        Some(Value::Null) => Some(Value::Null),
        Some(Value::Int(_)) => None,
        Some(Value::Long(_)) => None,
        None => None,
    }
}
