// What rows take off the running frame's stack.

ghost use Rattle.std.specs.Prelude.{◌≡◌, ◌+◌, ◌≤◌, ◌<◌, length, drop, IfSome, IfNone};
ghost use Rattle.jvm_state.specs.Tops.{TakesInt, NoInt, TakesReference, NoReference};
ghost use Rattle.class_link.specs.Symbols.{kind_of};
ghost use Rattle.jvm_frames.specs.Frames.{stack_of};
ghost use Rattle.jvm_rows.specs.Rows.{TakesKind, NoKind};

use class_model::Kind;
use jvm_frames::{Frames, is_of_kind};
use program_rules::Value;

/// The int at a place of the stack.
#[tactic(auto, using(crate::proofs::Taken::takes_int, crate::proofs::Taken::there_at, crate::proofs::Taken::no_int_long, crate::proofs::Taken::no_int_ref, crate::proofs::Taken::no_int_null, crate::proofs::Taken::no_int_none))]
#[inline(always)]
pub fn int_at(frames: &Frames, place: usize) -> Option<i32>
    ensures some { IfSome result (λ z. TakesInt (drop place (stack_of frames.now.frame)) z
        (drop (place + 1) (stack_of frames.now.frame))) }
    ensures there { IfSome result (λ z. place < length (stack_of frames.now.frame)) }
    ensures none { IfNone result (NoInt (drop place (stack_of frames.now.frame))) }
{
    match frames.value(place) {
        Some(Value::Int(z)) => Some(z),
        Some(Value::Long(_)) => None,
        Some(Value::Ref(_)) => None,
        Some(Value::Null) => None,
        None => None,
    }
}

/// The reference at a place of the stack, none for null.
#[tactic(auto, using(crate::proofs::Taken::takes_ref, crate::proofs::Taken::takes_null, crate::proofs::Taken::there_at, crate::proofs::Taken::no_ref_int, crate::proofs::Taken::no_ref_long, crate::proofs::Taken::no_ref_none))]
#[inline(always)]
pub fn reference_at(frames: &Frames, place: usize) -> Option<Option<u32>>
    ensures some { IfSome result (λ o.
        TakesReference (drop place (stack_of frames.now.frame)) o
        (drop (place + 1) (stack_of frames.now.frame))) }
    ensures there { IfSome result (λ o. place < length (stack_of frames.now.frame)) }
    ensures none { IfNone result (NoReference (drop place (stack_of frames.now.frame))) }
{
    match frames.value(place) {
        Some(Value::Ref(x)) => Some(Some(x)),
        Some(Value::Null) => Some(None),
        Some(Value::Int(_)) => None,
        Some(Value::Long(_)) => None,
        None => None,
    }
}

/// The value at a place of the stack, if it is of a kind. Of references this asks no class.
#[inline(always)]
pub fn of_kind_at(frames: &Frames, place: usize, kind: &Kind) -> Option<Value>
    ensures some { IfSome result (λ v.
        TakesKind (kind_of kind.now) (drop place (stack_of frames.now.frame)) v
        (drop (place + 1) (stack_of frames.now.frame))) }
    ensures there { IfSome result (λ v. place < length (stack_of frames.now.frame)) }
    ensures none { IfNone result (
        NoKind (kind_of kind.now) (drop place (stack_of frames.now.frame))) }
{
    match frames.value(place) {
        Some(v) => { if is_of_kind(kind, v) { Some(v) } else { None } }
        None => None,
    }
}
