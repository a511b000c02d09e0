// The values on the top of a stack.

ghost use Rattle.std.specs.Prelude.{◌≡◌, ◌+◌, ◌≤◌, ◌<◌, [], ◌∷◌, length, map, take, drop, slice_get, IfSome, IfNone, IfOk};
ghost use Rattle.program_rules.specs.Kinds.{is_of_kind, width_of, height_of};
ghost use Rattle.class_link.specs.Symbols.{kind_of};
ghost use Rattle.jvm_state.specs.Slots.{stack_in, IsStack};
ghost use Rattle.jvm_frames.specs.Frames.{args_on, AreArgs, HasBelow, TakesArgs, NoArgs, AreWordsAbove};

use class_model::{Kind, Memory};
use jvm_state::{Slot, word};
use program_rules::Value;
use std::alloc::Global;

/// The value on the top, and the words that are left below it.
#[tactic(auto, using(jvm_state::proofs::Stacks::below_int, jvm_state::proofs::Stacks::below_reference, jvm_state::proofs::Stacks::below_null, jvm_state::proofs::Stacks::below_long, jvm_state::proofs::Stacks::long_words))]
#[inline(always)]
pub fn top_value(operands: &[Slot], sp: usize) -> Option<(Value, usize)>
    requires { IsStack operands.now sp }
    ensures some { IfSome result (λ r. stack_in operands.now sp ≡ r.0 ∷ stack_in operands.now r.1) }
    ensures below { IfSome result (λ r. IsStack operands.now r.1) }
    ensures words { IfSome result (λ r. r.1 + width_of r.0 ≡ sp) }
    ensures none { IfNone result (stack_in operands.now sp ≡ []) }
{
    match word(operands, sp) {
        Some(Slot::Int(z)) => Some((Value::Int(z), sp - 1)),
        Some(Slot::Ref(x)) => Some((Value::Ref(x), sp - 1)),
        Some(Slot::Null) => Some((Value::Null, sp - 1)),
        Some(Slot::Unset) => match word(operands, sp - 1) {
            Some(Slot::Long(z)) => Some((Value::Long(z), sp - 2)),
            Some(Slot::Int(_)) => None,
            Some(Slot::Ref(_)) => None,
            Some(Slot::Null) => None,
            Some(Slot::Unset) => None,
            None => None,
        },
        Some(Slot::Long(_)) => None,
        None => None,
    }
}

// The words that are left below so many values; none where there are fewer.
#[inline(always)]
fn below_values(operands: &[Slot], sp: usize, count: usize) -> Option<usize>
    requires { IsStack operands.now sp }
    ensures stack { IfSome result (λ below.
        stack_in operands.now below ≡ drop count (stack_in operands.now sp)) }
    ensures whole { IfSome result (λ below. IsStack operands.now below) }
    ensures words { IfSome result (λ below. AreWordsAbove count below operands.now sp) }
    ensures none { IfNone result (length (stack_in operands.now sp) < count) }
{
    let mut rest = sp;
    let mut taken = 0;
    while taken < count {
        let Some((_, below)) = top_value(operands, rest) else {
            return None;
        };
        rest = below;
        taken += 1;
    }
    Some(rest)
}

/// The value at a place of a stack, counted from the top.
#[inline(always)]
pub fn value_at(operands: &[Slot], sp: usize, place: usize) -> Option<Value>
    requires { IsStack operands.now sp }
    ensures { result ≡ slice_get (stack_in operands.now sp) place }
{
    let Some(rest) = below_values(operands, sp, place) else {
        return None;
    };
    match top_value(operands, rest) {
        Some((v, _)) => Some(v),
        None => None,
    }
}

/// The value below the uppermost ones, which are so many in so many words, and the words that they
/// are with it.
pub fn value_below(
    operands: &[Slot],
    sp: usize,
    count: usize,
    words: usize,
) -> Option<(Value, usize)>
    requires stack { IsStack operands.now sp }
    requires args { AreArgs count words (stack_in operands.now sp) }
    ensures some { IfSome result (λ r. HasBelow count r.0 r.1 (stack_in operands.now sp)) }
    ensures few { IfSome result (λ r. count + 1 ≤ r.1) }
    ensures none { IfNone result (drop count (stack_in operands.now sp) ≡ []) }
{
    match top_value(operands, sp - words) {
        Some(top) => Some((top.0, sp - top.1)),
        None => None,
    }
}

/// The words of so many values on the top.
#[inline(always)]
pub fn words_of(operands: &[Slot], sp: usize, count: usize) -> usize
    requires stack { IsStack operands.now sp }
    requires count { count ≤ length (stack_in operands.now sp) }
    ensures { result ≡ height_of (take count (stack_in operands.now sp)) }
{
    let Some(below) = below_values(operands, sp, count) else {
        unreachable!()
    };
    sp - below
}

/// The words of a value.
#[inline(always)]
pub fn width(v: Value) -> usize
    ensures { result ≡ width_of v }
{
    match v {
        Value::Long(_) => 2,
        Value::Int(_) | Value::Ref(_) | Value::Null => 1,
    }
}

/// Whether a value is of a kind. Of references this asks no class.
#[inline(always)]
pub fn is_of_kind(kind: &Kind, v: Value) -> bool
    ensures { result ≡ is_of_kind (kind_of kind.now) v }
{
    match kind {
        Kind::Long => matches!(v, Value::Long(_)),
        Kind::Ref(_) => matches!(v, Value::Ref(_) | Value::Null),
        Kind::Boolean | Kind::Byte | Kind::Char | Kind::Short | Kind::Int => {
            matches!(v, Value::Int(_))
        }
    }
}

/// The words that are left below arguments of these kinds, the last one's on the top; none where
/// the values there are not of these kinds.
pub fn below_args(kinds: &[Kind], operands: &[Slot], sp: usize) -> Option<usize>
    requires { IsStack operands.now sp }
    ensures some { IfSome result (λ below.
        TakesArgs (map kind_of kinds.now) (stack_in operands.now sp)) }
    ensures words { IfSome result (λ below.
        AreWordsAbove (length kinds.now) below operands.now sp) }
    ensures none { IfNone result (NoArgs (map kind_of kinds.now) (stack_in operands.now sp)) }
{
    let mut rest = sp;
    let mut left = kinds.len();
    while left > 0 {
        let Some((v, below)) = top_value(operands, rest) else {
            return None;
        };
        if !is_of_kind(&kinds[left - 1], v) {
            return None;
        }
        rest = below;
        left -= 1;
    }
    Some(rest)
}

/// The uppermost values of a stack, so many, the top last.
pub fn top_values(
    alloc: Global,
    operands: &[Slot],
    sp: usize,
    count: usize,
) -> Result<Vec<Value>, Memory>
    requires stack { IsStack operands.now sp }
    requires count { count ≤ length (stack_in operands.now sp) }
    ensures { IfOk result (λ values. values.items ≡ args_on count (stack_in operands.now sp)) }
{
    let mut values = Vec::with_capacity(alloc, count)?;
    let mut rest = sp;
    while values.len() < count {
        let Some((v, below)) = top_value(operands, rest) else {
            unreachable!()
        };
        values.push(v)?;
        rest = below;
    }
    values.reverse();
    Ok(values)
}
