//! The words of an operand stack: what stands on the top, and the words below it.
//!
//! `sp` is the number of words. What takes values off answers them with the number of words that
//! are left; it changes nothing.

ghost use Rattle.std.specs.Prelude.{◌≡◌, ℕ, ℤ, ◌+◌, ◌-◌, ◌<◌, ◌≤◌, true, List, [], ◌∷◌, ◌++◌, length, IfSome, IfNone};
ghost use Rattle.program_rules.specs.Kinds.{width_of};
ghost use Rattle.jvm_state.specs.Slots.{words_in, stack_in, IsStack, is_word, value_in, is_pair, pair_in};
ghost use Rattle.jvm_state.specs.Tops.{TakesInt, NoInt, TakesInts, NoInts, TakesLong, NoLong, TakesLongs, NoLongs, TakesReference, NoReference, TakesWord, NoWord, TakesPair, NoPair};

use crate::slot::Slot;

/// The word on the top.
#[inline(always)]
#[tactic(auto, using(crate::proofs::Stacks::top_word))]
pub fn word(operands: &[Slot], sp: usize) -> Option<Slot>
    requires { sp ≤ length operands.now }
    ensures some { IfSome result (λ s.
        words_in operands.now sp ≡ s ∷ words_in operands.now (sp - 1)) }
    ensures within { IfSome result (λ s. 0 < sp) }
    ensures none { IfNone result (words_in operands.now sp ≡ []) }
{
    if sp == 0 {
        return None;
    }
    Some(operands[sp - 1])
}

/// The int on the top.
#[inline(always)]
#[tactic(auto, using(crate::proofs::Stacks::below_int, crate::proofs::Stacks::no_int_unset))]
pub fn top_int(operands: &[Slot], sp: usize) -> Option<(i32, usize)>
    requires { IsStack operands.now sp }
    ensures some { IfSome result (λ r.
        TakesInt (stack_in operands.now sp) r.0 (stack_in operands.now r.1)) }
    ensures below { IfSome result (λ r. IsStack operands.now r.1) }
    ensures less { IfSome result (λ r. r.1 < sp) }
    ensures none { IfNone result (NoInt (stack_in operands.now sp)) }
{
    match word(operands, sp) {
        Some(Slot::Int(z)) => Some((z, sp - 1)),
        Some(Slot::Long(_)) => None,
        Some(Slot::Ref(_)) => None,
        Some(Slot::Null) => None,
        Some(Slot::Unset) => None,
        None => None,
    }
}

/// The two ints on the top, the upper one last.
#[inline(always)]
pub fn top_ints(operands: &[Slot], sp: usize) -> Option<(i32, i32, usize)>
    requires { IsStack operands.now sp }
    ensures some { IfSome result (λ r.
        TakesInts (stack_in operands.now sp) r.0 r.1 (stack_in operands.now r.2)) }
    ensures below { IfSome result (λ r. IsStack operands.now r.2) }
    ensures less { IfSome result (λ r. r.2 + 1 < sp) }
    ensures none { IfNone result (NoInts (stack_in operands.now sp)) }
{
    let (y, rest) = top_int(operands, sp)?;
    let (x, below) = top_int(operands, rest)?;
    Some((x, y, below))
}

/// The long on the top.
#[inline(always)]
#[tactic(auto, using(crate::proofs::Stacks::below_long, crate::proofs::Stacks::long_words))]
pub fn top_long(operands: &[Slot], sp: usize) -> Option<(i64, usize)>
    requires { IsStack operands.now sp }
    ensures some { IfSome result (λ r.
        TakesLong (stack_in operands.now sp) r.0 (stack_in operands.now r.1)) }
    ensures below { IfSome result (λ r. IsStack operands.now r.1) }
    ensures less { IfSome result (λ r. r.1 + 1 < sp) }
    ensures none { IfNone result (NoLong (stack_in operands.now sp)) }
{
    match word(operands, sp) {
        Some(Slot::Unset) => match word(operands, sp - 1) {
            Some(Slot::Long(z)) => Some((z, sp - 2)),
            Some(Slot::Int(_)) => None,
            Some(Slot::Ref(_)) => None,
            Some(Slot::Null) => None,
            Some(Slot::Unset) => None,
            None => None,
        },
        Some(Slot::Int(_)) => None,
        Some(Slot::Long(_)) => None,
        Some(Slot::Ref(_)) => None,
        Some(Slot::Null) => None,
        None => None,
    }
}

/// The two longs on the top, the upper one last.
#[inline(always)]
pub fn top_longs(operands: &[Slot], sp: usize) -> Option<(i64, i64, usize)>
    requires { IsStack operands.now sp }
    ensures some { IfSome result (λ r.
        TakesLongs (stack_in operands.now sp) r.0 r.1 (stack_in operands.now r.2)) }
    ensures below { IfSome result (λ r. IsStack operands.now r.2) }
    ensures less { IfSome result (λ r. r.2 + 3 < sp) }
    ensures none { IfNone result (NoLongs (stack_in operands.now sp)) }
{
    let (y, rest) = top_long(operands, sp)?;
    let (x, below) = top_long(operands, rest)?;
    Some((x, y, below))
}

/// The reference on the top, none for null.
#[inline(always)]
#[tactic(auto, using(crate::proofs::Stacks::below_reference, crate::proofs::Stacks::below_null, crate::proofs::Stacks::no_reference_unset))]
pub fn top_reference(operands: &[Slot], sp: usize) -> Option<(Option<u32>, usize)>
    requires { IsStack operands.now sp }
    ensures some { IfSome result (λ r.
        TakesReference (stack_in operands.now sp) r.0 (stack_in operands.now r.1)) }
    ensures below { IfSome result (λ r. IsStack operands.now r.1) }
    ensures less { IfSome result (λ r. r.1 < sp) }
    ensures none { IfNone result (NoReference (stack_in operands.now sp)) }
{
    match word(operands, sp) {
        Some(Slot::Ref(x)) => Some((Some(x), sp - 1)),
        Some(Slot::Null) => Some((None, sp - 1)),
        Some(Slot::Int(_)) => None,
        Some(Slot::Long(_)) => None,
        Some(Slot::Unset) => None,
        None => None,
    }
}

/// The value of one word on the top.
#[inline(always)]
#[tactic(auto, using(crate::proofs::Stacks::below_int, crate::proofs::Stacks::below_reference, crate::proofs::Stacks::below_null, crate::proofs::Stacks::no_word_unset))]
pub fn top_word(operands: &[Slot], sp: usize) -> Option<(Slot, usize)>
    requires { IsStack operands.now sp }
    ensures some { IfSome result (λ r.
        TakesWord (stack_in operands.now sp) r.0 (stack_in operands.now r.1)) }
    ensures stack { IfSome result (λ r.
        stack_in operands.now sp ≡ value_in r.0 ∷ stack_in operands.now r.1) }
    ensures word { IfSome result (λ r. is_word r.0 ≡ true) }
    ensures width { IfSome result (λ r. width_of (value_in r.0) ≡ 1) }
    ensures below { IfSome result (λ r. IsStack operands.now r.1) }
    ensures less { IfSome result (λ r. r.1 + 1 ≡ sp) }
    ensures none { IfNone result (NoWord (stack_in operands.now sp)) }
{
    match word(operands, sp) {
        Some(Slot::Int(z)) => Some((Slot::Int(z), sp - 1)),
        Some(Slot::Ref(x)) => Some((Slot::Ref(x), sp - 1)),
        Some(Slot::Null) => Some((Slot::Null, sp - 1)),
        Some(Slot::Long(_)) => None,
        Some(Slot::Unset) => None,
        None => None,
    }
}

// Whether two words are a long, or two values.
#[inline(always)]
fn is_pair(lower: Slot, upper: Slot) -> bool
    ensures { result ≡ is_pair lower upper }
{
    match lower {
        Slot::Long(_) => match upper {
            Slot::Unset => true,
            Slot::Int(_) => false,
            Slot::Long(_) => false,
            Slot::Ref(_) => false,
            Slot::Null => false,
        },
        Slot::Int(_) => is_word(upper),
        Slot::Ref(_) => is_word(upper),
        Slot::Null => is_word(upper),
        Slot::Unset => false,
    }
}

// Whether a word is a value by itself.
#[inline(always)]
fn is_word(s: Slot) -> bool
    ensures { result ≡ is_word s }
{
    match s {
        Slot::Int(_) => true,
        Slot::Ref(_) => true,
        Slot::Null => true,
        Slot::Long(_) => false,
        Slot::Unset => false,
    }
}

/// The two words on the top, the lower one first: a long, or two values of one word each.
#[inline(always)]
#[tactic(auto, using(crate::proofs::Pairs::pair_stack, crate::proofs::Pairs::pair_below, crate::proofs::Pairs::takes_pair, crate::proofs::Pairs::no_pair, crate::proofs::Pairs::no_pair_of_one, crate::proofs::Pairs::no_pair_of_none))]
pub fn top_pair(operands: &[Slot], sp: usize) -> Option<(Slot, Slot, usize)>
    requires { IsStack operands.now sp }
    ensures some { IfSome result (λ r.
        TakesPair (stack_in operands.now sp) r.0 r.1 (stack_in operands.now r.2)) }
    ensures stack { IfSome result (λ r.
        stack_in operands.now sp ≡ pair_in r.0 r.1 ++ stack_in operands.now r.2) }
    ensures pair { IfSome result (λ r. is_pair r.0 r.1 ≡ true) }
    ensures below { IfSome result (λ r. IsStack operands.now r.2) }
    ensures less { IfSome result (λ r. r.2 + 2 ≡ sp) }
    ensures none { IfNone result (NoPair (stack_in operands.now sp)) }
{
    let upper = word(operands, sp)?;
    let lower = word(operands, sp - 1)?;
    if is_pair(lower, upper) {
        return Some((lower, upper, sp - 2));
    }
    None
}

/// Puts a value of one word on the words below a place.
#[inline(always)]
#[tactic(auto, using(crate::proofs::Stacks::word_put))]
pub fn put_word(operands: &mut [Slot], place: usize, s: Slot)
    requires place { place < length operands.old }
    requires word { is_word s ≡ true }
    ensures stack { stack_in operands.new (place + 1) ≡ value_in s ∷ stack_in operands.old place }
    ensures len { length operands.new ≡ length operands.old }
{
    operands[place] = s;
}

/// Puts a long, or two values of one word each, on the words below a place.
#[inline(always)]
#[tactic(auto, using(crate::proofs::Pairs::pair_put))]
pub fn put_pair(operands: &mut [Slot], place: usize, lower: Slot, upper: Slot)
    requires place { place + 1 < length operands.old }
    requires pair { is_pair lower upper ≡ true }
    ensures stack { stack_in operands.new (place + 2)
        ≡ pair_in lower upper ++ stack_in operands.old place }
    ensures len { length operands.new ≡ length operands.old }
{
    operands[place] = lower;
    operands[place + 1] = upper;
}
