//! The rows of locals (JVMS 2.6.1, 6.5).

ghost use Rattle.std.specs.Prelude.{◌≡◌, ◌+◌, ◌<◌, ◌≤◌, ◌^◌, length, slice_get, slice_set, IfSome, Some, None, ◌+ℤ◌};
ghost use Rattle.std.specs.Int.{int_wrap, w32};
ghost use Rattle.std.specs.Option.{option_map};
ghost use Rattle.program_rules.specs.declared.value.Value.{Value};
ghost use Rattle.machine_rules.specs.Effects.{without_long};
ghost use Rattle.machine_rules.specs.Steps.{loads_int, loads_long, loads_reference, stores_int, stores_long, stores_reference, increments};
ghost use Rattle.jvm_state.specs.Slots.{local_in, locals_in, IsStack};
ghost use Rattle.jvm_state.specs.Rows.{Acts};

use crate::slot::Slot;
use crate::words::{put_pair, put_word, top_int, top_long, top_reference};

// What a local holds, if there is one of this number.
#[inline(always)]
#[tactic(auto, using(crate::proofs::LocalLaws::local_at))]
fn local(locals: &[Slot], n: usize) -> Option<Slot>
    ensures held { slice_get (locals_in locals.now) n ≡ option_map local_in result }
    ensures within { IfSome result (λ s. n < length locals.now) }
{
    locals.get(n).copied()
}

// Puts a value of one word, or the first word of a long, into a local. A store into the second
// local of a long ends the long.
#[inline(always)]
#[tactic(auto, using(crate::proofs::LocalLaws::set_at))]
fn set_local(locals: &mut [Slot], n: usize, s: Slot)
    requires { n < length locals.old }
    ensures set { locals_in locals.new
        ≡ slice_set (without_long (locals_in locals.old) n) n (local_in s) }
    ensures len { length locals.new ≡ length locals.old }
{
    end_long(locals, n);
    locals[n] = s;
}

// Ends the long of which this is the second local.
#[inline(always)]
fn end_long(locals: &mut [Slot], n: usize)
    ensures ended { locals_in locals.new ≡ without_long (locals_in locals.old) n }
    ensures len { length locals.new ≡ length locals.old }
{
    if n == 0 {
        return;
    }
    match local(locals, n - 1) {
        Some(Slot::Long(_)) => unset(locals, n - 1),
        Some(Slot::Int(_)) => {}
        Some(Slot::Ref(_)) => {}
        Some(Slot::Null) => {}
        Some(Slot::Unset) => {}
        None => {}
    }
}

// Puts an int where one was.
#[inline(always)]
#[tactic(auto, using(crate::proofs::LocalLaws::set_at))]
fn set_int(locals: &mut [Slot], n: usize, z: i32)
    requires { n < length locals.old }
    ensures set { locals_in locals.new ≡ slice_set (locals_in locals.old) n (Some (Value.Int z)) }
    ensures len { length locals.new ≡ length locals.old }
{
    locals[n] = Slot::Int(z);
}

// The sum of an int and a small number.
#[inline(always)]
fn add(z: i32, by: i16) -> i32
    ensures { result ≡ int_wrap w32 (z +ℤ by) }
{
    z.wrapping_add(by as i32)
}

// Leaves a local unset.
#[inline(always)]
#[tactic(auto, using(crate::proofs::LocalLaws::set_at))]
fn unset(locals: &mut [Slot], n: usize)
    requires { n < length locals.old }
    ensures set { locals_in locals.new ≡ slice_set (locals_in locals.old) n None }
    ensures len { length locals.new ≡ length locals.old }
{
    locals[n] = Slot::Unset;
}

/// `iload`: the local has to hold an int.
#[inline(always)]
pub fn load_int(
    n: u16,
    locals: &[Slot],
    operands: &mut [Slot],
    at: usize,
    sp: usize,
    top: usize,
) -> Option<(usize, usize)>
    requires next { at + 1 < 2 ^ 64 }
    requires stack { IsStack operands.old sp }
    requires within { sp ≤ top }
    requires room { top ≤ length operands.old }
    ensures { Acts (λ w f fs. loads_int w f fs top n) top at sp
        locals.now operands.old locals.now operands.new result }
{
    match local(locals, n as usize) {
        Some(Slot::Int(z)) => {
            if sp >= top {
                return None;
            }
            put_word(operands, sp, Slot::Int(z));
            Some((at + 1, sp + 1))
        }
        Some(Slot::Long(_)) => None,
        Some(Slot::Ref(_)) => None,
        Some(Slot::Null) => None,
        Some(Slot::Unset) => None,
        None => None,
    }
}

/// `lload`: the local has to hold a long.
#[inline(always)]
pub fn load_long(
    n: u16,
    locals: &[Slot],
    operands: &mut [Slot],
    at: usize,
    sp: usize,
    top: usize,
) -> Option<(usize, usize)>
    requires next { at + 1 < 2 ^ 64 }
    requires stack { IsStack operands.old sp }
    requires within { sp ≤ top }
    requires room { top ≤ length operands.old }
    ensures { Acts (λ w f fs. loads_long w f fs top n) top at sp
        locals.now operands.old locals.now operands.new result }
{
    match local(locals, n as usize) {
        Some(Slot::Long(z)) => {
            if sp >= top || sp + 1 >= top {
                return None;
            }
            put_pair(operands, sp, Slot::Long(z), Slot::Unset);
            Some((at + 1, sp + 2))
        }
        Some(Slot::Int(_)) => None,
        Some(Slot::Ref(_)) => None,
        Some(Slot::Null) => None,
        Some(Slot::Unset) => None,
        None => None,
    }
}

/// `aload`: the local has to hold a reference or null.
#[inline(always)]
pub fn load_reference(
    n: u16,
    locals: &[Slot],
    operands: &mut [Slot],
    at: usize,
    sp: usize,
    top: usize,
) -> Option<(usize, usize)>
    requires next { at + 1 < 2 ^ 64 }
    requires stack { IsStack operands.old sp }
    requires within { sp ≤ top }
    requires room { top ≤ length operands.old }
    ensures { Acts (λ w f fs. loads_reference w f fs top n) top at sp
        locals.now operands.old locals.now operands.new result }
{
    match local(locals, n as usize) {
        Some(Slot::Ref(x)) => {
            if sp >= top {
                return None;
            }
            put_word(operands, sp, Slot::Ref(x));
            Some((at + 1, sp + 1))
        }
        Some(Slot::Null) => {
            if sp >= top {
                return None;
            }
            put_word(operands, sp, Slot::Null);
            Some((at + 1, sp + 1))
        }
        Some(Slot::Int(_)) => None,
        Some(Slot::Long(_)) => None,
        Some(Slot::Unset) => None,
        None => None,
    }
}

/// `istore`.
#[inline(always)]
pub fn store_int(
    n: u16,
    locals: &mut [Slot],
    operands: &[Slot],
    at: usize,
    sp: usize,
    top: usize,
) -> Option<(usize, usize)>
    requires next { at + 1 < 2 ^ 64 }
    requires stack { IsStack operands.now sp }
    requires within { sp ≤ top }
    requires room { top ≤ length operands.now }
    ensures { Acts (λ w f fs. stores_int w f fs n) top at sp
        locals.old operands.now locals.new operands.now result }
{
    let (z, rest) = top_int(operands, sp)?;
    if n as usize >= locals.len() {
        return None;
    }
    set_local(locals, n as usize, Slot::Int(z));
    Some((at + 1, rest))
}

/// `lstore`: the long takes this local and the next one.
#[inline(always)]
pub fn store_long(
    n: u16,
    locals: &mut [Slot],
    operands: &[Slot],
    at: usize,
    sp: usize,
    top: usize,
) -> Option<(usize, usize)>
    requires next { at + 1 < 2 ^ 64 }
    requires stack { IsStack operands.now sp }
    requires within { sp ≤ top }
    requires room { top ≤ length operands.now }
    ensures { Acts (λ w f fs. stores_long w f fs n) top at sp
        locals.old operands.now locals.new operands.now result }
{
    let (z, rest) = top_long(operands, sp)?;
    if n as usize + 1 >= locals.len() {
        return None;
    }
    set_local(locals, n as usize, Slot::Long(z));
    unset(locals, n as usize + 1);
    Some((at + 1, rest))
}

/// `astore`.
#[inline(always)]
pub fn store_reference(
    n: u16,
    locals: &mut [Slot],
    operands: &[Slot],
    at: usize,
    sp: usize,
    top: usize,
) -> Option<(usize, usize)>
    requires next { at + 1 < 2 ^ 64 }
    requires stack { IsStack operands.now sp }
    requires within { sp ≤ top }
    requires room { top ≤ length operands.now }
    ensures { Acts (λ w f fs. stores_reference w f fs n) top at sp
        locals.old operands.now locals.new operands.now result }
{
    let (o, rest) = top_reference(operands, sp)?;
    if n as usize >= locals.len() {
        return None;
    }
    match o {
        Some(x) => set_local(locals, n as usize, Slot::Ref(x)),
        None => set_local(locals, n as usize, Slot::Null),
    }
    Some((at + 1, rest))
}

/// `iinc`: the sum wraps at 32 bits.
#[inline(always)]
pub fn increment(
    n: u16,
    by: i16,
    locals: &mut [Slot],
    operands: &[Slot],
    at: usize,
    sp: usize,
    top: usize,
) -> Option<(usize, usize)>
    requires next { at + 1 < 2 ^ 64 }
    requires stack { IsStack operands.now sp }
    requires within { sp ≤ top }
    requires room { top ≤ length operands.now }
    ensures { Acts (λ w f fs. increments w f fs n by) top at sp
        locals.old operands.now locals.new operands.now result }
{
    match local(locals, n as usize) {
        Some(Slot::Int(z)) => {
            set_int(locals, n as usize, add(z, by));
            Some((at + 1, sp))
        }
        Some(Slot::Long(_)) => None,
        Some(Slot::Ref(_)) => None,
        Some(Slot::Null) => None,
        Some(Slot::Unset) => None,
        None => None,
    }
}
