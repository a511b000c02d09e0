//! Loads and stores of locals (JVMS 6.5, `iload` to `iinc`).
#![tactic(auto, unfolding(type_rules::specs::Rows::row))]

ghost use Rattle.std.specs.Prelude.{◌≡◌, ◌<◌, IfOk, IfSome, IfNone, true, false, length, slice_get};
ghost use Rattle.program_rules.specs.Instructions.{IntLoad, LongLoad, ReferenceLoad, IntStore, LongStore, ReferenceStore, Increment};
ghost use Rattle.type_rules.specs.Rows.{is_any_reference};
ghost use Rattle.vframes.specs.declared.slot_type.SlotType.TheVariants.{Int, Long};
ghost use Rattle.type_rows.specs.Answers.{RowIs, RowsAre};
ghost use Rattle.type_rows.specs.Locals.{ReadsSuch, ReadsNoSuch, is_int, is_long, HoldsLong, EndsLong, Stores};

use crate::answer::{Answer, give};
use class_model::Memory;
use vframes::{Frame, SlotType};

// The type of a local.
fn local(f: &Frame, n: u16) -> Option<SlotType>
    ensures { result ≡ slice_get f.now.locals.items n }
{
    f.locals.get(n as usize).copied()
}

// Whether a local holds an int.
fn reads_int(f: &Frame, n: u16) -> bool
    ensures yes { result ≡ true → ReadsSuch is_int f.now n Int }
    ensures no { result ≡ false → ReadsNoSuch is_int f.now n }
{
    match local(f, n) {
        Some(SlotType::Int) => true,
        Some(SlotType::Top) => false,
        Some(SlotType::Long) => false,
        Some(SlotType::Null) => false,
        Some(SlotType::UninitThis) => false,
        Some(SlotType::Uninit(_)) => false,
        Some(SlotType::Obj(_)) => false,
        None => false,
    }
}

// Whether a local holds a long.
fn reads_long(f: &Frame, n: u16) -> bool
    ensures yes { result ≡ true → ReadsSuch is_long f.now n Long }
    ensures no { result ≡ false → ReadsNoSuch is_long f.now n }
{
    match local(f, n) {
        Some(SlotType::Long) => true,
        Some(SlotType::Top) => false,
        Some(SlotType::Int) => false,
        Some(SlotType::Null) => false,
        Some(SlotType::UninitThis) => false,
        Some(SlotType::Uninit(_)) => false,
        Some(SlotType::Obj(_)) => false,
        None => false,
    }
}

// The reference that a local holds, initialised or not.
fn reads_reference(f: &Frame, n: u16) -> Option<SlotType>
    ensures some { IfSome result (λ t. ReadsSuch is_any_reference f.now n t) }
    ensures none { IfNone result (ReadsNoSuch is_any_reference f.now n) }
{
    match local(f, n) {
        Some(SlotType::Null) => Some(SlotType::Null),
        Some(SlotType::UninitThis) => Some(SlotType::UninitThis),
        Some(SlotType::Uninit(at)) => Some(SlotType::Uninit(at)),
        Some(SlotType::Obj(name)) => Some(SlotType::Obj(name)),
        Some(SlotType::Top) => None,
        Some(SlotType::Int) => None,
        Some(SlotType::Long) => None,
        None => None,
    }
}

pub fn int_load(f: &mut Frame, room: u16, n: u16) -> Result<Answer, Memory>
    ensures { IfOk result (λ a. RowIs (IntLoad n) room f.old a f.new) }
{
    if !reads_int(f, n) {
        return Ok(Answer::Fails(6));
    }
    f.stack.push(SlotType::Int)?;
    Ok(give(f, room))
}

pub fn long_load(f: &mut Frame, room: u16, n: u16) -> Result<Answer, Memory>
    ensures { IfOk result (λ a. RowIs (LongLoad n) room f.old a f.new) }
{
    if !reads_long(f, n) {
        return Ok(Answer::Fails(6));
    }
    f.stack.push(SlotType::Long)?;
    Ok(give(f, room))
}

pub fn reference_load(f: &mut Frame, room: u16, n: u16) -> Result<Answer, Memory>
    ensures { IfOk result (λ a. RowIs (ReferenceLoad n) room f.old a f.new) }
{
    let Some(t) = reads_reference(f, n) else {
        return Ok(Answer::Fails(6));
    };
    f.stack.push(t)?;
    Ok(give(f, room))
}

pub fn increment(f: &mut Frame, room: u16, n: u16) -> Answer
    ensures { RowsAre (Increment n) room f.old result f.new }
{
    if reads_int(f, n) {
        Answer::Falls
    } else {
        Answer::Fails(6)
    }
}

// ---- stores

// Ends the long whose half is at this local.
fn end_long(locals: &mut Vec<SlotType>, n: usize)
    ensures length { length locals.new.items ≡ length locals.old.items }
    ensures types { EndsLong locals.old.items n locals.new.items }
{
    if n == 0 {
        return;
    }
    if is_long(locals, n - 1) {
        locals[n - 1] = SlotType::Top;
    }
}

// Whether it is a local that holds a long.
fn is_long(locals: &[SlotType], n: usize) -> bool
    ensures within { result ≡ true → n < length locals.now }
    ensures value { HoldsLong locals.now n result }
{
    match locals.get(n).copied() {
        Some(SlotType::Long) => true,
        Some(SlotType::Top) => false,
        Some(SlotType::Int) => false,
        Some(SlotType::Null) => false,
        Some(SlotType::UninitThis) => false,
        Some(SlotType::Uninit(_)) => false,
        Some(SlotType::Obj(_)) => false,
        None => false,
    }
}

// Stores a type in a local.
fn store(locals: &mut Vec<SlotType>, n: usize, t: SlotType)
    requires { n < length locals.old.items }
    ensures length { length locals.new.items ≡ length locals.old.items }
    ensures types { Stores locals.old.items n t locals.new.items }
{
    end_long(locals, n);
    locals[n] = t;
}

pub fn int_store(f: &mut Frame, room: u16, n: u16) -> Answer
    ensures { RowIs (IntStore n) room f.old result f.new }
{
    if n as usize >= f.locals.len() {
        return Answer::Fails(6);
    }
    if !f.stack.take_int() {
        return Answer::Fails(7);
    }
    store(&mut f.locals, n as usize, SlotType::Int);
    Answer::Falls
}

pub fn long_store(f: &mut Frame, room: u16, n: u16) -> Answer
    ensures { RowIs (LongStore n) room f.old result f.new }
{
    let at = n as usize;
    if at + 1 >= f.locals.len() {
        return Answer::Fails(6);
    }
    if !f.stack.take_long() {
        return Answer::Fails(7);
    }
    store(&mut f.locals, at, SlotType::Long);
    f.locals[at + 1] = SlotType::Top;
    Answer::Falls
}

pub fn reference_store(f: &mut Frame, room: u16, n: u16) -> Answer
    ensures { RowIs (ReferenceStore n) room f.old result f.new }
{
    if n as usize >= f.locals.len() {
        return Answer::Fails(6);
    }
    let Some(t) = f.stack.take_any_reference() else {
        return Answer::Fails(7);
    };
    store(&mut f.locals, n as usize, t);
    Answer::Falls
}
