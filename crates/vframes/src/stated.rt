//! The frames that a method states (JVMS 4.7.4). Locals that frames share are kept once: each local
//! names those below it, so what is kept grows with what the class file spells.

ghost use Rattle.std.specs.Prelude.{◌≡◌, [], List, length, slice_get, IfOk, OnOk, IfSome, IfNone};
ghost use Rattle.program_rules.specs.Resolution.{same_bool};
ghost use Rattle.vframes.specs.Named.{AreNamed};
ghost use Rattle.vframes.specs.Stated.{AreLocals, HasRoom, HasRoomFor, StayRight, IsOneMore, AreMoreBy, IsLastOf, AreEmpty, IsChopOf, AreFewer};
ghost use Rattle.vframes.specs.Fits.{LocalFits, LocalsFit, FrameFits};

use crate::assign::{is_assignable, is_stack_assignable};
use crate::frame::Frame;
use crate::named::Named;
use crate::slot_type::SlotType;
use crate::stack::Stack;
use class_model::Memory;
use class_table::Program;

/// Locals that are stated: the place of the last one, how many there are and how many words they
/// take, and whether one of them is `this` that isn't initialised.
#[derive(Clone, Copy)]
pub struct Locals {
    pub last: usize,
    pub count: u32,
    pub words: u32,
    pub flag: bool,
}

/// A local that is stated, and those below it.
#[derive(Clone, Copy)]
pub struct Local {
    pub t: SlotType,
    pub below: Locals,
}

/// A frame that is stated.
#[derive(Drop)]
pub struct StatedFrame {
    pub locals: Locals,
    pub stack: Stack,
}

/// No locals.
pub fn no_locals() -> Locals
    ensures { (store : List Local) → AreLocals store result [] }
{
    Locals {
        last: 0,
        count: 0,
        words: 0,
        flag: false,
    }
}

/// One more local.
pub fn push_local(store: &mut Vec<Local>, below: Locals, t: SlotType) -> Result<Locals, Memory>
    requires { HasRoom below }
    ensures more { IfOk result (λ l. IsOneMore store.old.items store.new.items below t l) }
    ensures kept { OnOk result (StayRight store.old.items store.new.items) }
{
    let last = store.len();
    store.push(Local { t, below })?;
    Ok(Locals {
        last,
        count: below.count + 1,
        words: below.words + t.width(),
        flag: t.is_uninit_this() || below.flag,
    })
}

/// Locals with these behind them.
pub fn push_locals(
    store: &mut Vec<Local>,
    below: Locals,
    types: &[SlotType],
) -> Result<Locals, Memory>
    requires { HasRoomFor store.old.items below types.now }
    ensures more { IfOk result (λ l. AreMoreBy store.old.items store.new.items below types.now l) }
    ensures kept { OnOk result (StayRight store.old.items store.new.items) }
{
    let mut locals = below;
    for t in types {
        locals = push_local(store, locals, *t)?;
    }
    Ok(locals)
}

// The local at a place of the store.
fn local_at(store: &[Local], at: usize) -> Option<Local>
    ensures { result ≡ slice_get store.now at }
{
    store.get(at).copied()
}

/// Locals without the last one.
pub fn below(store: &[Local], locals: Locals) -> Option<Local>
    ensures some { IfSome result (λ n. IsLastOf store.now locals n) }
    ensures none { IfNone result (AreEmpty store.now locals) }
{
    if locals.count == 0 {
        return None;
    }
    local_at(store, locals.last)
}

/// Locals without the last ones, if there are so many.
pub fn chop_locals(store: &[Local], locals: Locals, count: u8) -> Option<Locals>
    ensures some { IfSome result (λ l. IsChopOf store.now locals count l) }
    ensures none { IfNone result (AreFewer store.now locals count) }
{
    let mut left = locals;
    let mut more = count;
    while more > 0 {
        match below(store, left) {
            Some(local) => {
                left = local.below;
                more -= 1;
            }
            None => return None,
        }
    }
    Some(left)
}

// The type of a local.
fn type_at(from: &[SlotType], at: u32) -> Option<SlotType>
    ensures { result ≡ slice_get from.now at }
{
    from.get(at as usize).copied()
}

// Whether the local at a place is assignable to this type.
fn is_local_assignable(
    program: &Program,
    names: &[Named],
    from: &[SlotType],
    at: u32,
    to: SlotType,
) -> bool
    requires { AreNamed program.now names.now }
    ensures { LocalFits program.now names.now from.now at to result }
{
    match type_at(from, at) {
        Some(t) => is_assignable(program, names, t, to),
        None => false,
    }
}

// Whether locals are assignable to those that are stated.
fn are_locals_assignable(
    program: &Program,
    names: &[Named],
    store: &[Local],
    from: &[SlotType],
    to: Locals,
) -> bool
    requires { AreNamed program.now names.now }
    ensures { LocalsFit program.now names.now store.now (length from.now) from.now to result }
{
    let mut left = to;
    let mut more = to.count;
    while more > 0 {
        match below(store, left) {
            Some(local) => {
                if !is_local_assignable(program, names, from, local.below.words, local.t) {
                    return false;
                }
                left = local.below;
                more -= 1;
            }
            None => return true,
        }
    }
    true
}

// Whether locals are assignable to all those of a method of so many, where these are stated.
fn are_all_assignable(
    program: &Program,
    names: &[Named],
    store: &[Local],
    max: usize,
    from: &[SlotType],
    to: Locals,
) -> bool
    requires { AreNamed program.now names.now }
    ensures { LocalsFit program.now names.now store.now max from.now to result }
{
    if from.len() != max {
        return false;
    }
    are_locals_assignable(program, names, store, from, to)
}

/// Whether a frame is assignable to one that is stated, in a method of so many locals.
pub fn is_assignable_to_stated(
    program: &Program,
    names: &[Named],
    store: &[Local],
    max_locals: u16,
    from: &Frame,
    to: &StatedFrame,
) -> bool
    requires { AreNamed program.now names.now }
    ensures { FrameFits program.now names.now store.now max_locals from.now to.now result }
{
    if !is_same_flag(from.flag, to.locals.flag) {
        return false;
    }
    if !is_stack_assignable(program, names, &from.stack, &to.stack) {
        return false;
    }
    are_all_assignable(
        program,
        names,
        store,
        max_locals as usize,
        &from.locals,
        to.locals,
    )
}

fn is_same_flag(flag: bool, other: bool) -> bool
    ensures { result ≡ same_bool flag other }
{
    if flag { other } else { !other }
}
