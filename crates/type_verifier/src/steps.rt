//! The frame that a difference makes of the one before it (JVMS 4.7.4, 4.10.1.4).

ghost use Rattle.std.specs.Prelude.{◌≡◌, ◌≤◌, ◌+◌, reverse, IfOk, OnOk};
ghost use Rattle.vframes.specs.Stated.{StayRight};
ghost use Rattle.type_verifier.specs.Steps.{AreRight, AreMore, AreFewer, AreAlone, NextBy, IsStack, StackBy, FrameBy};

use crate::method::{MethodCode, fit};
use crate::{Difference, Shape};
use class_model::Memory;
use std::alloc::Global;
use vframes::{Local, Locals, SlotType, Stack, StatedFrame, chop_locals, no_locals, push_locals};

// The words that are left of so many.
fn words_left(max: u16, taken: u32) -> u16
    requires { taken ≤ max }
    ensures sum { result + taken ≡ max }
    ensures small { max ≤ 65535 }
{
    max - taken as u16
}

// Locals with these behind them, if they fit.
fn with_more(
    method: &MethodCode,
    store: &mut Vec<Local>,
    before: Locals,
    more: &[SlotType],
) -> Result<Option<Locals>, Memory>
    requires { AreRight method.now store.old.items before }
    ensures kept { OnOk result (StayRight store.old.items store.new.items) }
    ensures by { IfOk result (AreMore method.now store.old.items store.new.items before more.now) }
{
    let room = words_left(method.code.max_locals, before.words);
    if fit(method, room, more) {
        let locals = push_locals(store, before, more)?;
        Ok(Some(locals))
    } else {
        Ok(None)
    }
}

// Locals of these types alone, if they fit.
fn alone(
    method: &MethodCode,
    store: &mut Vec<Local>,
    types: &[SlotType],
) -> Result<Option<Locals>, Memory>
    ensures kept { OnOk result (StayRight store.old.items store.new.items) }
    ensures by { IfOk result (AreAlone method.now store.new.items types.now) }
{
    let none = no_locals();
    let locals = with_more(method, store, none, types)?;
    Ok(locals)
}

// Locals without the last ones, if there are so many.
fn fewer(method: &MethodCode, store: &[Local], before: Locals, count: u8) -> Option<Locals>
    requires { AreRight method.now store.now before }
    ensures { AreFewer method.now store.now before count result }
{
    match chop_locals(store, before, count) {
        Some(locals) => Some(locals),
        None => None,
    }
}

// The locals that a shape states, if they fit.
fn next_locals(
    method: &MethodCode,
    store: &mut Vec<Local>,
    before: Locals,
    shape: &Shape,
) -> Result<Option<Locals>, Memory>
    requires { AreRight method.now store.old.items before }
    ensures kept { OnOk result (StayRight store.old.items store.new.items) }
    ensures by { IfOk result (NextBy method.now store.old.items store.new.items before shape.now) }
{
    match shape {
        Shape::SameLocals => Ok(Some(before)),
        Shape::OneItem(_) => Ok(Some(before)),
        Shape::Chopped(count) => Ok(fewer(method, store, before, *count)),
        Shape::Appended(more) => {
            let locals = with_more(method, store, before, more)?;
            Ok(locals)
        }
        Shape::Whole(types, _) => {
            let locals = alone(method, store, types)?;
            Ok(locals)
        }
    }
}

// A stack of these types, the top last, if it fits.
fn stack_of(alloc: Global, method: &MethodCode, types: &[SlotType]) -> Result<Option<Stack>, Memory>
    ensures { IfOk result (IsStack method.now (reverse types.now)) }
{
    if fit(method, method.code.max_stack, types) {
        let stack = Stack::of(alloc, types)?;
        Ok(Some(stack))
    } else {
        Ok(None)
    }
}

// The stack that a shape states, if it fits.
fn next_stack(alloc: Global, method: &MethodCode, shape: &Shape) -> Result<Option<Stack>, Memory>
    ensures { IfOk result (StackBy method.now shape.now) }
{
    match shape {
        Shape::SameLocals => Ok(Some(Stack::new(alloc))),
        Shape::Chopped(_) => Ok(Some(Stack::new(alloc))),
        Shape::Appended(_) => Ok(Some(Stack::new(alloc))),
        Shape::OneItem(t) => {
            let stack = stack_of(alloc, method, &[*t])?;
            Ok(stack)
        }
        Shape::Whole(_, types) => {
            let stack = stack_of(alloc, method, types)?;
            Ok(stack)
        }
    }
}

/// The frame that a difference states behind these locals, if it can be expanded (rule 3).
pub fn next_frame(
    alloc: Global,
    method: &MethodCode,
    store: &mut Vec<Local>,
    before: Locals,
    next: &Difference,
) -> Result<Option<StatedFrame>, Memory>
    requires { AreRight method.now store.old.items before }
    ensures kept { OnOk result (StayRight store.old.items store.new.items) }
    ensures by { IfOk result (FrameBy method.now store.old.items store.new.items before next.now) }
{
    if next.at as usize >= method.code.instructions.len() {
        return Ok(None);
    }
    let Some(locals) = next_locals(method, store, before, &next.shape)? else {
        return Ok(None);
    };
    let Some(stack) = next_stack(alloc, method, &next.shape)? else {
        return Ok(None);
    };
    Ok(Some(StatedFrame { locals, stack }))
}
