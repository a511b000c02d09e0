//! Stated frames in full: of as many locals as their method has.

ghost use Rattle.std.specs.Prelude.{IfOk, OnOk};
ghost use Rattle.vframes.specs.Stated.{AreTypesOf, PutsWords, AreSpread, AreFull};
ghost use Rattle.vframes.specs.Fits.{FrameIs};

use crate::frame::Frame;
use crate::slot_type::SlotType;
use crate::stated::{Local, Locals, StatedFrame, below};
use class_model::Memory;
use std::alloc::Global;

// The types of locals, the last one first.
fn types_down(alloc: Global, store: &[Local], locals: Locals) -> Result<Vec<SlotType>, Memory>
    ensures { IfOk result (λ out. AreTypesOf store.now locals out.items) }
{
    let mut out = Vec::with_capacity(alloc, locals.count as usize)?;
    let mut left = locals;
    let mut more = locals.count;
    while more > 0 {
        match below(store, left) {
            Some(local) => {
                out.push(local.t)?;
                left = local.below;
                more -= 1;
            }
            None => return Ok(out),
        }
    }
    Ok(out)
}

// Puts a type into the next locals; a long takes two.
fn push_words(all: &mut Vec<SlotType>, t: SlotType) -> Result<(), Memory>
    ensures { OnOk result (PutsWords all.old.items t all.new.items) }
{
    all.push(t)?;
    match t {
        SlotType::Long => {
            all.push(SlotType::Top)?;
            Ok(())
        }
        SlotType::Top => Ok(()),
        SlotType::Int => Ok(()),
        SlotType::Null => Ok(()),
        SlotType::UninitThis => Ok(()),
        SlotType::Uninit(_) => Ok(()),
        SlotType::Obj(_) => Ok(()),
    }
}

// The locals that these take, the last one first.
fn spread(alloc: Global, down: Vec<SlotType>, max: usize) -> Result<Vec<SlotType>, Memory>
    ensures { IfOk result (λ all. AreSpread down.items all.items) }
{
    let mut items = down;
    let mut all = Vec::with_capacity(alloc, max)?;
    while let Some(t) = items.pop() {
        push_words(&mut all, t)?;
    }
    Ok(all)
}

// All locals of a method of so many, where these are stated.
fn locals_in_full(
    alloc: Global,
    store: &[Local],
    max: usize,
    locals: Locals,
) -> Result<Vec<SlotType>, Memory>
    ensures { IfOk result (λ all. AreFull store.now max locals all.items) }
{
    let down = types_down(alloc, store, locals)?;
    let mut all = spread(alloc, down, max)?;
    all.resize(max, SlotType::Top)?;
    Ok(all)
}

/// A stated frame in full, in a method of so many locals.
pub fn frame_in_full(
    alloc: Global,
    store: &[Local],
    max_locals: u16,
    stated: &StatedFrame,
) -> Result<Frame, Memory>
    ensures { IfOk result (λ g. FrameIs store.now max_locals stated.now g) }
{
    let locals = locals_in_full(alloc, store, max_locals as usize, stated.locals)?;
    let stack = stated.stack.copy()?;
    Ok(Frame {
        locals,
        stack,
        flag: stated.locals.flag,
    })
}
