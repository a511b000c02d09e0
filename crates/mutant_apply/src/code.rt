//! A code with one of its instructions replaced.

ghost use Rattle.std.specs.Prelude.{◌≡◌, ◌≢◌, ◌+◌, ◌-◌, ◌<◌, ◌^◌, ◌++◌, true, nat_lt, length, map, take, drop, All, slice_get, IfOk, OnOk};
ghost use Rattle.class_model.specs.declared.attribute.Code.{out-Code};
ghost use Rattle.mt_insn.specs.Code.{HasForm, HasTargets, places, code_length};
ghost use Rattle.mt_insn.specs.Code as insn_code;
ghost use Rattle.mutant_apply.specs.Moved.{moved_place, moved_insn};
ghost use Rattle.mutant_apply.specs.Edited.{mover, edited_insns, code_with, is_laid_out, edited_code};
ghost use Rattle.mt_attrs.specs.Layout.{HasCodeForm};
ghost use Rattle.mutant_apply.specs.Fitting.{FitsInsn};
ghost use Rattle.mutant_apply.specs.Room.{LeadsNear, IsNearCode, Makes};

use crate::new_insns::new_insns;
use crate::parts::Parts;
use crate::place_map::{PlaceMap, moved_rows, push_moved};
use crate::refusal::Refusal;
use crate::tables::moved_tables;
use class_model::{Bytes, Code, Const, Edit, Insn, LayoutFault, Memory, Seq};
use mt_insn::{places, write_insns};

// Most instructions that a code can have, since each takes a byte.
const MOST: usize = 0xffff;

fn mover(edit: &Edit) -> PlaceMap
    requires some { 0 < length edit.now.with }
    requires few { length edit.now.with < 2 ^ 16 }
    ensures { mover edit.now ≡ moved_place result.at result.more }
{
    PlaceMap {
        at: edit.at,
        more: edit.with.len() as u32 - 1,
    }
}

fn push_all(insns: &mut Seq<Insn>, new: &[Insn]) -> Result<(), Memory>
    ensures { OnOk result (insns.new ≡ insns.old ++ new.now) }
{
    for insn in new {
        insns.push(insn.copy()?)?;
    }
    Ok(())
}

// The instructions with new ones in the place of one.
fn edited_insns(
    edit: &Edit,
    by: PlaceMap,
    old: &Seq<Insn>,
    new: &Seq<Insn>,
) -> Result<Seq<Insn>, Memory>
    requires near { All LeadsNear old.now }
    requires here { edit.now.at < length old.now }
    requires mover { mover edit.now ≡ moved_place by.at by.more }
    ensures { IfOk result (λ insns. insns ≡ edited_insns edit.now new.now old.now) }
{
    let at = edit.at as usize;
    let old = old.as_slice();
    let mut insns = new.empty();
    push_moved(&mut insns, by, &old[..at])?;
    push_all(&mut insns, new.as_slice())?;
    push_moved(&mut insns, by, &old[at + 1..])?;
    Ok(insns)
}

// The code has bytes: it is short enough, and so are its jumps.
fn is_laid_out(insns: &Seq<Insn>) -> Result<bool, Memory>
    requires forms { All HasForm insns.now }
    requires targets { All (HasTargets (length insns.now)) insns.now }
    ensures { IfOk result (λ laid_out. laid_out ≡ is_laid_out (insn_code.layout insns.now)) }
{
    let mut bytes = Bytes::new(insns.allocator());
    match write_insns(insns, &mut bytes) {
        Ok(()) => Ok(true),
        Err(LayoutFault::TooLarge { .. }) => Ok(false),
        Err(LayoutFault::Memory) => Err(Memory),
    }
}

// The code with these instructions, all else of it moved.
fn code_with(edit: &Edit, by: PlaceMap, code: &Code, insns: Seq<Insn>) -> Result<Code, Memory>
    requires near { IsNearCode (out-Code code.now) }
    requires length { code_length insns < 2 ^ 16 }
    requires stack { (out-Code code.now).max_stack + edit.now.more_stack < 2 ^ 16 }
    requires mover { mover edit.now ≡ moved_place by.at by.more }
    ensures { IfOk result (λ edited. edited ≡ code_with edit.now code.now insns) }
{
    let starts = places(insns.allocator(), &insns)?;
    Ok(Code {
        max_stack: code.max_stack + edit.more_stack,
        max_locals: code.max_locals,
        insns,
        rows: moved_rows(by, &code.rows)?,
        attrs: moved_tables(by, starts.as_slice(), &code.attrs)?,
    })
}

// The height of the stack has two bytes.
fn has_stack_room(edit: &Edit, code: &Code) -> bool
    ensures { result ≡ nat_lt ((out-Code code.now).max_stack + edit.now.more_stack) (2 ^ 16) }
{
    code.max_stack.checked_add(edit.more_stack).is_some()
}

/// What an edit makes of a code of a class with this pool, and what it adds to the pool.
pub fn edited_code(pool: &Seq<Const>, edit: &Edit, code: &Code) -> Result<Parts, Refusal>
    requires form { HasCodeForm (out-Code code.now) }
    requires fits { FitsInsn pool.now edit.now.with
        (slice_get (out-Code code.now).insns edit.now.at) }
    ensures { Makes (edited_code pool.now edit.now code.now) result }
{
    if code.insns.len() > MOST {
        return Err(Refusal::NoLayout);
    }
    if edit.with.len() > MOST {
        return Err(Refusal::NoLayout);
    }
    let by = mover(edit);
    let mut added = pool.empty();
    let new = new_insns(pool.as_slice(), by, &edit.with, &mut added)?;
    let insns = edited_insns(edit, by, &code.insns, &new)?;
    if !has_stack_room(edit, code) || !is_laid_out(&insns)? {
        return Err(Refusal::NoLayout);
    }
    let code = code_with(edit, by, code, insns)?;
    Ok(Parts { code, added })
}
