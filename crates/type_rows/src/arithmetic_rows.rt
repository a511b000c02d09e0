//! Constants and arithmetic (JVMS 6.5, `iconst_0` to `lcmp`).
#![tactic(auto, unfolding(type_rules::specs::Rows::row))]

ghost use Rattle.std.specs.Prelude.{◌≡◌, ◌∷◌, IfOk, List};
ghost use Rattle.program_rules.specs.Instructions.{NullConstant, IntConstant, LongConstant, IntOperation, LongOperation, IntNegate, LongNegate, IntShift, LongShift, Convert, LongCompare};
ghost use Rattle.program_rules.specs.declared.operation.Conversion.TheVariants as conversion;
ghost use Rattle.type_rows.specs.Answers.{RowIs, RowsAre, Gives};

use crate::answer::{Answer, give};
use class_model::Memory;
use program_rules::Conversion;
use vframes::{Frame, SlotType};

/// A type on the top of the stack.
pub fn give_type(f: &mut Frame, room: u16, t: SlotType) -> Result<Answer, Memory>
    ensures { IfOk result (λ a. Gives room f.old (t ∷ f.old.stack) a f.new) }
{
    f.stack.push(t)?;
    Ok(give(f, room))
}

pub fn null_constant(f: &mut Frame, room: u16) -> Result<Answer, Memory>
    ensures { IfOk result (λ a. RowIs NullConstant room f.old a f.new) }
{
    f.stack.push(SlotType::Null)?;
    Ok(give(f, room))
}

pub fn int_constant(f: &mut Frame, room: u16) -> Result<Answer, Memory>
    ensures { IfOk result (λ a. RowsAre IntConstant room f.old a f.new) }
{
    f.stack.push(SlotType::Int)?;
    Ok(give(f, room))
}

pub fn long_constant(f: &mut Frame, room: u16) -> Result<Answer, Memory>
    ensures { IfOk result (λ a. RowsAre LongConstant room f.old a f.new) }
{
    f.stack.push(SlotType::Long)?;
    Ok(give(f, room))
}

/// Two ints give one.
pub fn int_operation(f: &mut Frame, room: u16) -> Result<Answer, Memory>
    ensures operation { IfOk result (λ a. RowsAre IntOperation room f.old a f.new) }
    ensures shift { IfOk result (λ a. RowsAre IntShift room f.old a f.new) }
{
    if !f.stack.take_int() {
        return Ok(Answer::Fails(7));
    }
    if !f.stack.take_int() {
        return Ok(Answer::Fails(7));
    }
    f.stack.push(SlotType::Int)?;
    Ok(give(f, room))
}

/// Two longs give one.
pub fn long_operation(f: &mut Frame, room: u16) -> Result<Answer, Memory>
    ensures { IfOk result (λ a. RowsAre LongOperation room f.old a f.new) }
{
    if !f.stack.take_long() {
        return Ok(Answer::Fails(7));
    }
    if !f.stack.take_long() {
        return Ok(Answer::Fails(7));
    }
    f.stack.push(SlotType::Long)?;
    Ok(give(f, room))
}

/// An int gives an int.
pub fn int_to_int(f: &mut Frame, room: u16) -> Result<Answer, Memory>
    ensures negate { IfOk result (λ a. RowIs IntNegate room f.old a f.new) }
    ensures byte { IfOk result (λ a. RowIs (Convert conversion.IntToByte) room f.old a f.new) }
    ensures char { IfOk result (λ a. RowIs (Convert conversion.IntToChar) room f.old a f.new) }
    ensures short { IfOk result (λ a. RowIs (Convert conversion.IntToShort) room f.old a f.new) }
{
    if !f.stack.take_int() {
        return Ok(Answer::Fails(7));
    }
    f.stack.push(SlotType::Int)?;
    Ok(give(f, room))
}

pub fn long_negate(f: &mut Frame, room: u16) -> Result<Answer, Memory>
    ensures { IfOk result (λ a. RowIs LongNegate room f.old a f.new) }
{
    if !f.stack.take_long() {
        return Ok(Answer::Fails(7));
    }
    f.stack.push(SlotType::Long)?;
    Ok(give(f, room))
}

pub fn long_shift(f: &mut Frame, room: u16) -> Result<Answer, Memory>
    ensures { IfOk result (λ a. RowsAre LongShift room f.old a f.new) }
{
    if !f.stack.take_int() {
        return Ok(Answer::Fails(7));
    }
    if !f.stack.take_long() {
        return Ok(Answer::Fails(7));
    }
    f.stack.push(SlotType::Long)?;
    Ok(give(f, room))
}

// An int gives a long.
fn int_to_long(f: &mut Frame, room: u16) -> Result<Answer, Memory>
    ensures { IfOk result (λ a. RowIs (Convert conversion.IntToLong) room f.old a f.new) }
{
    if !f.stack.take_int() {
        return Ok(Answer::Fails(7));
    }
    f.stack.push(SlotType::Long)?;
    Ok(give(f, room))
}

// A long gives an int.
fn long_to_int(f: &mut Frame, room: u16) -> Result<Answer, Memory>
    ensures { IfOk result (λ a. RowIs (Convert conversion.LongToInt) room f.old a f.new) }
{
    if !f.stack.take_long() {
        return Ok(Answer::Fails(7));
    }
    f.stack.push(SlotType::Int)?;
    Ok(give(f, room))
}

pub fn convert(f: &mut Frame, room: u16, to: Conversion) -> Result<Answer, Memory>
    ensures { IfOk result (λ a. RowIs (Convert to) room f.old a f.new) }
{
    match to {
        Conversion::IntToLong => Ok(int_to_long(f, room)?),
        Conversion::LongToInt => Ok(long_to_int(f, room)?),
        Conversion::IntToByte => Ok(int_to_int(f, room)?),
        Conversion::IntToChar => Ok(int_to_int(f, room)?),
        Conversion::IntToShort => Ok(int_to_int(f, room)?),
    }
}

pub fn long_compare(f: &mut Frame, room: u16) -> Result<Answer, Memory>
    ensures { IfOk result (λ a. RowIs LongCompare room f.old a f.new) }
{
    if !f.stack.take_long() {
        return Ok(Answer::Fails(7));
    }
    if !f.stack.take_long() {
        return Ok(Answer::Fails(7));
    }
    f.stack.push(SlotType::Int)?;
    Ok(give(f, room))
}
