//! The rows that touch the running frame alone, and the throw at a division by 0 (JVMS 6.5).

ghost use Rattle.std.specs.Prelude.{◌≡◌, ◌+◌, ◌<◌, ◌^◌, true, IfOk, IfSome, OnOk};
ghost use Rattle.machine_rules.specs.Arithmetic.{divides, divides_by_zero};
ghost use Rattle.jvm_state.specs.Ops.{is_alone};
ghost use Rattle.jvm_world.specs.View.{IsWorldOf, IsKept};
ghost use Rattle.jvm_rows.specs.Plain.{RunsOp, IsLeftOf, int_over, long_over, ints_by_zero, longs_by_zero, by_zero};

use crate::{Effect, throw};
use class_model::Memory;
use class_table::Program;
use jvm_frames::Frames;
use jvm_state::Op;
use jvm_world::World;
use program_rules::{Fault, Operation, Value};
use std::alloc::Global;

/// What an instruction operates on, if it is an operation: two ints or two longs.
#[derive(Clone, Copy)]
pub enum Operands {
    Other,
    Ints(Operation),
    Longs(Operation),
}

#[tactic(auto, unfolding(jvm_state::specs::Ops::left_by))]
fn operands_of(op: Op) -> Operands
    requires { is_alone op ≡ true }
    ensures { IsLeftOf op result }
{
    match op {
        Op::IntPlus => Operands::Ints(Operation::Plus),
        Op::IntMinus => Operands::Ints(Operation::Minus),
        Op::IntTimes => Operands::Ints(Operation::Times),
        Op::IntDivide => Operands::Ints(Operation::Divide),
        Op::IntRemainder => Operands::Ints(Operation::Remainder),
        Op::IntBitAnd => Operands::Ints(Operation::BitAnd),
        Op::IntBitOr => Operands::Ints(Operation::BitOr),
        Op::IntBitXor => Operands::Ints(Operation::BitXor),
        Op::LongPlus => Operands::Longs(Operation::Plus),
        Op::LongMinus => Operands::Longs(Operation::Minus),
        Op::LongTimes => Operands::Longs(Operation::Times),
        Op::LongDivide => Operands::Longs(Operation::Divide),
        Op::LongRemainder => Operands::Longs(Operation::Remainder),
        Op::LongBitAnd => Operands::Longs(Operation::BitAnd),
        Op::LongBitOr => Operands::Longs(Operation::BitOr),
        Op::LongBitXor => Operands::Longs(Operation::BitXor),
        _ => Operands::Other,
    }
}

fn divides(op: Operation) -> bool
    ensures { result ≡ divides op }
{
    match op {
        Operation::Divide | Operation::Remainder => true,
        Operation::Plus | Operation::Minus | Operation::Times => false,
        Operation::BitAnd | Operation::BitOr | Operation::BitXor => false,
    }
}

fn divides_int(op: Operation, y: i32) -> bool
    ensures { result ≡ divides_by_zero op y }
{
    if divides(op) { y == 0 } else { false }
}

fn divides_long(op: Operation, y: i64) -> bool
    ensures { result ≡ divides_by_zero op y }
{
    if divides(op) { y == 0 } else { false }
}

fn int_over(op: Operation, y: i32, lower: Option<Value>) -> bool
    ensures { result ≡ int_over op y lower }
{
    match lower {
        Some(Value::Int(_)) => divides_int(op, y),
        Some(Value::Long(_)) => false,
        Some(Value::Ref(_)) => false,
        Some(Value::Null) => false,
        None => false,
    }
}

fn long_over(op: Operation, y: i64, lower: Option<Value>) -> bool
    ensures { result ≡ long_over op y lower }
{
    match lower {
        Some(Value::Int(_)) => false,
        Some(Value::Long(_)) => divides_long(op, y),
        Some(Value::Ref(_)) => false,
        Some(Value::Null) => false,
        None => false,
    }
}

fn ints_by_zero(op: Operation, upper: Option<Value>, lower: Option<Value>) -> bool
    ensures { result ≡ ints_by_zero op upper lower }
{
    match upper {
        Some(Value::Int(y)) => int_over(op, y, lower),
        Some(Value::Long(_)) => false,
        Some(Value::Ref(_)) => false,
        Some(Value::Null) => false,
        None => false,
    }
}

fn longs_by_zero(op: Operation, upper: Option<Value>, lower: Option<Value>) -> bool
    ensures { result ≡ longs_by_zero op upper lower }
{
    match upper {
        Some(Value::Int(_)) => false,
        Some(Value::Long(y)) => long_over(op, y, lower),
        Some(Value::Ref(_)) => false,
        Some(Value::Null) => false,
        None => false,
    }
}

// Whether an operation divides by 0, by the two values on the top.
fn by_zero(operands: Operands, upper: Option<Value>, lower: Option<Value>) -> bool
    ensures { result ≡ by_zero operands upper lower }
{
    match operands {
        Operands::Other => false,
        Operands::Ints(op) => ints_by_zero(op, upper, lower),
        Operands::Longs(op) => longs_by_zero(op, upper, lower),
    }
}

/// Does an instruction that touches the frame alone; at a division by 0 an ArithmeticException is
/// thrown.
pub fn act_alone(
    frames: &mut Frames,
    world: &mut World,
    alloc: Global,
    p: &Program,
    op: Op,
    longs: &[i64],
) -> Result<Effect, Memory>
    requires world { IsWorldOf p.now world.old }
    requires next { IfSome frames.old.frame (λ f. f.at + 1 < 2 ^ 64) }
    requires alone { is_alone op ≡ true }
    ensures row { IfOk result (λ e. RunsOp p.now longs.now op e frames.old frames.new
        world.old world.new) }
    ensures kept { OnOk result (IsKept p.now world.old world.new) }
{
    if frames.act(op, longs) {
        return Ok(Effect::Goes);
    }
    let operands = operands_of(op);
    let upper = frames.value(0);
    let lower = frames.value(1);
    if !by_zero(operands, upper, lower) {
        return Ok(Effect::NoRow);
    }
    let thrown = throw(world, alloc, p, Fault::ArithmeticException)?;
    Ok(thrown)
}
