//! From offsets to the numbers of instructions.

ghost use Rattle.std.specs.Prelude.{◌≡◌, ◌<◌, ℕ, length, slice_index, IfOk, map};
ghost use Rattle.mt_insn.specs.Targets.{number_of, target, targets, pair_targets, arg_of};
ghost use Rattle.mt_insn.specs.Order.{Ascends};
ghost use Rattle.mt_insn.specs.declared.raw.Operand.TheVariants as operand;

use crate::raw::Operand;
use class_model::{Arg, Memory, Seq};
use std::alloc::Global;

/// The number of the instruction that begins at a place, where the starts of all instructions are
/// given in their order.
fn number_of(starts: &[u64], place: u64) -> Option<u32>
    requires { Ascends starts.now }
    ensures { result ≡ number_of starts.now place }
{
    match starts.binary_search(&place) {
        Ok(number) => u32::try_from(number).ok(),
        Err(_) => None,
    }
}

/// The number of the instruction to which an offset leads from a place.
fn target(starts: &[u64], place: u64, offset: i32) -> Option<u32>
    requires { Ascends starts.now }
    ensures { result ≡ target starts.now place offset }
{
    match place.checked_add_signed(i64::from(offset)) {
        Some(there) => number_of(starts, there),
        None => None,
    }
}

fn targets(
    alloc: Global,
    starts: &[u64],
    place: u64,
    offsets: &[i32],
) -> Result<Option<Seq<u32>>, Memory>
    requires { Ascends starts.now }
    ensures { IfOk result (λ o. o ≡ targets starts.now place offsets.now) }
{
    let mut numbers = Seq::new(alloc);
    for offset in offsets {
        match target(starts, place, *offset) {
            Some(number) => numbers.push(number)?,
            None => return Ok(None),
        }
    }
    Ok(Some(numbers))
}

fn pair_targets(
    alloc: Global,
    starts: &[u64],
    place: u64,
    pairs: &[(i32, i32)],
) -> Result<Option<Seq<(i32, u32)>>, Memory>
    requires { Ascends starts.now }
    ensures { IfOk result (λ o. o ≡ pair_targets starts.now place pairs.now) }
{
    let mut numbers = Seq::new(alloc);
    for pair in pairs {
        match target(starts, place, pair.1) {
            Some(number) => numbers.push((pair.0, number))?,
            None => return Ok(None),
        }
    }
    Ok(Some(numbers))
}

fn table_arg(
    alloc: Global,
    starts: &[u64],
    place: u64,
    default: i32,
    low: i32,
    offsets: &[i32],
) -> Result<Option<Arg>, Memory>
    requires { Ascends starts.now }
    ensures { IfOk result (λ o.
        o ≡ arg_of starts.now place (operand.Table default low offsets.now)) }
{
    let Some(default) = target(starts, place, default) else {
        return Ok(None);
    };
    match targets(alloc, starts, place, offsets)? {
        Some(numbers) => Ok(Some(Arg::table(default, low, numbers)?)),
        None => Ok(None),
    }
}

fn lookup_arg(
    alloc: Global,
    starts: &[u64],
    place: u64,
    default: i32,
    pairs: &[(i32, i32)],
) -> Result<Option<Arg>, Memory>
    requires { Ascends starts.now }
    ensures { IfOk result (λ o. o ≡ arg_of starts.now place (operand.Lookup default pairs.now)) }
{
    let Some(default) = target(starts, place, default) else {
        return Ok(None);
    };
    match pair_targets(alloc, starts, place, pairs)? {
        Some(numbers) => Ok(Some(Arg::lookup(default, numbers)?)),
        None => Ok(None),
    }
}

/// The operand with numbers for its offsets; none where one of them leads elsewhere than to the
/// start of an instruction.
pub fn arg_of(
    alloc: Global,
    starts: &[u64],
    place: u64,
    operand: Operand,
) -> Result<Option<Arg>, Memory>
    requires { Ascends starts.now }
    ensures { IfOk result (λ o. o ≡ arg_of starts.now place operand) }
{
    match operand {
        Operand::Done(arg) => Ok(Some(arg)),
        Operand::To(offset) => match target(starts, place, offset) {
            Some(number) => Ok(Some(Arg::To(number))),
            None => Ok(None),
        },
        Operand::Table(default, low, offsets) => {
            table_arg(alloc, starts, place, default, low, offsets.as_slice())
        }
        Operand::Lookup(default, pairs) => {
            lookup_arg(alloc, starts, place, default, pairs.as_slice())
        }
    }
}
