//! How many bytes instructions take, and where they begin.

ghost use Rattle.std.specs.Prelude.{◌≡◌, ◌+◌, ◌<◌, ◌^◌, nat_lt, length, IfOk};
ghost use Rattle.mt_insn.specs.Opcode.{form_of};
ghost use Rattle.mt_insn.specs.Operands.{padding};
ghost use Rattle.mt_insn.specs.Code.{table_keys, lookup_keys, operand_size, wide_size, size_at, places, code_length};

use crate::opcode::{Form, form_of};
use crate::switch::padding;
use class_model::{Arg, Insn, Memory, Seq};
use std::alloc::Global;

fn table_keys(arg: &Arg) -> usize
    ensures { result ≡ table_keys arg.now }
{
    match arg {
        Arg::Table(_, table) => table.get().1.len(),
        _ => 0,
    }
}

fn lookup_keys(arg: &Arg) -> usize
    ensures { result ≡ lookup_keys arg.now }
{
    match arg {
        Arg::Lookup(_, pairs) => pairs.get().len(),
        _ => 0,
    }
}

/// The bytes behind an opcode that ends at a place. 128 bits hold the size of every list of
/// targets.
fn operand_size(form: Form, place: u64, arg: &Arg) -> u128
    ensures size { result ≡ operand_size form place arg.now }
    ensures bound { result < 2 ^ 68 }
{
    match form {
        Form::Plain | Form::Float | Form::FloatLocal => 0,
        Form::SmallNumber | Form::SmallConstant | Form::Local | Form::Array => 1,
        Form::Number
        | Form::Constant
        | Form::LongConstant
        | Form::Increment
        | Form::Jump
        | Form::Field
        | Form::Method
        | Form::AnyMethod
        | Form::Class => 2,
        Form::Dimensions => 3,
        Form::FarJump | Form::Interface | Form::Dynamic => 4,
        Form::Table => u128::from(padding(place)) + (12 + 4 * table_keys(arg) as u128),
        Form::Lookup => u128::from(padding(place)) + (8 + 8 * lookup_keys(arg) as u128),
    }
}

fn wide_size(form: Form) -> u128
    ensures { result ≡ wide_size form }
{
    match form {
        Form::Increment => 4,
        _ => 2,
    }
}

/// How many bytes an instruction that begins at a place takes.
pub fn size_at(place: u64, insn: &Insn) -> u128
    requires { place < 2 ^ 32 }
    ensures size { result ≡ size_at place insn.now }
    ensures bound { result < 2 ^ 69 }
{
    match form_of(insn.op) {
        None if insn.wide => 2,
        None => 1,
        Some(form) if insn.wide => 2 + wide_size(form),
        Some(form) => 1 + operand_size(form, place + 1, &insn.arg),
    }
}

/// The code is at most 65,535 bytes long.
pub fn has_room(insns: &[Insn]) -> bool
    ensures { result ≡ nat_lt (code_length insns.now) (2 ^ 16) }
{
    let mut place = 0;
    for insn in insns {
        let end = u128::from(place) + size_at(place, insn);
        if end > 0xffff {
            return false;
        }
        place = end as u64;
    }
    true
}

/// Where each instruction begins.
pub fn places_of(alloc: Global, insns: &[Insn]) -> Result<Seq<u32>, Memory>
    requires { code_length insns.now < 2 ^ 32 }
    ensures { IfOk result (λ p. p ≡ places insns.now) }
{
    let mut places = Seq::new(alloc);
    let mut place = 0;
    for insn in insns {
        places.push(place as u32)?;
        place = (u128::from(place) + size_at(place, insn)) as u64;
    }
    Ok(places)
}
