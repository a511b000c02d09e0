//! Reading all instructions of a code.

ghost use Rattle.std.specs.Prelude.{◌≡◌, ◌+◌, ◌<◌, ◌^◌, length, map, IfOk};
ghost use Rattle.std.specs.List.{AllByRecursion};
ghost use Rattle.class_model.specs.declared.fault.ClassFault.TheVariants as fault;
ghost use Rattle.codec_rules.specs.Meets.{Gives};
ghost use Rattle.codec_rules.specs.Reading.{until_end};
ghost use Rattle.codec_rules.specs.Spelling.{input_at};
ghost use Rattle.mt_insn.specs.Order.{Ascends};
ghost use Rattle.mt_insn.specs.Targets.{placed_at, starts_of, resolved, code_at};

use crate::cursor::CodeCursor;
use crate::raw::{Placed, RawInsn};
use crate::read::read_insn;
use crate::target::arg_of;
use class_model::{CheckedPool, ClassFault, Insn, Memory, Seq};
use std::alloc::Global;

/// The instructions up to the last byte, with their places. `base` is the place in the file of the
/// first byte.
fn read_placed(
    alloc: Global,
    bytes: &[u8],
    base: u64,
    pool: &CheckedPool,
) -> Result<Seq<Placed>, ClassFault>
    requires { base + length bytes.now < 2 ^ 64 }
    ensures { Gives fault.Memory (λ x. x)
        (until_end (placed_at base pool.now) (input_at 0 bytes.now)) result }
{
    let mut code = CodeCursor::new(bytes);
    let mut all = Seq::new(alloc);
    while code.left() > 0 {
        let place = code.place();
        let insn = read_insn(alloc, base, pool, &mut code)?;
        all.push(Placed { place, insn })?;
    }
    Ok(all)
}

fn starts_of(alloc: Global, insns: &[Placed]) -> Result<Seq<u64>, Memory>
    ensures { IfOk result (λ s. s ≡ starts_of insns.now) }
{
    let mut starts = Seq::new(alloc);
    for insn in insns {
        starts.push(insn.place)?;
    }
    Ok(starts)
}

/// The instructions with numbers for their offsets.
fn resolve(
    alloc: Global,
    base: u64,
    starts: &[u64],
    insns: Seq<Placed>,
) -> Result<Seq<Insn>, ClassFault>
    requires order { Ascends starts.now }
    requires room { AllByRecursion (λ p. base + p.place < 2 ^ 64) insns }
    ensures { Gives fault.Memory (λ x. x) (resolved base starts.now insns) result }
{
    let mut all = Seq::with_capacity(alloc, starts.len())?;
    for placed in insns.into_vec() {
        let Placed { place, insn } = placed;
        let RawInsn { op, wide, operand } = insn;
        match arg_of(alloc, starts, place, operand)? {
            Some(arg) => all.push(Insn { op, wide, arg })?,
            None => return Err(ClassFault::BadTarget { at: base + place }),
        }
    }
    Ok(all)
}

/// The instructions that are the whole of a code. `base` is the place in the file of its first
/// byte.
pub fn read_code(
    alloc: Global,
    bytes: &[u8],
    base: u64,
    pool: &CheckedPool,
) -> Result<Seq<Insn>, ClassFault>
    requires { base + length bytes.now < 2 ^ 64 }
    ensures { Gives fault.Memory (λ x. x) (code_at base pool.now bytes.now) result }
{
    let insns = read_placed(alloc, bytes, base, pool)?;
    let starts = starts_of(alloc, insns.as_slice())?;
    resolve(alloc, base, starts.as_slice(), insns)
}
