//! The instructions that an edit puts in the place of one.

ghost use Rattle.std.specs.Prelude.{◌≡◌, false, Some, None, All, if◌then◌else◌};
ghost use Rattle.class_model.specs.declared.instruction.Arg.TheVariants as arg;
ghost use Rattle.mt_insn.specs.Code.{is_short};
ghost use Rattle.mutant_apply.specs.Moved.{moved_place};
ghost use Rattle.mutant_apply.specs.Edited.{is_narrow, increment, new_insn, new_insns};
ghost use Rattle.mutant_apply.specs.Room.{IsNearNew, Adds};

use crate::entries::{empty_string, method_of};
use crate::place_map::{PlaceMap, moved_insn};
use crate::refusal::Refusal;
use class_model::{Arg, Const, Insn, NewInsn, Seq};

// JVMS 6.5.
const IINC: u8 = 0x84;

const LDC_W: u8 = 0x13;

const INVOKESTATIC: u8 = 0xb8;

fn is_narrow(local: u16, by: i16) -> bool
    ensures { result ≡ is_narrow local by }
{
    local < 256 && -128 <= by && by <= 127
}

fn increment(local: u16, by: i32, added: &Seq<Const>) -> Result<Insn, Refusal>
    ensures { Adds (if is_short by then Some (increment local by, added.now) else None)
        added.now result }
{
    let Ok(by) = i16::try_from(by) else {
        return Err(Refusal::NoLayout);
    };
    Ok(Insn {
        op: IINC,
        wide: !is_narrow(local, by),
        arg: Arg::Inc(local, by),
    })
}

fn of_entry(op: u8, index: u16) -> Insn
    ensures { result ≡ record { op = op; wide = false; arg = arg.Pool index } }
{
    Insn {
        op,
        wide: false,
        arg: Arg::Pool(index),
    }
}

fn new_insn(
    pool: &[Const],
    by: PlaceMap,
    new: &NewInsn,
    added: &mut Seq<Const>,
) -> Result<Insn, Refusal>
    requires { IsNearNew new.now }
    ensures { Adds (new_insn pool.now (moved_place by.at by.more) new.now added.old)
        added.new result }
{
    match new {
        NewInsn::Plain(insn) => Ok(moved_insn(by, insn)?),
        NewInsn::Inc(local, constant) => increment(*local, *constant, added),
        NewInsn::EmptyText => Ok(of_entry(LDC_W, empty_string(pool, added)?)),
        NewInsn::Call(class, name, desc) => {
            let index = method_of(pool, class, name, desc, added)?;
            Ok(of_entry(INVOKESTATIC, index))
        }
    }
}

/// The new instructions, with the entries that they add to a pool.
pub fn new_insns(
    pool: &[Const],
    by: PlaceMap,
    with: &Seq<NewInsn>,
    added: &mut Seq<Const>,
) -> Result<Seq<Insn>, Refusal>
    requires { All IsNearNew with.now }
    ensures { Adds (new_insns pool.now (moved_place by.at by.more) with.now added.old)
        added.new result }
{
    let mut insns = Seq::new(with.allocator());
    for new in with.as_slice() {
        let insn = new_insn(pool, by, new, added)?;
        insns.push(insn)?;
    }
    Ok(insns)
}
