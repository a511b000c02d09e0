//! The steps of an edit: where a frame, an entry and an instruction stand afterwards.

ghost use Rattle.std.specs.Prelude.{◌≡◌, ◌<◌, ◌^◌, IfOk};
ghost use Rattle.mt_insn.specs.Code.{code_length, places};
ghost use Rattle.mutant_apply.specs.Entries.{index_of};
ghost use Rattle.mutant_apply.specs.Moved.{long_enough};
ghost use Rattle.mutant_apply.specs.Room.{Adds};

use class_model::{Const, Insn, Memory, Seq, Shape};
use mutant_apply::Refusal;
use std::alloc::Global;

/// `mutant_apply::long_enough`.
pub fn long_enough(delta: u64, shape: Shape) -> Shape
    ensures { result ≡ long_enough delta shape }
{
    let long = mutant_apply::long_enough(delta, shape);
    long
}

/// `mutant_apply::index_of`.
pub fn index_of(pool: &[Const], entry: Const, added: &mut Seq<Const>) -> Result<u16, Refusal>
    ensures { Adds (index_of pool.now entry added.old) added.new result }
{
    let index = mutant_apply::index_of(pool, entry, added)?;
    Ok(index)
}

/// `mt_insn::places`, by which the frames of an edited code are moved: behind a switch an
/// instruction begins as the padding of the switch has it at its new place.
pub fn places(alloc: Global, insns: &Seq<Insn>) -> Result<Seq<u32>, Memory>
    requires { code_length insns.now < 2 ^ 32 }
    ensures { IfOk result (λ p. p ≡ places insns.now) }
{
    let starts = mt_insn::places(alloc, insns)?;
    Ok(starts)
}
