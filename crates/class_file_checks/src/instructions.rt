//! The code of a method: calls of `mt_insn`.

ghost use Rattle.std.specs.Prelude.{◌≡◌, ◌+◌, ◌<◌, ◌^◌, ◌++◌, List, length, All, IfOk, OnOk, Ok};
ghost use Rattle.class_model.specs.declared.fault.ClassFault.TheVariants as fault;
ghost use Rattle.class_model.specs.declared.fault.LayoutFault.TheVariants as layout_fault;
ghost use Rattle.class_model.specs.declared.instruction.Insn.{Insn};
ghost use Rattle.codec_rules.specs.Meets.{Gives};
ghost use Rattle.mt_insn.specs.Code.{IsCode, HasForm, HasTargets, code, layout};
ghost use Rattle.mt_insn.specs.Targets.{code_at};

use class_model::{Bytes, CheckedPool, ClassFault, Insn, LayoutFault, Seq};
use std::alloc::Global;

/// `read_insns`.
pub fn read_insns(
    alloc: Global,
    bytes: &[u8],
    base: u64,
    pool: &CheckedPool,
) -> Result<Seq<Insn>, ClassFault>
    requires { base + length bytes.now < 2 ^ 64 }
    ensures found { IfOk result (λ insns. IsCode pool.now insns × (bytes.now ≡ code insns)) }
    ensures only { (insns : List Insn) → IsCode pool.now insns → bytes.now ≡ code insns →
        Gives fault.Memory (λ read. read) (Ok insns) result }
    ensures exact { Gives fault.Memory (λ insns. insns) (code_at base pool.now bytes.now) result }
{
    mt_insn::read_insns(alloc, bytes, base, pool)
}

/// `write_insns`.
pub fn write_insns(insns: &Seq<Insn>, out: &mut Bytes) -> Result<(), LayoutFault>
    requires forms { All HasForm insns.now }
    requires targets { All (HasTargets (length insns.now)) insns.now }
    ensures ok { OnOk result (out.new ≡ out.old ++ code insns.now) }
    ensures exact { Gives layout_fault.Memory (λ _. code insns.now) (layout insns.now) result }
    ensures unchanged { (what : _) → result ≡ Err (layout_fault.TooLarge what) → out.new ≡ out.old }
{
    mt_insn::write_insns(insns, out)
}
