//! The call of `class_asm`.

ghost use Rattle.std.specs.Prelude.{◌≡◌, ◌≢◌, MatchResult, Err};
ghost use Rattle.class_asm.specs.declared.fault.AsmFault.TheVariants as asm_fault;
ghost use Rattle.class_asm.specs.Assembled.{AssembledClass, IsAssembled};

use class_asm::AsmFault;
use class_model::Bytes;
use std::alloc::Global;

/// The class file of the class that a text states. `Line` comes exactly where the text states none,
/// and names the first line at fault.
pub fn assemble(alloc: Global, text: &[u8]) -> Result<Bytes, AsmFault>
    ensures { MatchResult result (λ bytes. IsAssembled text.now bytes)
        (λ fault. fault ≢ asm_fault.Memory → AssembledClass text.now ≡ Err fault) }
{
    class_asm::assemble(alloc, text)
}
