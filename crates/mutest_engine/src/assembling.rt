//! The class file that a text states.

ghost use Rattle.std.specs.Prelude.{◌≡◌, ℕ, List, IfOk, IfErr, Err};
ghost use Rattle.mutest_engine.specs.Decided.{IsAssembledTo};
ghost use Rattle.mutest_engine.specs.Refusals.{IsOfText};
ghost use Rattle.mutest_engine.specs.Stated.{stated_class};
ghost use Rattle.mutest_engine.specs.Steps.{Refuses};

use crate::refusal::Refusal;
use crate::stop::Stop;
use asm_laws::what_is_assembled_is_spelled;
use class_asm::{AsmFault, assemble};
use class_model::Bytes;
use std::alloc::Global;

/// The class file of the class that a text states, which is one of the standard's form; or the
/// first line at fault.
pub fn class_file_of(alloc: Global, text: &[u8]) -> Result<Bytes, Stop>
    ensures bytes { IfOk result (IsAssembledTo text.now) }
    ensures refused { IfErr result (Refuses (λ r. stated_class text.now ≡ Err r)) }
    ensures refusal { IfErr result (Refuses (λ r. (path : List ℕ) → IsOfText path r)) }
{
    what_is_assembled_is_spelled();
    match assemble(alloc, text) {
        Ok(bytes) => Ok(bytes),
        Err(AsmFault::Line { line }) => Err(Stop::Refused(Refusal::AsmRefused { line })),
        Err(AsmFault::Memory) => Err(Stop::WantOfMemory),
    }
}
