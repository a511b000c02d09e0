//! Calls of `asm_words` for instructions.

ghost use Rattle.std.specs.Prelude.{◌≡◌, IfOk};
ghost use Rattle.asm_words.specs.Insns.{insn_of};
ghost use Rattle.asm_words.specs.Named.{class_in};

use asm_words::{Labels, Line, StatedInsn};
use class_model::{Memory, Name};
use std::alloc::Global;

/// The class that a word names.
pub fn class_in(alloc: Global, word: &Name) -> Result<Option<Name>, Memory>
    ensures { IfOk result (λ o. o ≡ class_in word.now) }
{
    asm_words::class_in(alloc, word)
}

/// The instruction that a line states.
pub fn insn_of(alloc: Global, labels: &Labels, line: &Line) -> Result<Option<StatedInsn>, Memory>
    ensures { IfOk result (λ o. o ≡ insn_of labels.now line.now) }
{
    asm_words::insn_of(alloc, labels, line)
}
