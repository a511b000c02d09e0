//! Calls of `asm_words`.

ghost use Rattle.std.specs.Prelude.{◌≡◌, IfOk};
ghost use Rattle.asm_words.specs.Labels.{start_in};
ghost use Rattle.asm_words.specs.Lines.{lines_from};

use asm_words::{Labels, Line};
use class_model::{Memory, Name, Seq};
use std::alloc::Global;

/// The lines that are not passed over.
pub fn lines_of(alloc: Global, pieces: &[Seq<u8>]) -> Result<Seq<Line>, Memory>
    ensures { IfOk result (λ lines. lines ≡ lines_from 1 pieces.now) }
{
    asm_words::lines_of(alloc, pieces)
}

/// The number of the instruction before which a label stands.
pub fn start_in(labels: &Labels, name: &Name) -> Option<u32>
    ensures { result ≡ start_in labels.now name.now }
{
    asm_words::start_in(labels, name)
}
