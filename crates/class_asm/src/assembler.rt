//! From a text to the bytes of a class file.

ghost use Rattle.std.specs.Prelude.{◌≡◌, ◌≢◌, MatchResult, Err};
ghost use Rattle.codec_rules.specs.Meets.{Gives};
ghost use Rattle.class_asm.specs.declared.fault.AsmFault.TheVariants as asm_fault;
ghost use Rattle.class_asm.specs.Assembled.{AssembledClass, IsAssembled, IsWithin, stated_in};
ghost use Rattle.class_writer.specs.Writing.{HasClassForm};

use crate::file::class_of;
use crate::numbering::Entries;
use crate::pool::Pool;
use crate::{AsmFault, End, stated_by};
use asm_words::{StatedClass, lines_in, lines_of};
use class_model::{Bytes, Class, LayoutFault};
use class_writer::write_class;
use std::alloc::Global;

/// The class that a text states, and where it ends.
fn stated_in(alloc: Global, text: &[u8]) -> Result<(StatedClass, End), AsmFault>
    ensures { Gives asm_fault.Memory (λ x. x) (stated_in text.now) result }
{
    let pieces = lines_in(alloc, text)?;
    let lines = lines_of(alloc, pieces.as_slice())?;
    stated_by(alloc, pieces.len() as u64 + 1, lines.as_slice())
}

/// The class file of a class, where no limit is passed and no line stands behind its end.
fn within_limits(alloc: Global, class: &Class, passed: bool, end: End) -> Result<Bytes, AsmFault>
    requires { HasClassForm class.now }
    ensures { IsWithin class.now passed end result }
{
    if passed {
        return Err(AsmFault::Line { line: end.line });
    }
    let bytes = match write_class(alloc, class) {
        Ok(bytes) => bytes,
        Err(LayoutFault::TooLarge { .. }) => return Err(AsmFault::Line { line: end.line }),
        Err(LayoutFault::Memory) => return Err(AsmFault::Memory),
    };
    match end.behind {
        Some(line) => Err(AsmFault::Line { line }),
        None => Ok(bytes),
    }
}

/// The class file of the class that a text states. `Line` comes exactly where the text states none,
/// and names the first line at fault.
pub fn assemble(alloc: Global, text: &[u8]) -> Result<Bytes, AsmFault>
    ensures { MatchResult result (λ bytes. IsAssembled text.now bytes)
        (λ fault. fault ≢ asm_fault.Memory → AssembledClass text.now ≡ Err fault) }
{
    let stated = match stated_in(alloc, text) {
        Ok(stated) => stated,
        Err(fault) => return Err(fault),
    };
    let entries = Entries {
        pool: Pool::new(alloc),
        passed: false,
    };
    let numbered = class_of(entries, &stated.0)?;
    within_limits(alloc, &numbered.0, numbered.1, stated.1)
}
