//! The texts of mutants.

ghost use Rattle.std.specs.Prelude.{◌≡◌, ◌++◌, IfOk, OnOk};
ghost use Rattle.mutator_ops.specs.Printing.{printed, id_text, id_lines};

use crate::mutant::Mutant;
use class_model::{Bytes, Memory, Name};
use std::alloc::Global;

fn put_name(alloc: Global, text: &mut Bytes, name: &Name) -> Result<(), Memory>
    ensures { OnOk result (text.new ≡ text.old ++ printed name.now) }
{
    let printed = String::from_utf16_lossy(alloc, name.as_slice())?;
    text.extend_from_slice(printed.as_bytes())
}

fn put_str(text: &mut Bytes, piece: &str) -> Result<(), Memory>
    ensures { OnOk result (text.new ≡ text.old ++ piece.now) }
{
    text.extend_from_slice(piece.as_bytes())
}

/// The identifier of a mutant in UTF-8: class, `.`, method, descriptor, `@`, instruction number,
/// `:`, mutator.
pub fn id_text(alloc: Global, m: &Mutant) -> Result<Bytes, Memory>
    ensures { IfOk result (λ text. text ≡ id_text m.now) }
{
    let mut text = Bytes::new(alloc);
    put_name(alloc, &mut text, &m.class)?;
    put_str(&mut text, ".")?;
    put_name(alloc, &mut text, &m.method)?;
    put_name(alloc, &mut text, &m.desc)?;
    put_str(&mut text, "@")?;
    let at = m.at;
    let digits = format!(in alloc; "{at}")?;
    put_str(&mut text, digits.as_str())?;
    put_str(&mut text, ":")?;
    put_str(&mut text, m.mutator.name())?;
    Ok(text)
}

/// The identifiers of mutants, one per line.
pub fn id_lines(alloc: Global, mutants: &[Mutant]) -> Result<Bytes, Memory>
    ensures { IfOk result (λ text. text ≡ id_lines mutants.now) }
{
    let mut text = Bytes::new(alloc);
    for m in mutants {
        let mut line = id_text(alloc, m)?;
        put_str(&mut line, "\n")?;
        text.extend_from_slice(line.as_slice())?;
    }
    Ok(text)
}
