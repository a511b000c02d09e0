//! Names and the texts that spell them.

ghost use Rattle.std.specs.Prelude.{◌≡◌, ◌≤◌, length, map, drop, IfOk};
ghost use Rattle.class_model.specs.Text.{text, units_of};
ghost use Rattle.history_file.specs.Rows.{name_or_empty};
ghost use Rattle.new_history.specs.Naming.{names_of};

use class_model::{Bytes, Memory, Name, Seq, TextFault, read_text, write_text};
use std::alloc::Global;

// The name that a text spells; an empty one, if it spells none.
fn name_of(alloc: Global, text: &[u8]) -> Result<Name, Memory>
    ensures { IfOk result (λ name. name ≡ name_or_empty (units_of text.now)) }
{
    match read_text(alloc, text) {
        Ok(name) => Ok(name),
        Err(TextFault::BadText { .. }) => Ok(Seq::new(alloc)),
        Err(TextFault::Memory) => Err(Memory),
    }
}

/// The names that these texts spell.
pub fn names_of(alloc: Global, texts: &[&[u8]]) -> Result<Seq<Name>, Memory>
    ensures { IfOk result (λ names. names ≡ names_of (map (λ s. s.now) texts.now)) }
{
    let mut names = Seq::with_capacity(alloc, texts.len())?;
    for text in texts {
        let name = name_of(alloc, text)?;
        names.push(name)?;
    }
    Ok(names)
}

/// The texts of these names.
pub fn texts_of(alloc: Global, names: &[&Name]) -> Result<Seq<Bytes>, Memory>
    ensures { IfOk result (λ texts. texts ≡ map text (map (λ s. s.now) names.now)) }
{
    let mut texts = Seq::with_capacity(alloc, names.len())?;
    for name in names {
        let text = write_text(alloc, name)?;
        texts.push(text)?;
    }
    Ok(texts)
}
