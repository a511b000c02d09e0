//! Annotations.

ghost use Rattle.std.specs.Prelude.{◌≡◌, IfOk};
ghost use Rattle.class_asm.specs.Members.{class_note_in, expecting_note, note_in};

use asm_words::{StatedNote, is_field_desc, is_result_desc, says};
use class_model::{Memory, Name};
use std::alloc::Global;

/// An annotation without elements.
pub fn class_note_in(alloc: Global, words: &[Name]) -> Result<Option<StatedNote>, Memory>
    ensures { IfOk result (λ o. o ≡ class_note_in words.now) }
{
    let [_, kind] = words else {
        return Ok(None);
    };
    if !is_field_desc(alloc, kind)? {
        return Ok(None);
    }
    Ok(Some(StatedNote {
        kind: kind.copy()?,
        expected: None,
    }))
}

fn expecting_note(
    alloc: Global,
    kind: &Name,
    keyword: &Name,
    expected: &Name,
) -> Result<Option<StatedNote>, Memory>
    ensures { IfOk result (λ o. o ≡ expecting_note kind.now keyword.now expected.now) }
{
    if !says(keyword, "expected") {
        return Ok(None);
    }
    if !is_field_desc(alloc, kind)? {
        return Ok(None);
    }
    if !is_result_desc(alloc, expected)? {
        return Ok(None);
    }
    Ok(Some(StatedNote {
        kind: kind.copy()?,
        expected: Some(expected.copy()?),
    }))
}

/// An annotation, which may have a class as its element `expected`.
pub fn note_in(alloc: Global, words: &[Name]) -> Result<Option<StatedNote>, Memory>
    ensures { IfOk result (λ o. o ≡ note_in words.now) }
{
    match words {
        [_, kind, keyword, expected] => expecting_note(alloc, kind, keyword, expected),
        _ => class_note_in(alloc, words),
    }
}
