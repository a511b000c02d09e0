//! Writing annotations.

ghost use Rattle.std.specs.Prelude.{◌≡◌, ◌++◌, length, OnOk};
ghost use Rattle.std.specs.List.{flat_map};
ghost use Rattle.mt_attrs.specs.Notes.{token_bytes, note_bytes, notes_bytes};
ghost use Rattle.mt_attrs.specs.Layout.{Writes, count_bound};

use crate::put::write_count;
use class_model::{Bytes, LayoutFault, Memory, Note, Token};
use mt_bytes::{put_u1, put_u2};

fn put_token(token: Token, out: &mut Bytes) -> Result<(), Memory>
    ensures { OnOk result (out.new ≡ out.old ++ token_bytes token) }
{
    match token {
        Token::Name(name) => put_u2(out, name),
        Token::Plain(tag, index) => {
            put_u1(out, tag)?;
            put_u2(out, index)
        }
        Token::Enum(kind, name) => {
            put_u1(out, 101)?;
            put_u2(out, kind)?;
            put_u2(out, name)
        }
        Token::Class(index) => {
            put_u1(out, 99)?;
            put_u2(out, index)
        }
        Token::Inner(kind, count) => {
            put_u1(out, 64)?;
            put_u2(out, kind)?;
            put_u2(out, count)
        }
        Token::Many(count) => {
            put_u1(out, 91)?;
            put_u2(out, count)
        }
    }
}

fn put_tokens(tokens: &[Token], out: &mut Bytes) -> Result<(), Memory>
    ensures { OnOk result (out.new ≡ out.old ++ flat_map token_bytes tokens.now) }
{
    for token in tokens {
        put_token(*token, out)?;
    }
    Ok(())
}

fn put_note(note: &Note, out: &mut Bytes) -> Result<(), Memory>
    ensures { OnOk result (out.new ≡ out.old ++ note_bytes note.now) }
{
    put_u2(out, note.kind)?;
    put_u2(out, note.count)?;
    put_tokens(note.tokens.as_slice(), out)
}

fn put_each_note(notes: &[Note], out: &mut Bytes) -> Result<(), Memory>
    ensures { OnOk result (out.new ≡ out.old ++ flat_map note_bytes notes.now) }
{
    for note in notes {
        put_note(note, out)?;
    }
    Ok(())
}

/// The annotations of an attribute.
pub fn write_notes(notes: &[Note], out: &mut Bytes) -> Result<(), LayoutFault>
    ensures { Writes (count_bound (length notes.now)) (notes_bytes notes.now)
        out.old out.new result }
{
    write_count(notes.len(), out)?;
    put_each_note(notes, out)?;
    Ok(())
}
