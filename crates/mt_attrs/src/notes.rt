//! RuntimeVisibleAnnotations and RuntimeInvisibleAnnotations (JVMS 4.7.16, 4.7.17), read without
//! recursion.

ghost use Rattle.std.specs.Prelude.{◌≡◌};
ghost use Rattle.codec_rules.specs.Reading.{many_at};
ghost use Rattle.mt_attrs.specs.Item.{ReadsPart, counted_at};
ghost use Rattle.mt_attrs.specs.Notes.{is_constant_tag, enum_at, inner_at, value_at, front_at, token_at, tokens_at, all_tokens_at, outer_due, note_at, notes_at};

use crate::due::{Due, Dues};
use crate::fault::ItemFault;
use crate::item::{u1, u2};
use crate::named::{read_constant, read_result, read_text, read_type};
use class_model::{CheckedPool, ClassFault, Note, Seq, Token};
use mt_bytes::Cursor;
use std::alloc::Global;

/// The tags of constants: `B C D F I J S Z s`.
fn is_constant_tag(tag: u8) -> bool
    ensures { result ≡ is_constant_tag tag }
{
    matches!(tag, 66 | 67 | 68 | 70 | 73 | 74 | 83 | 90 | 115)
}

#[tactic(auto, unfolding(crate::specs::Notes::enum_at))]
fn read_enum(pool: &CheckedPool, cur: &mut Cursor) -> Result<Token, ItemFault>
    ensures { ReadsPart (enum_at pool.now) cur.old cur.new result }
{
    let kind = read_type(pool, cur)?;
    let name = read_text(pool, cur)?;
    Ok(Token::Enum(kind, name))
}

/// An annotation where so many more may be opened.
fn read_inner(pool: &CheckedPool, depth: u8, cur: &mut Cursor) -> Result<Token, ItemFault>
    ensures { ReadsPart (inner_at pool.now depth) cur.old cur.new result }
{
    if depth == 0 {
        let first = cur.at();
        u2(cur)?;
        return Err(ItemFault::Bad(ClassFault::BadLength { at: first }));
    }
    let kind = read_type(pool, cur)?;
    let count = u2(cur)?;
    Ok(Token::Inner(kind, count))
}

/// What stands behind a tag at a place.
fn read_value(
    pool: &CheckedPool,
    depth: u8,
    at: u64,
    tag: u8,
    cur: &mut Cursor,
) -> Result<Token, ItemFault>
    ensures { ReadsPart (value_at pool.now depth at tag) cur.old cur.new result }
{
    if is_constant_tag(tag) {
        let index = read_constant(pool, tag, cur)?;
        Ok(Token::Plain(tag, index))
    } else if tag == 101 {
        read_enum(pool, cur)
    } else if tag == 99 {
        let index = read_result(pool, cur)?;
        Ok(Token::Class(index))
    } else if tag == 64 {
        read_inner(pool, depth, cur)
    } else if tag == 91 {
        let count = u2(cur)?;
        Ok(Token::Many(count))
    } else {
        Err(ItemFault::Bad(ClassFault::BadTag { at, tag }))
    }
}

/// The front of a value.
#[tactic(auto, unfolding(crate::specs::Notes::front_at))]
fn read_front(pool: &CheckedPool, depth: u8, cur: &mut Cursor) -> Result<Token, ItemFault>
    ensures { ReadsPart (front_at pool.now depth) cur.old cur.new result }
{
    let at = cur.at();
    let tag = u1(cur)?;
    read_value(pool, depth, at, tag, cur)
}

/// The next token of what is due.
#[tactic(auto, unfolding(crate::specs::Notes::token_at))]
fn read_token(pool: &CheckedPool, due: Due, cur: &mut Cursor) -> Result<Token, ItemFault>
    ensures { ReadsPart (token_at pool.now due) cur.old cur.new result }
{
    if due.named {
        let name = read_text(pool, cur)?;
        return Ok(Token::Name(name));
    }
    read_front(pool, due.depth, cur)
}

/// The tokens of all that is due, in so many turns.
fn read_turns(
    alloc: Global,
    pool: &CheckedPool,
    turns: u128,
    dues: &mut Dues,
    cur: &mut Cursor,
) -> Result<Seq<Token>, ItemFault>
    ensures { ReadsPart (tokens_at pool.now turns dues.old) cur.old cur.new result }
{
    let mut tokens = Seq::new(alloc);
    for _ in 0..turns {
        let Some(due) = dues.pop() else {
            return Ok(tokens);
        };
        let token = read_token(pool, due, cur)?;
        tokens.push(token)?;
        dues.go_on(due, token)?;
    }
    Err(ItemFault::Bad(ClassFault::BadLength { at: cur.at() }))
}

/// The tokens of an annotation with so many elements.
fn read_tokens(
    alloc: Global,
    pool: &CheckedPool,
    count: u16,
    cur: &mut Cursor,
) -> Result<Seq<Token>, ItemFault>
    ensures { ReadsPart (all_tokens_at pool.now (outer_due count)) cur.old cur.new result }
{
    let turns = u128::from(cur.left()) + 1;
    let mut dues = Dues::new(alloc);
    dues.put(Due {
        named: true,
        left: count,
        depth: 31,
    })?;
    read_turns(alloc, pool, turns, &mut dues, cur)
}

#[tactic(auto, unfolding(crate::specs::Notes::note_at))]
fn read_note(alloc: Global, pool: &CheckedPool, cur: &mut Cursor) -> Result<Note, ItemFault>
    ensures { ReadsPart (note_at pool.now) cur.old cur.new result }
{
    let kind = read_type(pool, cur)?;
    let count = u2(cur)?;
    let tokens = read_tokens(alloc, pool, count, cur)?;
    Ok(Note {
        kind,
        count,
        tokens,
    })
}

fn read_counted_notes(
    alloc: Global,
    pool: &CheckedPool,
    count: u16,
    cur: &mut Cursor,
) -> Result<Seq<Note>, ItemFault>
    ensures { ReadsPart (many_at (note_at pool.now) count) cur.old cur.new result }
{
    let mut notes = Seq::new(alloc);
    for _ in 0..count {
        let note = read_note(alloc, pool, cur)?;
        notes.push(note)?;
    }
    Ok(notes)
}

/// The annotations of an attribute.
pub fn read_notes(
    alloc: Global,
    pool: &CheckedPool,
    cur: &mut Cursor,
) -> Result<Seq<Note>, ItemFault>
    ensures { ReadsPart (notes_at pool.now) cur.old cur.new result }
{
    let count = u2(cur)?;
    read_counted_notes(alloc, pool, count, cur)
}
