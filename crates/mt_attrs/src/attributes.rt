//! The attributes of a class, a field or a method (JVMS 4.7).

ghost use Rattle.std.specs.Prelude.{◌≡◌, ◌+◌};
ghost use Rattle.codec_rules.specs.Input.{IsInput};
ghost use Rattle.mt_bytes.specs.Items.{ReadsItem};
ghost use Rattle.mt_insn.specs.Named.{names};
ghost use Rattle.mt_attrs.specs.Item.{ReadsPart, content, many_by};
ghost use Rattle.mt_attrs.specs.Named.{is_text, is_value, index_at};
ghost use Rattle.mt_attrs.specs.Notes.{notes_at};
ghost use Rattle.mt_attrs.specs.Kinds.{known_of, is_free, all_unseen};
ghost use Rattle.mt_attrs.specs.CodeParts.{name_at};
ghost use Rattle.mt_attrs.specs.Attributes.{body_at, attr_at, attr_after, all_at, fault_of, attrs_at};

use crate::code::read_code;
use crate::content::{closed, opened};
use crate::fault::ItemFault;
use crate::item::{read_carried, u2, u4};
use crate::kinds::{Known, Unseen, all_unseen, is_free, known_of, without};
use crate::named::{read_text, read_value};
use crate::notes::read_notes;
use crate::owner::Owner;
use class_model::{Attr, Body, CheckedPool, ClassFault, Note, Seq};
use mt_bytes::Cursor;
use std::alloc::Global;

fn read_source(
    pool: &CheckedPool,
    file_end: u64,
    first: u64,
    cur: &mut Cursor,
) -> Result<u16, ItemFault>
    ensures { ReadsPart (content file_end first (index_at is_text pool.now))
        cur.old cur.new result }
{
    let len = u4(cur)?;
    let part = opened(cur, len);
    let mut inner = Cursor::new(part.bytes, part.at);
    let index = read_text(pool, &mut inner);
    closed(index, inner.left(), part, file_end, first)
}

fn read_constant_value(
    pool: &CheckedPool,
    file_end: u64,
    first: u64,
    cur: &mut Cursor,
) -> Result<u16, ItemFault>
    ensures { ReadsPart (content file_end first (index_at is_value pool.now))
        cur.old cur.new result }
{
    let len = u4(cur)?;
    let part = opened(cur, len);
    let mut inner = Cursor::new(part.bytes, part.at);
    let index = read_value(pool, &mut inner);
    closed(index, inner.left(), part, file_end, first)
}

fn read_annotations(
    alloc: Global,
    pool: &CheckedPool,
    file_end: u64,
    first: u64,
    cur: &mut Cursor,
) -> Result<Seq<Note>, ItemFault>
    ensures { ReadsPart (content file_end first (notes_at pool.now)) cur.old cur.new result }
{
    let len = u4(cur)?;
    let part = opened(cur, len);
    let mut inner = Cursor::new(part.bytes, part.at);
    let notes = read_notes(alloc, pool, &mut inner);
    closed(notes, inner.left(), part, file_end, first)
}

/// What stands behind the name of an attribute that begins at `first`.
fn read_body(
    alloc: Global,
    pool: &CheckedPool,
    file_end: u64,
    first: u64,
    known: Option<Known>,
    cur: &mut Cursor,
) -> Result<Body, ItemFault>
    ensures { ReadsPart (body_at file_end pool.now first known) cur.old cur.new result }
{
    match known {
        Some(Known::Code) => {
            let code = read_code(alloc, pool, file_end, first, cur)?;
            Ok(Body::Code(code))
        }
        Some(Known::Source) => {
            let index = read_source(pool, file_end, first, cur)?;
            Ok(Body::Source(index))
        }
        Some(Known::Value) => {
            let index = read_constant_value(pool, file_end, first, cur)?;
            Ok(Body::Value(index))
        }
        Some(Known::Visible | Known::Invisible) => {
            let notes = read_annotations(alloc, pool, file_end, first, cur)?;
            Ok(Body::Notes(notes))
        }
        None => {
            let bytes = read_carried(alloc, cur)?;
            Ok(Body::Raw(bytes))
        }
    }
}

/// The index of the name of an attribute.
fn read_name(
    pool: &CheckedPool,
    owner: Owner,
    unseen: Unseen,
    cur: &mut Cursor,
) -> Result<u16, ItemFault>
    ensures { ReadsPart (name_at pool.now (λ name. is_free unseen (known_of pool.now owner name)))
        cur.old cur.new result }
{
    let first = cur.at();
    let name = read_text(pool, cur)?;
    if !is_free(unseen, known_of(pool, owner, name)) {
        return Err(ItemFault::Bad(ClassFault::BadLength { at: first }));
    }
    Ok(name)
}

#[tactic(auto, unfolding(crate::specs::Attributes::attr_at))]
fn read_attr(
    alloc: Global,
    pool: &CheckedPool,
    owner: Owner,
    file_end: u64,
    unseen: Unseen,
    cur: &mut Cursor,
) -> Result<Attr, ItemFault>
    ensures { ReadsPart (attr_at file_end pool.now owner unseen) cur.old cur.new result }
{
    let first = cur.at();
    let name = read_name(pool, owner, unseen, cur)?;
    let body = read_body(
        alloc,
        pool,
        file_end,
        first,
        known_of(pool, owner, name),
        cur,
    )?;
    Ok(Attr { name, body })
}

fn attr_after(pool: &CheckedPool, owner: Owner, unseen: Unseen, attr: &Attr) -> Unseen
    ensures { result ≡ attr_after pool.now owner unseen attr.now }
{
    without(unseen, known_of(pool, owner, attr.name))
}

fn read_counted_attrs(
    alloc: Global,
    pool: &CheckedPool,
    owner: Owner,
    file_end: u64,
    count: u16,
    cur: &mut Cursor,
) -> Result<Seq<Attr>, ItemFault>
    ensures { ReadsPart
        (many_by (attr_at file_end pool.now owner) (attr_after pool.now owner) all_unseen count)
        cur.old cur.new result }
{
    let mut attrs = Seq::new(alloc);
    let mut unseen = all_unseen();
    for _ in 0..count {
        let attr = read_attr(alloc, pool, owner, file_end, unseen, cur)?;
        unseen = attr_after(pool, owner, unseen, &attr);
        attrs.push(attr)?;
    }
    Ok(attrs)
}

/// The attributes in a file that ends at `file_end`.
fn read_all(
    alloc: Global,
    pool: &CheckedPool,
    owner: Owner,
    file_end: u64,
    cur: &mut Cursor,
) -> Result<Seq<Attr>, ItemFault>
    ensures { ReadsPart (all_at file_end pool.now owner) cur.old cur.new result }
{
    let count = u2(cur)?;
    read_counted_attrs(alloc, pool, owner, file_end, count, cur)
}

/// An item that no attribute's end cuts is cut by the file's.
fn fault_of(fault: ItemFault) -> ClassFault
    ensures { result ≡ fault_of fault }
{
    match fault {
        ItemFault::Short { at, .. } => ClassFault::Truncated { at },
        ItemFault::Bad(fault) => fault,
    }
}

/// The attributes in a file that ends where the cursor does.
pub fn read_whole(
    alloc: Global,
    pool: &CheckedPool,
    owner: Owner,
    cur: &mut Cursor,
) -> Result<Seq<Attr>, ClassFault>
    ensures known { IsInput cur.old }
    ensures reads { ReadsItem (attrs_at owner pool.now) cur.old cur.new result }
{
    let file_end = cur.at() + cur.left();
    match read_all(alloc, pool, owner, file_end, cur) {
        Ok(attrs) => Ok(attrs),
        Err(fault) => Err(fault_of(fault)),
    }
}
