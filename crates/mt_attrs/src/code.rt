//! Code (JVMS 4.7.3) and the attributes inside it.

ghost use Rattle.std.specs.Prelude.{◌≡◌, ◌+◌, ◌<◌, ◌^◌, length, true, IfOk};
ghost use Rattle.mt_insn.specs.Code.{code_length};
ghost use Rattle.mt_insn.specs.Order.{Ascends, AreNear};
ghost use Rattle.mt_attrs.specs.Item.{ReadsPart, content, many_by};
ghost use Rattle.mt_attrs.specs.Lines.{lines_at};
ghost use Rattle.mt_attrs.specs.Frames.{frames_at};
ghost use Rattle.mt_attrs.specs.Kinds.{table_of, is_table_free};
ghost use Rattle.mt_attrs.specs.CodeParts.{name_at, table_body_at, table_at, table_after, tables_at, is_code_length, code_length_at, insns_at, code_content_at};

use crate::content::{closed, opened};
use crate::fault::ItemFault;
use crate::frames::read_frames;
use crate::item::{read_carried, take, u2, u4};
use crate::kinds::{CodeTable, is_table_free, table_of, without_table};
use crate::lines::read_lines;
use crate::named::read_text;
use crate::rows::read_rows;
use class_model::{Attr, Body, CheckedPool, ClassFault, Code, Frame, Insn, Seq};
use mt_bytes::Cursor;
use mt_insn::{places, read_insns};
use std::alloc::Global;

// ---- the attributes inside Code

fn read_line_table(
    alloc: Global,
    starts: &[u32],
    file_end: u64,
    first: u64,
    cur: &mut Cursor,
) -> Result<Seq<(u32, u16)>, ItemFault>
    requires { Ascends starts.now }
    ensures { ReadsPart (content file_end first (lines_at starts.now)) cur.old cur.new result }
{
    let len = u4(cur)?;
    let part = opened(cur, len);
    let mut inner = Cursor::new(part.bytes, part.at);
    let lines = read_lines(alloc, starts, &mut inner);
    closed(lines, inner.left(), part, file_end, first)
}

fn read_stack_map(
    alloc: Global,
    pool: &CheckedPool,
    starts: &[u32],
    file_end: u64,
    first: u64,
    cur: &mut Cursor,
) -> Result<Seq<Frame>, ItemFault>
    requires ascends { Ascends starts.now }
    requires near { AreNear starts.now }
    ensures { ReadsPart (content file_end first (frames_at pool.now starts.now))
        cur.old cur.new result }
{
    let len = u4(cur)?;
    let part = opened(cur, len);
    let mut inner = Cursor::new(part.bytes, part.at);
    let frames = read_frames(alloc, pool, starts, &mut inner);
    closed(frames, inner.left(), part, file_end, first)
}

/// What stands behind the name of an attribute that begins at `first`.
fn read_table_body(
    alloc: Global,
    pool: &CheckedPool,
    starts: &[u32],
    file_end: u64,
    first: u64,
    table: Option<CodeTable>,
    cur: &mut Cursor,
) -> Result<Body, ItemFault>
    requires ascends { Ascends starts.now }
    requires near { AreNear starts.now }
    ensures { ReadsPart (table_body_at file_end pool.now starts.now first table)
        cur.old cur.new result }
{
    match table {
        Some(CodeTable::Lines) => {
            let lines = read_line_table(alloc, starts, file_end, first, cur)?;
            Ok(Body::Lines(lines))
        }
        Some(CodeTable::Frames) => {
            let frames = read_stack_map(alloc, pool, starts, file_end, first, cur)?;
            Ok(Body::Frames(frames))
        }
        None => {
            let bytes = read_carried(alloc, cur)?;
            Ok(Body::Raw(bytes))
        }
    }
}

/// The index of the name of an attribute inside Code.
fn read_table_name(pool: &CheckedPool, unseen: bool, cur: &mut Cursor) -> Result<u16, ItemFault>
    ensures { ReadsPart (name_at pool.now (λ name. is_table_free unseen (table_of pool.now name)))
        cur.old cur.new result }
{
    let first = cur.at();
    let name = read_text(pool, cur)?;
    if !is_table_free(unseen, table_of(pool, name)) {
        return Err(ItemFault::Bad(ClassFault::BadLength { at: first }));
    }
    Ok(name)
}

/// `unseen` says that no StackMapTable has stood yet.
#[tactic(auto, unfolding(crate::specs::CodeParts::table_at))]
fn read_table(
    alloc: Global,
    pool: &CheckedPool,
    starts: &[u32],
    file_end: u64,
    unseen: bool,
    cur: &mut Cursor,
) -> Result<Attr, ItemFault>
    requires ascends { Ascends starts.now }
    requires near { AreNear starts.now }
    ensures { ReadsPart (table_at file_end pool.now starts.now unseen) cur.old cur.new result }
{
    let first = cur.at();
    let name = read_table_name(pool, unseen, cur)?;
    let body = read_table_body(
        alloc,
        pool,
        starts,
        file_end,
        first,
        table_of(pool, name),
        cur,
    )?;
    Ok(Attr { name, body })
}

fn table_after(pool: &CheckedPool, unseen: bool, attr: &Attr) -> bool
    ensures { result ≡ table_after pool.now unseen attr.now }
{
    without_table(unseen, table_of(pool, attr.name))
}

fn read_counted_tables(
    alloc: Global,
    pool: &CheckedPool,
    starts: &[u32],
    file_end: u64,
    count: u16,
    cur: &mut Cursor,
) -> Result<Seq<Attr>, ItemFault>
    requires ascends { Ascends starts.now }
    requires near { AreNear starts.now }
    ensures { ReadsPart
        (many_by (table_at file_end pool.now starts.now) (table_after pool.now) true count)
        cur.old cur.new result }
{
    let mut attrs = Seq::new(alloc);
    let mut unseen = true;
    for _ in 0..count {
        let attr = read_table(alloc, pool, starts, file_end, unseen, cur)?;
        unseen = table_after(pool, unseen, &attr);
        attrs.push(attr)?;
    }
    Ok(attrs)
}

fn read_tables(
    alloc: Global,
    pool: &CheckedPool,
    starts: &[u32],
    file_end: u64,
    cur: &mut Cursor,
) -> Result<Seq<Attr>, ItemFault>
    requires ascends { Ascends starts.now }
    requires near { AreNear starts.now }
    ensures { ReadsPart (tables_at file_end pool.now starts.now) cur.old cur.new result }
{
    let count = u2(cur)?;
    read_counted_tables(alloc, pool, starts, file_end, count, cur)
}

// ---- Code

fn is_code_length(len: u32) -> bool
    ensures { result ≡ is_code_length len }
{
    0 < len && len < 0x1_0000
}

/// The length of the code. `first` is the first byte of the Code attribute.
fn read_code_length(first: u64, cur: &mut Cursor) -> Result<u32, ItemFault>
    ensures reads { ReadsPart (code_length_at first) cur.old cur.new result }
    ensures short { IfOk result (λ len. len < 2 ^ 16) }
{
    let len = u4(cur)?;
    if !is_code_length(len) {
        return Err(ItemFault::Bad(ClassFault::BadLength { at: first }));
    }
    Ok(len)
}

/// The instructions that are so many bytes.
fn read_code_bytes(
    alloc: Global,
    pool: &CheckedPool,
    len: u32,
    cur: &mut Cursor,
) -> Result<Seq<Insn>, ItemFault>
    ensures reads { ReadsPart (insns_at pool.now len) cur.old cur.new result }
    ensures sized { IfOk result (λ insns. code_length insns ≡ len) }
{
    let base = cur.at();
    let bytes = take(cur, len)?;
    Ok(read_insns(alloc, bytes, base, pool)?)
}

#[tactic(auto, unfolding(crate::specs::CodeParts::code_content_at))]
fn read_code_content(
    alloc: Global,
    pool: &CheckedPool,
    file_end: u64,
    first: u64,
    cur: &mut Cursor,
) -> Result<Code, ItemFault>
    ensures { ReadsPart (code_content_at file_end pool.now first) cur.old cur.new result }
{
    let max_stack = u2(cur)?;
    let max_locals = u2(cur)?;
    let len = read_code_length(first, cur)?;
    let insns = read_code_bytes(alloc, pool, len, cur)?;
    let starts = places(alloc, &insns)?;
    let rows = read_rows(alloc, pool, starts.as_slice(), len, cur)?;
    let attrs = read_tables(alloc, pool, starts.as_slice(), file_end, cur)?;
    Ok(Code {
        max_stack,
        max_locals,
        insns,
        rows,
        attrs,
    })
}

/// The content of a Code attribute that begins at `first`, behind its length.
pub fn read_code(
    alloc: Global,
    pool: &CheckedPool,
    file_end: u64,
    first: u64,
    cur: &mut Cursor,
) -> Result<Code, ItemFault>
    ensures { ReadsPart (content file_end first (code_content_at file_end pool.now first))
        cur.old cur.new result }
{
    let len = u4(cur)?;
    let part = opened(cur, len);
    let mut inner = Cursor::new(part.bytes, part.at);
    let code = read_code_content(alloc, pool, file_end, first, &mut inner);
    closed(code, inner.left(), part, file_end, first)
}
