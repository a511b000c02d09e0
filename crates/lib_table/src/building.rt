//! The table's rows are made classes.

ghost use Rattle.std.specs.Prelude.{◌≡◌, ◌++◌, false, List, [], Some, None, map, codes, IfOk, OnOk};
ghost use Rattle.std.specs.List.{flat_map};
ghost use Rattle.lib_table.specs.Frames.{frame_table};
ghost use Rattle.lib_table.specs.Rows.{const_of, insn_of, frame_of, row_code, method_with, method_of, entries_of, field_with, class_with, class_of};

use crate::rows::{ClassRow, CodeRow, ConstRow, FrameRow, InsnRow, MethodRow};
use class_link::{LibBody, LibClass, LibField, LibMethod};
use class_model::names::ascii;
use class_model::{Arg, Attr, Body, Code, Const, Frame, Insn, Memory, Name, Seq, Shape, VItem};
use std::alloc::Global;

fn names(alloc: Global, texts: &[&'static str]) -> Result<Seq<Name>, Memory>
    ensures { IfOk result (λ names. names ≡ map (λ t. t.now) texts.now) }
{
    let mut names = Vec::with_capacity(alloc, texts.len())?;
    for text in texts {
        names.push(ascii(alloc, text)?)?;
    }
    Ok(Seq::from_vec(names))
}

// ---- written methods

fn entry(alloc: Global, row: &ConstRow) -> Result<Const, Memory>
    ensures { IfOk result (λ entry. entry ≡ const_of row.now) }
{
    match row {
        ConstRow::Utf8(text) => Ok(Const::Utf8(ascii(alloc, text)?)),
        ConstRow::Class(index) => Ok(Const::Class(*index)),
        ConstRow::Text(index) => Ok(Const::Text(*index)),
        ConstRow::Pair(name, desc) => Ok(Const::Pair(*name, *desc)),
        ConstRow::Method(class, pair) => Ok(Const::Method(*class, *pair)),
    }
}

fn add_entries(alloc: Global, pool: &mut Vec<Const>, rows: &[ConstRow]) -> Result<(), Memory>
    ensures { OnOk result (pool.new.items ≡ pool.old.items ++ map const_of rows.now) }
{
    for row in rows {
        pool.push(entry(alloc, row)?)?;
    }
    Ok(())
}

fn insn_with(op: u8, arg: Arg) -> Insn
    ensures { result ≡ record { op = op; wide = false; arg = arg } }
{
    Insn {
        op,
        wide: false,
        arg,
    }
}

fn insn(row: &InsnRow) -> Insn
    ensures { result ≡ insn_of row.now }
{
    match row {
        InsnRow::Op(op) => insn_with(*op, Arg::None),
        InsnRow::Jump(op, to) => insn_with(*op, Arg::To(*to)),
        InsnRow::Increment(local, by) => insn_with(0x84, Arg::Inc(*local, *by)),
        InsnRow::Pool(op, index) => insn_with(*op, Arg::Pool(*index)),
    }
}

fn insns(alloc: Global, rows: &[InsnRow]) -> Result<Seq<Insn>, Memory>
    ensures { IfOk result (λ insns. insns ≡ map insn_of rows.now) }
{
    let mut insns = Vec::with_capacity(alloc, rows.len())?;
    for row in rows {
        insns.push(insn(row))?;
    }
    Ok(Seq::from_vec(insns))
}

fn items(alloc: Global, types: &[VItem]) -> Result<Seq<VItem>, Memory>
    ensures { IfOk result (λ items. items ≡ types.now) }
{
    let mut items = Vec::with_capacity(alloc, types.len())?;
    for item in types {
        items.push(*item)?;
    }
    Ok(Seq::from_vec(items))
}

fn frame(alloc: Global, row: &FrameRow) -> Result<Frame, Memory>
    ensures { IfOk result (λ frame. frame ≡ frame_of row.now) }
{
    match row {
        FrameRow::Same(at) => Ok(Frame {
            at: *at,
            shape: Shape::Same(false),
        }),
        FrameRow::More(at, types) => {
            let more = items(alloc, types)?;
            Ok(Frame {
                at: *at,
                shape: Shape::Append(more),
            })
        }
    }
}

fn frames(alloc: Global, rows: &[FrameRow]) -> Result<Seq<Frame>, Memory>
    ensures { IfOk result (λ frames. frames ≡ map frame_of rows.now) }
{
    let mut frames = Vec::with_capacity(alloc, rows.len())?;
    for row in rows {
        frames.push(frame(alloc, row)?)?;
    }
    Ok(Seq::from_vec(frames))
}

// The one attribute of the code.
fn frame_table(alloc: Global, name: u16, rows: &[FrameRow]) -> Result<Seq<Attr>, Memory>
    ensures { IfOk result (λ attrs. attrs ≡ frame_table name (map frame_of rows.now)) }
{
    let frames = frames(alloc, rows)?;
    let mut attrs = Vec::with_capacity(alloc, 1)?;
    attrs.push(Attr {
        name,
        body: Body::Frames(frames),
    })?;
    Ok(Seq::from_vec(attrs))
}

fn code(alloc: Global, row: &CodeRow) -> Result<Code, Memory>
    ensures { IfOk result (λ code. code ≡ row_code row.now) }
{
    let insns = insns(alloc, row.insns)?;
    let attrs = frame_table(alloc, row.table, row.frames)?;
    Ok(Code {
        max_stack: 5,
        max_locals: 4,
        insns,
        rows: Seq::new(alloc),
        attrs,
    })
}

// ---- methods and fields

fn method_with(
    alloc: Global,
    flags: u16,
    text: &str,
    desc: &str,
    body: LibBody,
) -> Result<LibMethod, Memory>
    ensures { IfOk result (λ m. m ≡ method_with flags text.now desc.now body) }
{
    let named = ascii(alloc, text)?;
    let desc = ascii(alloc, desc)?;
    Ok(LibMethod {
        name: named,
        desc,
        flags,
        body,
    })
}

fn method(alloc: Global, row: &MethodRow) -> Result<LibMethod, Memory>
    ensures { IfOk result (λ m. m ≡ method_of row.now) }
{
    match row {
        MethodRow::Native(number, name, desc) => Ok(method_with(
            alloc,
            257,
            name,
            desc,
            LibBody::Native(*number),
        )?),
        MethodRow::StaticNative(number, name, desc) => Ok(method_with(
            alloc,
            265,
            name,
            desc,
            LibBody::Native(*number),
        )?),
        MethodRow::Abstract(name, desc) => {
            Ok(method_with(alloc, 1025, name, desc, LibBody::Abstract)?)
        }
        MethodRow::Written(name, desc, row) => {
            let code = code(alloc, row)?;
            Ok(method_with(alloc, 1, name, desc, LibBody::Written(code))?)
        }
        MethodRow::StaticWritten(name, desc, row) => {
            let code = code(alloc, row)?;
            Ok(method_with(alloc, 9, name, desc, LibBody::Written(code))?)
        }
    }
}

fn methods(alloc: Global, rows: &[MethodRow]) -> Result<Seq<LibMethod>, Memory>
    ensures { IfOk result (λ ms. ms ≡ map method_of rows.now) }
{
    let mut methods = Vec::with_capacity(alloc, rows.len())?;
    for row in rows {
        methods.push(method(alloc, row)?)?;
    }
    Ok(Seq::from_vec(methods))
}

fn add_entries_of(alloc: Global, pool: &mut Vec<Const>, row: &MethodRow) -> Result<(), Memory>
    ensures { OnOk result (pool.new.items ≡ pool.old.items ++ entries_of row.now) }
{
    match row {
        MethodRow::Written(_, _, code) => add_entries(alloc, pool, code.pool),
        MethodRow::StaticWritten(_, _, code) => add_entries(alloc, pool, code.pool),
        _ => Ok(()),
    }
}

// The constant pool of a class with these methods.
fn pool(alloc: Global, rows: &[MethodRow]) -> Result<Seq<Const>, Memory>
    ensures { IfOk result (λ pool. pool ≡ flat_map entries_of rows.now) }
{
    let mut pool = Vec::new(alloc);
    for row in rows {
        add_entries_of(alloc, &mut pool, row)?;
    }
    Ok(Seq::from_vec(pool))
}

fn fields(alloc: Global, rows: &[(&'static str, &'static str)]) -> Result<Seq<LibField>, Memory>
    ensures { IfOk result (λ fs. fs ≡ map (λ f. field_with f.0.now f.1.now) rows.now) }
{
    let mut fields = Vec::with_capacity(alloc, rows.len())?;
    for row in rows {
        let named = ascii(alloc, row.0)?;
        let desc = ascii(alloc, row.1)?;
        fields.push(LibField {
            name: named,
            desc,
            flags: 2,
        })?;
    }
    Ok(Seq::from_vec(fields))
}

// ---- classes

fn class_with(
    alloc: Global,
    flags: u16,
    text: &str,
    parent: &str,
    interfaces: Seq<Name>,
    rows: &[MethodRow],
) -> Result<LibClass, Memory>
    ensures { IfOk result (λ c.
        c ≡ class_with flags text.now (Some parent.now) interfaces [] rows.now) }
{
    let named = ascii(alloc, text)?;
    let parent = ascii(alloc, parent)?;
    let pool = pool(alloc, rows)?;
    let methods = methods(alloc, rows)?;
    Ok(LibClass {
        name: named,
        parent: Some(parent),
        interfaces,
        flags,
        pool,
        fields: Seq::new(alloc),
        methods,
    })
}

fn root(alloc: Global, text: &str, rows: &[MethodRow]) -> Result<LibClass, Memory>
    ensures { IfOk result (λ c. c ≡ class_with 33 text.now None [] [] rows.now) }
{
    let named = ascii(alloc, text)?;
    let pool = pool(alloc, rows)?;
    let methods = methods(alloc, rows)?;
    Ok(LibClass {
        name: named,
        parent: None,
        interfaces: Seq::new(alloc),
        flags: 33,
        pool,
        fields: Seq::new(alloc),
        methods,
    })
}

fn with_fields(
    alloc: Global,
    text: &str,
    parent: &str,
    fields: Seq<LibField>,
    rows: &[MethodRow],
) -> Result<LibClass, Memory>
    ensures { IfOk result (λ c. c ≡ class_with 33 text.now (Some parent.now) [] fields rows.now) }
{
    let named = ascii(alloc, text)?;
    let parent = ascii(alloc, parent)?;
    let pool = pool(alloc, rows)?;
    let methods = methods(alloc, rows)?;
    Ok(LibClass {
        name: named,
        parent: Some(parent),
        interfaces: Seq::new(alloc),
        flags: 33,
        pool,
        fields,
        methods,
    })
}

fn class(alloc: Global, row: &ClassRow) -> Result<LibClass, Memory>
    ensures { IfOk result (λ c. c ≡ class_of row.now) }
{
    match row {
        ClassRow::Class(name, parent, interfaces, rows) => {
            let interfaces = names(alloc, interfaces)?;
            Ok(class_with(alloc, 33, name, parent, interfaces, rows)?)
        }
        ClassRow::FinalClass(name, parent, interfaces, rows) => {
            let interfaces = names(alloc, interfaces)?;
            Ok(class_with(alloc, 49, name, parent, interfaces, rows)?)
        }
        ClassRow::AbstractClass(name, parent, interfaces, rows) => {
            let interfaces = names(alloc, interfaces)?;
            Ok(class_with(alloc, 1057, name, parent, interfaces, rows)?)
        }
        ClassRow::Interface(name, interfaces, rows) => {
            let interfaces = names(alloc, interfaces)?;
            Ok(class_with(alloc, 1537, name, "java/lang/Object", interfaces, rows)?)
        }
        ClassRow::Root(name, rows) => Ok(root(alloc, name, rows)?),
        ClassRow::WithFields(name, parent, field_rows, rows) => {
            let fields = fields(alloc, field_rows)?;
            Ok(with_fields(alloc, name, parent, fields, rows)?)
        }
    }
}

/// The classes of these rows.
pub fn classes_of(alloc: Global, rows: &[ClassRow]) -> Result<Seq<LibClass>, Memory>
    ensures { IfOk result (λ cs. cs ≡ map class_of rows.now) }
{
    let mut classes = Vec::with_capacity(alloc, rows.len())?;
    for row in rows {
        classes.push(class(alloc, row)?)?;
    }
    Ok(Seq::from_vec(classes))
}
