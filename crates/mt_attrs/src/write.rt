//! Writing attributes.

ghost use Rattle.std.specs.Prelude.{◌≡◌, ◌++◌, ◌<◌, ◌^◌, length, All, OnOk};
ghost use Rattle.std.specs.List.{flat_map};
ghost use Rattle.class_model.specs.declared.attribute.Code.{out-Code};
ghost use Rattle.class_model.specs.declared.attribute.Body.{out-Body};
ghost use Rattle.mt_insn.specs.Order.{AreNear};
ghost use Rattle.mt_insn.specs.Code.{HasForm, HasTargets, code};
ghost use Rattle.mt_attrs.specs.Item.{counted};
ghost use Rattle.mt_attrs.specs.CodeParts.{body_of, table_content, table_bytes, parts_bytes};
ghost use Rattle.mt_attrs.specs.Attributes.{body_content, attr_bytes, attrs_bytes};
ghost use Rattle.mt_attrs.specs.Layout.{Writes, list_bound, first_of, insns_bound, table_bound, inner_bound, parts_bound, body_bound, attr_bound, attrs_bound, HasTableForm, HasCodeForm, HasBodyForm, HasAttrForm};

use crate::put::{write_content, write_count};
use crate::write_notes::write_notes;
use crate::write_tables::{write_frames, write_lines, write_rows};
use class_model::{Attr, Body, Bytes, Code, LayoutFault};
use mt_bytes::{put_u2, put_u4};
use mt_insn::{places, write_insns};

// ---- the attributes inside Code

/// The content of an attribute inside Code.
fn write_table_body(starts: &[u32], body: &Body, out: &mut Bytes) -> Result<(), LayoutFault>
    requires form { HasTableForm starts.now (out-Body body.now) }
    requires near { AreNear starts.now }
    ensures { Writes (table_bound (out-Body body.now))
        (table_content starts.now (out-Body body.now)) out.old out.new result }
{
    match body {
        Body::Lines(lines) => write_lines(starts, lines.as_slice(), out),
        Body::Frames(frames) => write_frames(starts, frames.as_slice(), out),
        Body::Raw(bytes) => {
            out.extend_from_slice(bytes.as_slice())?;
            Ok(())
        }
        _ => Ok(()),
    }
}

fn write_table(starts: &[u32], attr: &Attr, out: &mut Bytes) -> Result<(), LayoutFault>
    requires form { HasTableForm starts.now (body_of attr.now) }
    requires near { AreNear starts.now }
    ensures { Writes (inner_bound starts.now attr.now) (table_bytes starts.now attr.now)
        out.old out.new result }
{
    put_u2(out, attr.name)?;
    let mut content = out.empty();
    write_table_body(starts, &attr.body, &mut content)?;
    write_content(&content, out)
}

fn write_each_table(starts: &[u32], attrs: &[Attr], out: &mut Bytes) -> Result<(), LayoutFault>
    requires forms { All (λ attr. HasTableForm starts.now (body_of attr)) attrs.now }
    requires near { AreNear starts.now }
    ensures { Writes (first_of (inner_bound starts.now) attrs.now)
        (flat_map (table_bytes starts.now) attrs.now) out.old out.new result }
{
    for attr in attrs {
        write_table(starts, attr, out)?;
    }
    Ok(())
}

fn write_tables(starts: &[u32], attrs: &[Attr], out: &mut Bytes) -> Result<(), LayoutFault>
    requires forms { All (λ attr. HasTableForm starts.now (body_of attr)) attrs.now }
    requires near { AreNear starts.now }
    ensures { Writes (list_bound (inner_bound starts.now) attrs.now)
        (counted (table_bytes starts.now) attrs.now) out.old out.new result }
{
    write_count(attrs.len(), out)?;
    write_each_table(starts, attrs, out)
}

// ---- Code

/// The content of a Code attribute.
fn write_code(code: &Code, out: &mut Bytes) -> Result<(), LayoutFault>
    requires { HasCodeForm (out-Code code.now) }
    ensures { Writes (parts_bound (out-Code code.now)) (parts_bytes (out-Code code.now))
        out.old out.new result }
{
    put_u2(out, code.max_stack)?;
    put_u2(out, code.max_locals)?;
    let mut bytes = out.empty();
    write_insns(&code.insns, &mut bytes)?;
    let end = bytes.len() as u32;
    put_u4(out, end)?;
    out.extend_from_slice(bytes.as_slice())?;
    let starts = places(out.allocator(), &code.insns)?;
    write_rows(starts.as_slice(), end, code.rows.as_slice(), out)?;
    write_tables(starts.as_slice(), code.attrs.as_slice(), out)
}

// ---- attributes

/// The content of an attribute of a class, a field or a method.
fn write_body(body: &Body, out: &mut Bytes) -> Result<(), LayoutFault>
    requires { HasBodyForm (out-Body body.now) }
    ensures { Writes (body_bound (out-Body body.now)) (body_content (out-Body body.now))
        out.old out.new result }
{
    match body {
        Body::Code(code) => write_code(code, out),
        Body::Source(index) | Body::Value(index) => {
            put_u2(out, *index)?;
            Ok(())
        }
        Body::Notes(notes) => write_notes(notes.as_slice(), out),
        Body::Raw(bytes) => {
            out.extend_from_slice(bytes.as_slice())?;
            Ok(())
        }
        Body::Lines(_) | Body::Frames(_) => Ok(()),
    }
}

fn write_attr(attr: &Attr, out: &mut Bytes) -> Result<(), LayoutFault>
    requires { HasAttrForm attr.now }
    ensures { Writes (attr_bound attr.now) (attr_bytes attr.now) out.old out.new result }
{
    put_u2(out, attr.name)?;
    if let Body::Raw(content) = &attr.body {
        return write_content(content, out);
    }
    let mut content = out.empty();
    write_body(&attr.body, &mut content)?;
    write_content(&content, out)
}

fn write_each_attr(attrs: &[Attr], out: &mut Bytes) -> Result<(), LayoutFault>
    requires { All HasAttrForm attrs.now }
    ensures { Writes (first_of attr_bound attrs.now) (flat_map attr_bytes attrs.now)
        out.old out.new result }
{
    for attr in attrs {
        write_attr(attr, out)?;
    }
    Ok(())
}

/// The attributes, behind their count.
pub fn write_all(attrs: &[Attr], out: &mut Bytes) -> Result<(), LayoutFault>
    requires { All HasAttrForm attrs.now }
    ensures { Writes (attrs_bound attrs.now) (attrs_bytes attrs.now) out.old out.new result }
{
    write_count(attrs.len(), out)?;
    write_each_attr(attrs, out)
}
