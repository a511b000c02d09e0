//! Writing the tables of a code: its exception rows, its lines and its frames.

ghost use Rattle.std.specs.Prelude.{◌≡◌, ◌++◌, ◌<◌, ◌≤◌, ◌^◌, length, All, OnOk};
ghost use Rattle.std.specs.List.{flat_map};
ghost use Rattle.mt_insn.specs.Order.{AreNear};
ghost use Rattle.mt_attrs.specs.Item.{counted, spelled_by, AllBy};
ghost use Rattle.mt_attrs.specs.Lines.{line_bytes, lines_bytes};
ghost use Rattle.mt_attrs.specs.Rows.{row_bytes};
ghost use Rattle.mt_attrs.specs.Places.{IsBehind, start_of};
ghost use Rattle.mt_attrs.specs.Frames.{vitem_tag, tagged_bytes, vitem_bytes, kind_of, delta_bytes, shape_bytes, delta_of, frame_bytes, frames_bytes, next_behind, room_of};
ghost use Rattle.mt_attrs.specs.Layout.{Writes, count_bound, list_bound, first_of, shape_bound, frame_bound, HasLineForm, HasRowForm, HasVItemForm, HasShapeForm, HasFrameForm, HasSize};

use crate::place::behind_start;
use crate::put::{put_bound, put_start, write_count};
use class_model::{Bytes, Frame, LayoutFault, Memory, Row, Seq, Shape, VItem};
use mt_bytes::{put_u1, put_u2};

// ---- rows

fn write_row(starts: &[u32], end: u32, row: &Row, out: &mut Bytes) -> Result<(), Memory>
    requires form { HasRowForm starts.now row.now }
    requires near { AreNear starts.now }
    requires short { end < 2 ^ 16 }
    ensures { OnOk result (out.new ≡ out.old ++ row_bytes starts.now end row.now) }
{
    put_start(starts, row.start, out)?;
    put_bound(starts, end, row.end, out)?;
    put_start(starts, row.handler, out)?;
    put_u2(out, row.catch)
}

fn write_each_row(starts: &[u32], end: u32, rows: &[Row], out: &mut Bytes) -> Result<(), Memory>
    requires forms { All (HasRowForm starts.now) rows.now }
    requires near { AreNear starts.now }
    requires short { end < 2 ^ 16 }
    ensures { OnOk result (out.new ≡ out.old ++ flat_map (row_bytes starts.now end) rows.now) }
{
    for row in rows {
        write_row(starts, end, row, out)?;
    }
    Ok(())
}

/// The rows of a code that ends at `end`.
pub fn write_rows(
    starts: &[u32],
    end: u32,
    rows: &[Row],
    out: &mut Bytes,
) -> Result<(), LayoutFault>
    requires forms { All (HasRowForm starts.now) rows.now }
    requires near { AreNear starts.now }
    requires short { end < 2 ^ 16 }
    ensures { Writes (count_bound (length rows.now)) (counted (row_bytes starts.now end) rows.now)
        out.old out.new result }
{
    write_count(rows.len(), out)?;
    write_each_row(starts, end, rows, out)?;
    Ok(())
}

// ---- lines

fn write_line(starts: &[u32], line: &(u32, u16), out: &mut Bytes) -> Result<(), Memory>
    requires form { HasLineForm starts.now line.now }
    requires near { AreNear starts.now }
    ensures { OnOk result (out.new ≡ out.old ++ line_bytes starts.now line.now) }
{
    put_start(starts, line.0, out)?;
    put_u2(out, line.1)
}

fn write_each_line(starts: &[u32], lines: &[(u32, u16)], out: &mut Bytes) -> Result<(), Memory>
    requires forms { All (HasLineForm starts.now) lines.now }
    requires near { AreNear starts.now }
    ensures { OnOk result (out.new ≡ out.old ++ flat_map (line_bytes starts.now) lines.now) }
{
    for line in lines {
        write_line(starts, line, out)?;
    }
    Ok(())
}

/// The rows of a line table.
pub fn write_lines(starts: &[u32], lines: &[(u32, u16)], out: &mut Bytes) -> Result<(), LayoutFault>
    requires forms { All (HasLineForm starts.now) lines.now }
    requires near { AreNear starts.now }
    ensures { Writes (count_bound (length lines.now)) (lines_bytes starts.now lines.now)
        out.old out.new result }
{
    write_count(lines.len(), out)?;
    write_each_line(starts, lines, out)?;
    Ok(())
}

// ---- verification types

fn vitem_tag(item: &VItem) -> u8
    ensures { result ≡ vitem_tag item.now }
{
    match item {
        VItem::Top => 0,
        VItem::Integer => 1,
        VItem::Long => 4,
        VItem::Null => 5,
        VItem::UninitializedThis => 6,
        VItem::Object(_) => 7,
        VItem::Uninitialized(_) => 8,
    }
}

fn write_tagged(starts: &[u32], item: &VItem, out: &mut Bytes) -> Result<(), Memory>
    requires form { HasVItemForm starts.now item.now }
    requires near { AreNear starts.now }
    ensures { OnOk result (out.new ≡ out.old ++ tagged_bytes starts.now item.now) }
{
    match item {
        VItem::Object(index) => put_u2(out, *index),
        VItem::Uninitialized(number) => put_start(starts, *number, out),
        _ => Ok(()),
    }
}

fn write_vitem(starts: &[u32], item: &VItem, out: &mut Bytes) -> Result<(), Memory>
    requires form { HasVItemForm starts.now item.now }
    requires near { AreNear starts.now }
    ensures { OnOk result (out.new ≡ out.old ++ vitem_bytes starts.now item.now) }
{
    put_u1(out, vitem_tag(item))?;
    write_tagged(starts, item, out)
}

fn write_vitems(starts: &[u32], items: &[VItem], out: &mut Bytes) -> Result<(), Memory>
    requires forms { All (HasVItemForm starts.now) items.now }
    requires near { AreNear starts.now }
    ensures { OnOk result (out.new ≡ out.old ++ flat_map (vitem_bytes starts.now) items.now) }
{
    for item in items {
        write_vitem(starts, item, out)?;
    }
    Ok(())
}

fn write_counted_vitems(starts: &[u32], items: &[VItem], out: &mut Bytes) -> Result<(), LayoutFault>
    requires forms { All (HasVItemForm starts.now) items.now }
    requires near { AreNear starts.now }
    ensures { Writes (count_bound (length items.now)) (counted (vitem_bytes starts.now) items.now)
        out.old out.new result }
{
    write_count(items.len(), out)?;
    write_vitems(starts, items, out)?;
    Ok(())
}

// ---- frames

/// The type of a frame that is so far behind.
fn kind_of(delta: u16, shape: &Shape) -> u8
    requires form { HasSize shape.now }
    requires room { delta < room_of shape.now }
    ensures { result ≡ kind_of delta shape.now }
{
    match shape {
        Shape::Same(false) => delta as u8,
        Shape::Same(true) => 251,
        Shape::One(false, _) => 64 + delta as u8,
        Shape::One(true, _) => 247,
        Shape::Chop(count) => 251 - *count,
        Shape::Append(items) => 251 + items.len() as u8,
        Shape::Full(_, _) => 255,
    }
}

/// How far a frame is behind, where its type doesn't tell it.
fn write_delta(delta: u16, shape: &Shape, out: &mut Bytes) -> Result<(), Memory>
    ensures { OnOk result (out.new ≡ out.old ++ delta_bytes delta shape.now) }
{
    match shape {
        Shape::Same(false) | Shape::One(false, _) => Ok(()),
        _ => put_u2(out, delta),
    }
}

fn write_shape(starts: &[u32], shape: &Shape, out: &mut Bytes) -> Result<(), LayoutFault>
    requires form { HasShapeForm starts.now shape.now }
    requires near { AreNear starts.now }
    ensures { Writes (shape_bound shape.now) (shape_bytes starts.now shape.now)
        out.old out.new result }
{
    match shape {
        Shape::Same(_) | Shape::Chop(_) => Ok(()),
        Shape::One(_, item) => {
            write_vitem(starts, item, out)?;
            Ok(())
        }
        Shape::Append(items) => {
            write_vitems(starts, items.as_slice(), out)?;
            Ok(())
        }
        Shape::Full(locals, stack) => {
            write_counted_vitems(starts, locals.as_slice(), out)?;
            write_counted_vitems(starts, stack.as_slice(), out)
        }
    }
}

/// How far a frame is behind the place `next`.
fn delta_of(starts: &[u32], next: u32, frame: &Frame) -> u16
    requires form { HasFrameForm starts.now next frame.now }
    ensures is { result ≡ delta_of starts.now next frame.now }
    ensures room { result < room_of frame.now.shape }
{
    (starts[frame.at as usize] - next) as u16
}

/// A frame. `next` is 0 for the first one, and else one behind the place of the frame before it.
fn write_frame(starts: &[u32], next: u32, frame: &Frame, out: &mut Bytes) -> Result<(), LayoutFault>
    requires form { HasFrameForm starts.now next frame.now }
    requires near { AreNear starts.now }
    ensures { Writes (frame_bound frame.now) (frame_bytes starts.now next frame.now)
        out.old out.new result }
{
    let delta = delta_of(starts, next, frame);
    put_u1(out, kind_of(delta, &frame.shape))?;
    write_delta(delta, &frame.shape, out)?;
    write_shape(starts, &frame.shape, out)
}

fn write_each_frame(starts: &[u32], frames: &[Frame], out: &mut Bytes) -> Result<(), LayoutFault>
    requires forms { AllBy (HasFrameForm starts.now) (next_behind starts.now) 0 frames.now }
    requires near { AreNear starts.now }
    ensures { Writes (first_of frame_bound frames.now)
        (spelled_by (frame_bytes starts.now) (next_behind starts.now) 0 frames.now)
        out.old out.new result }
{
    let mut next = 0;
    for frame in frames {
        write_frame(starts, next, frame, out)?;
        next = behind_start(starts, frame.at);
    }
    Ok(())
}

/// The frames of a code.
pub fn write_frames(starts: &[u32], frames: &[Frame], out: &mut Bytes) -> Result<(), LayoutFault>
    requires forms { AllBy (HasFrameForm starts.now) (next_behind starts.now) 0 frames.now }
    requires near { AreNear starts.now }
    ensures { Writes (list_bound frame_bound frames.now) (frames_bytes starts.now frames.now)
        out.old out.new result }
{
    write_count(frames.len(), out)?;
    write_each_frame(starts, frames, out)
}
