//! StackMapTable (JVMS 4.7.4).

ghost use Rattle.std.specs.Prelude.{◌≤◌, ◌<◌, ◌^◌};
ghost use Rattle.mt_insn.specs.Order.{Ascends, AreNear};
ghost use Rattle.codec_rules.specs.Reading.{many_at};
ghost use Rattle.mt_attrs.specs.Item.{ReadsPart, counted_at, many_by};
ghost use Rattle.mt_attrs.specs.Frames.{tagged_at, vitem_at, full_at, shape_at, far_at, same_at, one_at, kind_at, frame_at, next_behind, frames_at};

use crate::fault::ItemFault;
use crate::item::{u1, u2};
use crate::named::read_class;
use crate::place::{behind_start, number_of, read_delta, read_place};
use class_model::{CheckedPool, ClassFault, Frame, Seq, Shape, VItem};
use mt_bytes::Cursor;
use std::alloc::Global;

// ---- verification types

/// What stands behind a tag at a place, in a frame that begins at `first`.
fn read_tagged(
    pool: &CheckedPool,
    starts: &[u32],
    first: u64,
    at: u64,
    tag: u8,
    cur: &mut Cursor,
) -> Result<VItem, ItemFault>
    requires { Ascends starts.now }
    ensures { ReadsPart (tagged_at pool.now starts.now first at tag) cur.old cur.new result }
{
    match tag {
        0 => Ok(VItem::Top),
        1 => Ok(VItem::Integer),
        2 | 3 => Err(ItemFault::Bad(ClassFault::FloatUsed { at })),
        4 => Ok(VItem::Long),
        5 => Ok(VItem::Null),
        6 => Ok(VItem::UninitializedThis),
        7 => {
            let index = read_class(pool, cur)?;
            Ok(VItem::Object(index))
        }
        8 => {
            let number = read_place(first, starts, cur)?;
            Ok(VItem::Uninitialized(number))
        }
        _ => Err(ItemFault::Bad(ClassFault::BadTag { at, tag })),
    }
}

#[tactic(auto, unfolding(crate::specs::Frames::vitem_at))]
fn read_vitem(
    pool: &CheckedPool,
    starts: &[u32],
    first: u64,
    cur: &mut Cursor,
) -> Result<VItem, ItemFault>
    requires { Ascends starts.now }
    ensures { ReadsPart (vitem_at pool.now starts.now first) cur.old cur.new result }
{
    let at = cur.at();
    let tag = u1(cur)?;
    read_tagged(pool, starts, first, at, tag, cur)
}

fn read_vitems(
    alloc: Global,
    pool: &CheckedPool,
    starts: &[u32],
    first: u64,
    count: u16,
    cur: &mut Cursor,
) -> Result<Seq<VItem>, ItemFault>
    requires { Ascends starts.now }
    ensures { ReadsPart (many_at (vitem_at pool.now starts.now first) count)
        cur.old cur.new result }
{
    let mut items = Seq::new(alloc);
    for _ in 0..count {
        let item = read_vitem(pool, starts, first, cur)?;
        items.push(item)?;
    }
    Ok(items)
}

fn read_counted_vitems(
    alloc: Global,
    pool: &CheckedPool,
    starts: &[u32],
    first: u64,
    cur: &mut Cursor,
) -> Result<Seq<VItem>, ItemFault>
    requires { Ascends starts.now }
    ensures { ReadsPart (counted_at (vitem_at pool.now starts.now first)) cur.old cur.new result }
{
    let count = u2(cur)?;
    read_vitems(alloc, pool, starts, first, count, cur)
}

// ---- frames

#[tactic(auto, unfolding(crate::specs::Frames::full_at))]
fn read_full(
    alloc: Global,
    pool: &CheckedPool,
    starts: &[u32],
    first: u64,
    cur: &mut Cursor,
) -> Result<Shape, ItemFault>
    requires { Ascends starts.now }
    ensures { ReadsPart (full_at pool.now starts.now first) cur.old cur.new result }
{
    let locals = read_counted_vitems(alloc, pool, starts, first, cur)?;
    let stack = read_counted_vitems(alloc, pool, starts, first, cur)?;
    Ok(Shape::Full(locals, stack))
}

/// What stands behind the place of a frame of the types 247 to 255.
fn read_shape(
    alloc: Global,
    pool: &CheckedPool,
    starts: &[u32],
    first: u64,
    kind: u8,
    cur: &mut Cursor,
) -> Result<Shape, ItemFault>
    requires ascends { Ascends starts.now }
    requires far { 247 ≤ kind }
    ensures { ReadsPart (shape_at pool.now starts.now first kind) cur.old cur.new result }
{
    if kind == 247 {
        let item = read_vitem(pool, starts, first, cur)?;
        Ok(Shape::One(true, item))
    } else if kind < 251 {
        Ok(Shape::Chop(251 - kind))
    } else if kind == 251 {
        Ok(Shape::Same(true))
    } else if kind < 255 {
        let items = read_vitems(alloc, pool, starts, first, u16::from(kind - 251), cur)?;
        Ok(Shape::Append(items))
    } else {
        read_full(alloc, pool, starts, first, cur)
    }
}

#[tactic(auto, unfolding(crate::specs::Frames::far_at))]
fn read_far(
    alloc: Global,
    pool: &CheckedPool,
    starts: &[u32],
    next: u32,
    first: u64,
    kind: u8,
    cur: &mut Cursor,
) -> Result<Frame, ItemFault>
    requires ascends { Ascends starts.now }
    requires near { next ≤ 2 ^ 16 }
    requires far { 247 ≤ kind }
    ensures { ReadsPart (far_at pool.now starts.now next first kind) cur.old cur.new result }
{
    let at = read_delta(first, starts, next, cur)?;
    let shape = read_shape(alloc, pool, starts, first, kind, cur)?;
    Ok(Frame { at, shape })
}

#[tactic(auto, unfolding(crate::specs::Frames::same_at))]
fn same_frame(
    starts: &[u32],
    next: u32,
    first: u64,
    delta: u8,
    cur: &mut Cursor,
) -> Result<Frame, ItemFault>
    requires ascends { Ascends starts.now }
    requires near { next ≤ 2 ^ 16 }
    ensures { ReadsPart (same_at starts.now next first delta) cur.old cur.new result }
{
    let Some(at) = number_of(starts, next + u32::from(delta)) else {
        return Err(ItemFault::Bad(ClassFault::BadTarget { at: first }));
    };
    Ok(Frame {
        at,
        shape: Shape::Same(false),
    })
}

#[tactic(auto, unfolding(crate::specs::Frames::one_at))]
fn read_one(
    pool: &CheckedPool,
    starts: &[u32],
    next: u32,
    first: u64,
    delta: u8,
    cur: &mut Cursor,
) -> Result<Frame, ItemFault>
    requires ascends { Ascends starts.now }
    requires near { next ≤ 2 ^ 16 }
    ensures { ReadsPart (one_at pool.now starts.now next first delta) cur.old cur.new result }
{
    let Some(at) = number_of(starts, next + u32::from(delta)) else {
        return Err(ItemFault::Bad(ClassFault::BadTarget { at: first }));
    };
    let item = read_vitem(pool, starts, first, cur)?;
    Ok(Frame {
        at,
        shape: Shape::One(false, item),
    })
}

/// What stands behind the type of a frame that begins at `first`.
fn read_kind(
    alloc: Global,
    pool: &CheckedPool,
    starts: &[u32],
    next: u32,
    first: u64,
    kind: u8,
    cur: &mut Cursor,
) -> Result<Frame, ItemFault>
    requires ascends { Ascends starts.now }
    requires near { next ≤ 2 ^ 16 }
    ensures { ReadsPart (kind_at pool.now starts.now next first kind) cur.old cur.new result }
{
    if kind < 64 {
        same_frame(starts, next, first, kind, cur)
    } else if kind < 128 {
        read_one(pool, starts, next, first, kind - 64, cur)
    } else if kind < 247 {
        Err(ItemFault::Bad(ClassFault::BadTag {
            at: first,
            tag: kind,
        }))
    } else {
        read_far(alloc, pool, starts, next, first, kind, cur)
    }
}

/// A frame. `next` is 0 for the first one, and else one behind the place of the frame before it.
#[tactic(auto, unfolding(crate::specs::Frames::frame_at))]
fn read_frame(
    alloc: Global,
    pool: &CheckedPool,
    starts: &[u32],
    next: u32,
    cur: &mut Cursor,
) -> Result<Frame, ItemFault>
    requires ascends { Ascends starts.now }
    requires near { next ≤ 2 ^ 16 }
    ensures { ReadsPart (frame_at pool.now starts.now next) cur.old cur.new result }
{
    let first = cur.at();
    let kind = u1(cur)?;
    read_kind(alloc, pool, starts, next, first, kind, cur)
}

fn read_counted_frames(
    alloc: Global,
    pool: &CheckedPool,
    starts: &[u32],
    count: u16,
    cur: &mut Cursor,
) -> Result<Seq<Frame>, ItemFault>
    requires ascends { Ascends starts.now }
    requires near { AreNear starts.now }
    ensures { ReadsPart (many_by (frame_at pool.now starts.now) (next_behind starts.now) 0 count)
        cur.old cur.new result }
{
    let mut frames = Seq::new(alloc);
    let mut next = 0;
    for _ in 0..count {
        let frame = read_frame(alloc, pool, starts, next, cur)?;
        next = behind_start(starts, frame.at);
        frames.push(frame)?;
    }
    Ok(frames)
}

/// The frames of a code.
pub fn read_frames(
    alloc: Global,
    pool: &CheckedPool,
    starts: &[u32],
    cur: &mut Cursor,
) -> Result<Seq<Frame>, ItemFault>
    requires ascends { Ascends starts.now }
    requires near { AreNear starts.now }
    ensures { ReadsPart (frames_at pool.now starts.now) cur.old cur.new result }
{
    let count = u2(cur)?;
    read_counted_frames(alloc, pool, starts, count, cur)
}
