//! Stated frames with names in place of pool indices (JVMS 4.7.4).

ghost use Rattle.std.specs.Prelude.{◌≡◌, map, IfOk, OnOk};
ghost use Rattle.class_link.specs.Framed.{Adds, frames_by, frames_at, frames_in};
ghost use Rattle.class_link.specs.Linking.{vtype_in, shape_in};
ghost use Rattle.class_link.specs.View.{vtype_of, shape_of, frame_of};

use crate::named_classes::NamedClasses;
use crate::shared::Shared;
use class_model::{Attr, Body, Frame, Memory, Name, Seq, Shape, VItem};
use std::alloc::Global;

/// A verification type (JVMS 4.7.4, 4.10.1.2). Booleans, bytes, chars and shorts are ints. An
/// array's name is its descriptor.
#[derive(Drop)]
pub enum VType {
    Top,
    IntType,
    LongType,
    NullType,
    /// `this` before another `<init>` was called on it.
    UninitThis,
    /// What the `new` at this instruction gave, before its `<init>` was called.
    Uninit(u32),
    Obj(Shared<Name>),
}

/// How a frame differs from the one before it; of the stack the first item is the lowest one.
#[derive(Drop)]
pub enum FrameShape {
    SameLocals,
    OneItem(VType),
    Chopped(u8),
    Appended(Seq<VType>),
    Whole(Seq<VType>, Seq<VType>),
}

/// A frame with the instruction that it is stated for.
#[derive(Drop)]
pub struct StatedFrame {
    pub at: u32,
    pub shape: FrameShape,
}

fn link_item(classes: &NamedClasses, item: VItem) -> Result<VType, Memory>
    ensures { IfOk result (λ t. vtype_of t ≡ vtype_in classes.now item) }
{
    match item {
        VItem::Top => Ok(VType::Top),
        VItem::Integer => Ok(VType::IntType),
        VItem::Long => Ok(VType::LongType),
        VItem::Null => Ok(VType::NullType),
        VItem::UninitializedThis => Ok(VType::UninitThis),
        VItem::Object(index) => Ok(VType::Obj(classes.class(index)?)),
        VItem::Uninitialized(at) => Ok(VType::Uninit(at)),
    }
}

fn link_items(alloc: Global, classes: &NamedClasses, items: &[VItem]) -> Result<Seq<VType>, Memory>
    ensures { IfOk result (λ ts. map vtype_of ts ≡ map (vtype_in classes.now) items.now) }
{
    let mut linked = Vec::with_capacity(alloc, items.len())?;
    for item in items {
        linked.push(link_item(classes, *item)?)?;
    }
    Ok(Seq::from_vec(linked))
}

fn link_shape(alloc: Global, classes: &NamedClasses, shape: &Shape) -> Result<FrameShape, Memory>
    ensures { IfOk result (λ s. shape_of s ≡ shape_in classes.now shape.now) }
{
    match shape {
        Shape::Same(_) => Ok(FrameShape::SameLocals),
        Shape::One(_, item) => Ok(FrameShape::OneItem(link_item(classes, *item)?)),
        Shape::Chop(count) => Ok(FrameShape::Chopped(*count)),
        Shape::Append(items) => Ok(FrameShape::Appended(link_items(
            alloc,
            classes,
            items.as_slice(),
        )?)),
        Shape::Full(locals, stack) => {
            let locals = link_items(alloc, classes, locals.as_slice())?;
            let stack = link_items(alloc, classes, stack.as_slice())?;
            Ok(FrameShape::Whole(locals, stack))
        }
    }
}

// Adds what these frames of a class file mean.
fn add_all(
    alloc: Global,
    classes: &NamedClasses,
    out: &mut Vec<StatedFrame>,
    frames: &[Frame],
) -> Result<(), Memory>
    ensures { OnOk result (Adds out.old.items (frames_by classes.now frames.now) out.new.items) }
{
    for frame in frames {
        out.push(StatedFrame {
            at: frame.at,
            shape: link_shape(alloc, classes, &frame.shape)?,
        })?;
    }
    Ok(())
}

// Adds the frames of an attribute that is a StackMapTable.
fn add_frames(
    alloc: Global,
    classes: &NamedClasses,
    out: &mut Vec<StatedFrame>,
    attr: &Attr,
) -> Result<(), Memory>
    ensures { OnOk result (Adds out.old.items (frames_at classes.now attr.now) out.new.items) }
{
    match &attr.body {
        Body::Frames(frames) => {
            add_all(alloc, classes, out, frames.as_slice())?;
            Ok(())
        }
        _ => Ok(()),
    }
}

/// The frames that a code's attributes state.
pub fn link_frames(
    alloc: Global,
    classes: &NamedClasses,
    attrs: &[Attr],
) -> Result<Seq<StatedFrame>, Memory>
    ensures { IfOk result (λ fs. map frame_of fs ≡ frames_in classes.now attrs.now) }
{
    let mut out = Vec::new(alloc);
    for attr in attrs {
        add_frames(alloc, classes, &mut out, attr)?;
    }
    Ok(Seq::from_vec(out))
}
