//! Stated frames by the numbers of names, each as it differs from the one before.

ghost use Rattle.std.specs.Prelude.{IfOk, OnOk};
ghost use Rattle.type_verifier.specs.Tables.{IsTable, Adds};
ghost use Rattle.type_verifier.specs.Shapes.{ShapeLasts, FramesLast};

use crate::names::Names;
use crate::types::{stated_type, stated_types};
use class_link::{FrameShape, StatedFrame};
use class_model::Memory;
use class_table::Program;
use vframes::SlotType;

/// How a frame differs from the one before it; of the stack the first item is the lowest one.
#[derive(Drop)]
pub enum Shape {
    SameLocals,
    OneItem(SlotType),
    Chopped(u8),
    Appended(Vec<SlotType>),
    Whole(Vec<SlotType>, Vec<SlotType>),
}

/// A frame by its difference, with the instruction that it is stated for.
#[derive(Drop)]
pub struct Difference {
    pub at: u32,
    pub shape: Shape,
}

// A shape by numbers.
#[tactic(auto, using(crate::proofs::Lasting::same_table))]
fn shape_by_number(
    names: &mut Names,
    program: &Program,
    stated: &FrameShape,
) -> Result<Shape, Memory>
    requires { IsTable program.now names.old }
    ensures adds { OnOk result (Adds program.now names.old names.new) }
    ensures shape { IfOk result (λ s. ShapeLasts names.new.list.items s stated.now) }
{
    match stated {
        FrameShape::SameLocals => Ok(Shape::SameLocals),
        FrameShape::OneItem(t) => {
            let t = stated_type(names, program, t)?;
            Ok(Shape::OneItem(t))
        }
        FrameShape::Chopped(count) => Ok(Shape::Chopped(*count)),
        FrameShape::Appended(items) => {
            let items = stated_types(names, program, items.as_slice())?;
            Ok(Shape::Appended(items))
        }
        FrameShape::Whole(locals, stack) => {
            let locals = stated_types(names, program, locals.as_slice())?;
            let stack = stated_types(names, program, stack.as_slice())?;
            Ok(Shape::Whole(locals, stack))
        }
    }
}

/// The frames that a code states, by numbers.
pub fn differences(
    names: &mut Names,
    program: &Program,
    frames: &[StatedFrame],
) -> Result<Vec<Difference>, Memory>
    requires { IsTable program.now names.old }
    ensures adds { OnOk result (Adds program.now names.old names.new) }
    ensures frames { IfOk result (λ ds. FramesLast names.new.list.items ds.items frames.now) }
{
    let alloc = *names.list.allocator();
    let mut differences = Vec::with_capacity(alloc, frames.len())?;
    for frame in frames {
        let shape = shape_by_number(names, program, &frame.shape)?;
        differences.push(Difference {
            at: frame.at,
            shape,
        })?;
    }
    Ok(differences)
}
