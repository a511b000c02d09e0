//! The elements of arrays.

ghost use Rattle.std.specs.Prelude.{IfOk, IfSome, OnOk};
ghost use Rattle.program_rules.specs.Instructions as def;
ghost use Rattle.jvm_rows.specs.Plain.{RunsAs};
ghost use Rattle.jvm_world.specs.View.{IsWorldOf, IsKept};
ghost use Rattle.jvm_act.specs.Groups.{element_in};
ghost use Rattle.jvm_act.specs.Standing.{HasNext};

use crate::groups::ElementOp;
use class_model::Memory;
use class_table::Program;
use jvm_frames::Frames;
use jvm_rows::{Effect, load_element, store_element};
use jvm_type_rows::store_reference;
use jvm_world::World;
use program_rules::Element;
use std::alloc::Global;

// A store into an array.
#[tactic(auto, using(crate::proofs::Rows::stores))]
fn store(
    frames: &mut Frames,
    world: &mut World,
    alloc: Global,
    p: &Program,
    element: Element,
) -> Result<Effect, Memory>
    requires world { IsWorldOf p.now world.old }
    requires next { IfSome frames.old.frame HasNext }
    ensures row { IfOk result (λ e. RunsAs p.now (def.ArrayStore element) e
        frames.old frames.new world.old world.new) }
    ensures kept { OnOk result (IsKept p.now world.old world.new) }
{
    match element {
        Element::ReferenceElement => {
            let done = store_reference(frames, world, alloc, p)?;
            Ok(done)
        }
        Element::IntElement
        | Element::LongElement
        | Element::ByteElement
        | Element::CharElement
        | Element::ShortElement => {
            let done = store_element(frames, world, alloc, p, element)?;
            Ok(done)
        }
    }
}

/// Loads or stores the element of an array.
#[tactic(auto, using(crate::proofs::Rows::loads))]
pub fn take_element(
    frames: &mut Frames,
    world: &mut World,
    alloc: Global,
    p: &Program,
    op: ElementOp,
) -> Result<Effect, Memory>
    requires world { IsWorldOf p.now world.old }
    requires next { IfSome frames.old.frame HasNext }
    ensures row { IfOk result (λ e. RunsAs p.now (element_in op) e
        frames.old frames.new world.old world.new) }
    ensures kept { OnOk result (IsKept p.now world.old world.new) }
{
    match op {
        ElementOp::Load(element) => {
            let done = load_element(frames, world, alloc, p, element)?;
            Ok(done)
        }
        ElementOp::Store(element) => {
            let done = store(frames, world, alloc, p, element)?;
            Ok(done)
        }
    }
}
