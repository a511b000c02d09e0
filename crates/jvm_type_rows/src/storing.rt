//! `aastore` (JVMS 6.5).

ghost use Rattle.std.specs.Prelude.{◌+◌, ◌<◌, ◌≤◌, ◌^◌, length, Some, IfOk, IfSome, OnOk};
ghost use Rattle.program_rules.specs.declared.value.Value.TheVariants.{Ref};
ghost use Rattle.program_rules.specs.declared.operation.Element.TheVariants.{ReferenceElement};
ghost use Rattle.machine_rules.specs.Arrays.{array_kind};
ghost use Rattle.class_link.specs.Symbols.{kind_of};
ghost use Rattle.class_table.specs.Table.{look};
ghost use Rattle.jvm_frames.specs.Frames.{stack_of};
ghost use Rattle.jvm_world.specs.View.{kind_in, IsWorldOf, IsKept};
ghost use Rattle.jvm_rows.specs.Effects.{Runs};
ghost use Rattle.jvm_rows.specs.Storing.{storing_element};
ghost use Rattle.jvm_type_rows.specs.Storing.{FitsKind, FitsArray, reference_value, storing_value, storing_known};

use crate::casting::is_instance;
use class_model::{Kind, Memory};
use class_table::Program;
use jvm_frames::Frames;
use jvm_rows::{Effect, Sought, find_element, int_at, reference_at, store_in, throw};
use jvm_values::ObjKind;
use jvm_world::World;
use program_rules::{Element, Fault, Value};
use std::alloc::Global;

// Whether an object may be stored where elements are of a kind; none where there is no object.
fn fits_kind(
    alloc: Global,
    world: &World,
    p: &Program,
    kind: &Kind,
    object: u32,
) -> Result<Option<bool>, Memory>
    ensures { IfOk result (λ is. FitsKind p.now world.now (Some (kind_of kind.now)) object is) }
{
    match kind {
        Kind::Ref(name) => is_instance(alloc, world, p, object, name),
        Kind::Boolean | Kind::Byte | Kind::Char | Kind::Short | Kind::Int | Kind::Long => {
            match world.object(p, object) {
                Some(_) => Ok(Some(false)),
                None => Ok(None),
            }
        }
    }
}

// The same by what an array is of; none where it is no array.
fn fits_elements(
    alloc: Global,
    world: &World,
    p: &Program,
    array: &ObjKind,
    object: u32,
) -> Result<Option<bool>, Memory>
    ensures { IfOk result (λ is.
        FitsKind p.now world.now (array_kind (kind_in p.now array.now)) object is) }
{
    match array {
        ObjKind::Array(kind) => fits_kind(alloc, world, p, kind, object),
        ObjKind::Plain(_) => Ok(None),
        ObjKind::Text => Ok(None),
    }
}

// Whether an object may be stored in an array; none where there aren't both.
fn fits_array(
    alloc: Global,
    world: &World,
    p: &Program,
    array: u32,
    object: u32,
) -> Result<Option<bool>, Memory>
    ensures { IfOk result (λ is. FitsArray p.now world.now array object is) }
{
    match world.object(p, array) {
        Some(found) => fits_elements(alloc, world, p, &found.kind, object),
        None => Ok(None),
    }
}

// An object is stored at an index of an array that has it, or an ArrayStoreException is thrown.
fn store_known(
    frames: &mut Frames,
    world: &mut World,
    alloc: Global,
    p: &Program,
    index: i32,
    array: u32,
    object: u32,
    fits: bool,
) -> Result<Effect, Memory>
    requires world { IsWorldOf p.now world.old }
    requires next { IfSome frames.old.frame (λ f. f.at + 1 < 2 ^ 64) }
    requires there { 3 ≤ length (stack_of frames.old.frame) }
    ensures row { IfOk result (λ e. Runs p.now (storing_known index array object fits) e
        frames.old frames.new world.old world.new) }
    ensures kept { OnOk result (IsKept p.now world.old world.new) }
{
    if fits {
        let value = Value::Ref(object);
        let done = store_in(
            frames,
            world,
            alloc,
            p,
            Element::ReferenceElement,
            index,
            array,
            value,
        )?;
        return Ok(done);
    }
    let thrown = throw(world, alloc, p, Fault::ArrayStoreException)?;
    Ok(thrown)
}

// An object is stored at an index of an array, if it may be.
fn store_object(
    frames: &mut Frames,
    world: &mut World,
    alloc: Global,
    p: &Program,
    index: i32,
    array: u32,
    object: u32,
) -> Result<Effect, Memory>
    requires world { IsWorldOf p.now world.old }
    requires next { IfSome frames.old.frame (λ f. f.at + 1 < 2 ^ 64) }
    requires there { 3 ≤ length (stack_of frames.old.frame) }
    ensures row { IfOk result (λ e.
        Runs p.now (storing_value (look p.now) index array (Ref object)) e
        frames.old frames.new world.old world.new) }
    ensures kept { OnOk result (IsKept p.now world.old world.new) }
{
    match find_element(world, p, Element::ReferenceElement, index, array) {
        Sought::NoRow => Ok(Effect::NoRow),
        Sought::Outside => {
            let thrown = throw(world, alloc, p, Fault::ArrayIndexOutOfBoundsException)?;
            Ok(thrown)
        }
        Sought::Element(_) => {
            let answer = fits_array(alloc, world, p, array, object)?;
            match answer {
                Some(fits) => {
                    let done = store_known(frames, world, alloc, p, index, array, object, fits)?;
                    Ok(done)
                }
                None => Ok(Effect::NoRow),
            }
        }
    }
}

// A reference is stored at an index of an array, if it may be.
fn store_at(
    frames: &mut Frames,
    world: &mut World,
    alloc: Global,
    p: &Program,
    index: i32,
    array: u32,
    stored: Option<u32>,
) -> Result<Effect, Memory>
    requires world { IsWorldOf p.now world.old }
    requires next { IfSome frames.old.frame (λ f. f.at + 1 < 2 ^ 64) }
    requires there { 3 ≤ length (stack_of frames.old.frame) }
    ensures row { IfOk result (λ e.
        Runs p.now (storing_value (look p.now) index array (reference_value stored)) e
        frames.old frames.new world.old world.new) }
    ensures kept { OnOk result (IsKept p.now world.old world.new) }
{
    match stored {
        Some(object) => {
            let done = store_object(frames, world, alloc, p, index, array, object)?;
            Ok(done)
        }
        None => {
            let value = Value::Null;
            let done = store_in(
                frames,
                world,
                alloc,
                p,
                Element::ReferenceElement,
                index,
                array,
                value,
            )?;
            Ok(done)
        }
    }
}

/// `aastore`.
pub fn store_reference(
    frames: &mut Frames,
    world: &mut World,
    alloc: Global,
    p: &Program,
) -> Result<Effect, Memory>
    requires world { IsWorldOf p.now world.old }
    requires next { IfSome frames.old.frame (λ f. f.at + 1 < 2 ^ 64) }
    ensures row { IfOk result (λ e. Runs p.now (storing_element (look p.now) ReferenceElement) e
        frames.old frames.new world.old world.new) }
    ensures kept { OnOk result (IsKept p.now world.old world.new) }
{
    let Some(stored) = reference_at(frames, 0) else {
        return Ok(Effect::NoRow);
    };
    let Some(index) = int_at(frames, 1) else {
        return Ok(Effect::NoRow);
    };
    let Some(target) = reference_at(frames, 2) else {
        return Ok(Effect::NoRow);
    };
    match target {
        Some(array) => {
            let done = store_at(frames, world, alloc, p, index, array, stored)?;
            Ok(done)
        }
        None => {
            let thrown = throw(world, alloc, p, Fault::NullPointerException)?;
            Ok(thrown)
        }
    }
}
