//! What names a text, a class or a kind of elements: constants, new arrays, tests of classes.

ghost use Rattle.std.specs.Prelude.{◌≡◌, List, IfOk, IfSome, IfNone, OnOk};
ghost use Rattle.program_rules.specs.Instructions as def;
ghost use Rattle.class_link.specs.declared.linked.Entry.TheVariants as entry;
ghost use Rattle.class_link.specs.Opcodes.{array_of, on_text, on_class};
ghost use Rattle.class_link.specs.Symbols.{kind_of};
ghost use Rattle.jvm_rows.specs.Plain.{RunsAs};
ghost use Rattle.jvm_link.specs.References.{IsEntry, IsTableOf};
ghost use Rattle.jvm_world.specs.View.{IsWorldOf, IsKept};
ghost use Rattle.jvm_act.specs.Acts.{RunsWholeAs, symbol_at, use_named};
ghost use Rattle.jvm_act.specs.Groups.{class_in};
ghost use Rattle.jvm_act.specs.Standing.{HasNext};
ghost use Rattle.jvm_code.specs.Decoded.{named_by};
ghost use Rattle.class_link.specs.declared.linked.Switch.{Switch};
ghost use Rattle.class_table.specs.Table.{entries_at};

use crate::arrays::make_arrays;
use crate::groups::{ClassOp, ClassUse};
use crate::symbols::{class_at, text_at};
use class_model::{ClassId, Kind, Memory, Name};
use class_table::Program;
use jvm_frames::Frames;
use jvm_link::References;
use jvm_members::{Purpose, check_cast, test_instance};
use jvm_rows::{Effect, make_primitive_array};
use jvm_world::World;
use std::alloc::Global;

// `ldc` of the text at an index.
#[tactic(auto, using(crate::proofs::Rows::loads_text, crate::proofs::Rows::no_text))]
fn load_text(
    frames: &mut Frames,
    world: &mut World,
    p: &Program,
    class: ClassId,
    index: u32,
) -> Result<Effect, Memory>
    requires world { IsWorldOf p.now world.old }
    requires next { IfSome frames.old.frame HasNext }
    ensures row { IfOk result (λ e.
        RunsWholeAs p.now (on_text def.TextConstant (symbol_at p.now class.0 index)) e
        frames.old frames.new world.old world.new) }
    ensures kept { OnOk result (IsKept p.now world.old world.new) }
{
    match text_at(p, class, index) {
        Some(text) => {
            let done = jvm_rows::load_text(frames, world, p, text)?;
            Ok(done)
        }
        None => Ok(Effect::NoRow),
    }
}

// The kind of the elements of a number (JVMS 6.5, `newarray`).
fn kind_at(number: u8) -> Option<Kind>
    ensures some { IfSome result (λ k. array_of number ≡ def.NewArray (kind_of k)) }
    ensures none { IfNone result (array_of number ≡ def.Unlinked) }
{
    if number == 4 {
        Some(Kind::Boolean)
    } else if number == 5 {
        Some(Kind::Char)
    } else if number == 8 {
        Some(Kind::Byte)
    } else if number == 9 {
        Some(Kind::Short)
    } else if number == 10 {
        Some(Kind::Int)
    } else if number == 11 {
        Some(Kind::Long)
    } else {
        None
    }
}

// `newarray` of elements of a kind by its number.
#[tactic(auto, using(crate::proofs::Rows::makes_primitives, crate::proofs::Rows::unlinked))]
fn make_primitives(
    frames: &mut Frames,
    world: &mut World,
    alloc: Global,
    p: &Program,
    number: u8,
) -> Result<Effect, Memory>
    requires world { IsWorldOf p.now world.old }
    requires next { IfSome frames.old.frame HasNext }
    ensures row { IfOk result (λ e. RunsAs p.now (array_of number) e
        frames.old frames.new world.old world.new) }
    ensures kept { OnOk result (IsKept p.now world.old world.new) }
{
    match kind_at(number) {
        Some(kind) => {
            let done = make_primitive_array(frames, world, alloc, p, kind)?;
            Ok(done)
        }
        None => Ok(Effect::NoRow),
    }
}

// The class of a name at an index is used.
#[tactic(auto, using(crate::proofs::Rows::uses_load, crate::proofs::Rows::uses_array, crate::proofs::Rows::uses_arrays, crate::proofs::Rows::uses_cast, crate::proofs::Rows::uses_test))]
fn use_named(
    frames: &mut Frames,
    world: &mut World,
    alloc: Global,
    p: &Program,
    references: &mut References,
    class: ClassId,
    index: u32,
    name: &Name,
    how: ClassUse,
) -> Result<Effect, Memory>
    requires world { IsWorldOf p.now world.old }
    requires table { IsTableOf p.now references.old }
    requires entry { IsEntry p.now class.0 index (entry.Class name.now) }
    requires next { IfSome frames.old.frame HasNext }
    ensures row { IfOk result (λ e. RunsWholeAs p.now (use_named how name.now) e
        frames.old frames.new world.old world.new) }
    ensures kept { OnOk result (IsKept p.now world.old world.new) }
    ensures table { IsTableOf p.now references.new }
{
    match how {
        ClassUse::Load => {
            let to = Purpose::Load;
            let done = jvm_members::use_class(
                frames, world, alloc, p, references, class, index, name, to,
            )?;
            Ok(done)
        }
        ClassUse::MakeArray => {
            let to = Purpose::MakeArray;
            let done = jvm_members::use_class(
                frames, world, alloc, p, references, class, index, name, to,
            )?;
            Ok(done)
        }
        ClassUse::MakeArrays(dimensions) => {
            let done = make_arrays(
                frames, world, alloc, p, references, class, index, name, dimensions,
            )?;
            Ok(done)
        }
        ClassUse::Cast => {
            let done = check_cast(frames, world, alloc, p, references, class, index, name)?;
            Ok(done)
        }
        ClassUse::Test => {
            let done = test_instance(frames, world, alloc, p, references, class, index, name)?;
            Ok(done)
        }
    }
}

// The class at an index is used.
#[tactic(auto, using(crate::proofs::Rows::uses_class, crate::proofs::Rows::no_class))]
fn use_class(
    frames: &mut Frames,
    world: &mut World,
    alloc: Global,
    p: &Program,
    references: &mut References,
    class: ClassId,
    index: u32,
    how: ClassUse,
) -> Result<Effect, Memory>
    requires world { IsWorldOf p.now world.old }
    requires table { IsTableOf p.now references.old }
    requires next { IfSome frames.old.frame HasNext }
    ensures row { IfOk result (λ e.
        RunsWholeAs p.now (on_class (use_named how) (symbol_at p.now class.0 index)) e
        frames.old frames.new world.old world.new) }
    ensures kept { OnOk result (IsKept p.now world.old world.new) }
    ensures table { IsTableOf p.now references.new }
{
    match class_at(p, class, index) {
        Some(name) => {
            let done = use_named(frames, world, alloc, p, references, class, index, name, how)?;
            Ok(done)
        }
        None => Ok(Effect::NoRow),
    }
}

/// Executes what names a text, a class or a kind of elements.
#[tactic(auto, using(crate::proofs::Rows::texts, crate::proofs::Rows::primitives, crate::proofs::Rows::classes))]
pub fn take_class(
    frames: &mut Frames,
    world: &mut World,
    alloc: Global,
    p: &Program,
    references: &mut References,
    class: ClassId,
    op: ClassOp,
) -> Result<Effect, Memory>
    requires world { IsWorldOf p.now world.old }
    requires table { IsTableOf p.now references.old }
    requires next { IfSome frames.old.frame HasNext }
    ensures row { IfOk result (λ e. (ss : List Switch) →
        RunsWholeAs p.now (class_in (named_by (entries_at p.now class.0) ss) op) e
        frames.old frames.new world.old world.new) }
    ensures kept { OnOk result (IsKept p.now world.old world.new) }
    ensures table { IsTableOf p.now references.new }
{
    match op {
        ClassOp::Text(index) => {
            let done = load_text(frames, world, p, class, index)?;
            Ok(done)
        }
        ClassOp::Primitives(number) => {
            let done = make_primitives(frames, world, alloc, p, number)?;
            Ok(done)
        }
        ClassOp::Use(how, index) => {
            let done = use_class(frames, world, alloc, p, references, class, index, how)?;
            Ok(done)
        }
    }
}
