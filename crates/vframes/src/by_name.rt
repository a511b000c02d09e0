//! Assignability of types that name their classes.

ghost use Rattle.std.specs.Prelude.{◌≡◌, IfOk};
ghost use Rattle.type_rules.specs.Assignability.{name_assignable};
ghost use Rattle.vframes.specs.Named.{IsClosed};
ghost use Rattle.vframes.specs.Fits.{classes_in, assignable_by_name};

use crate::assign::is_name_assignable;
use crate::named::name_parts;
use class_link::VType;
use class_model::{Memory, Name};
use class_table::Program;
use std::alloc::Global;

// A program has all supers that it names.
#[tactic(auto, using(crate::proofs::Closed::closed))]
fn is_closed(program: &Program)
    ensures { IsClosed program.now }
{
    let _count = program.len();
}

// Whether a class or an array is assignable to another.
fn is_class_assignable(
    alloc: Global,
    program: &Program,
    from: &Name,
    to: &Name,
) -> Result<bool, Memory>
    ensures { IfOk result (λ b. b ≡ name_assignable (classes_in program.now) from.now to.now) }
{
    let from = name_parts(alloc, program, from)?;
    let to = name_parts(alloc, program, to)?;
    is_closed(program);
    Ok(is_name_assignable(program, &from, &to))
}

/// Whether a type is assignable to another (JVMS 4.10.1.2).
pub fn assignable(
    alloc: Global,
    program: &Program,
    from: &VType,
    to: &VType,
) -> Result<bool, Memory>
    ensures { IfOk result (λ b. b ≡ assignable_by_name program.now from.now to.now) }
{
    match (from, to) {
        (VType::Obj(from), VType::Obj(to)) => Ok(is_class_assignable(alloc, program, from, to)?),
        (VType::NullType, VType::Obj(_)) => Ok(true),
        (_, VType::Top) => Ok(true),
        (VType::IntType, VType::IntType) => Ok(true),
        (VType::LongType, VType::LongType) => Ok(true),
        (VType::NullType, VType::NullType) => Ok(true),
        (VType::UninitThis, VType::UninitThis) => Ok(true),
        (VType::Uninit(at), VType::Uninit(other)) => Ok(*at == *other),
        (_, _) => Ok(false),
    }
}
