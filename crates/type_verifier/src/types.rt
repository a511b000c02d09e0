//! Types of kinds, and types that a class file states, by the numbers of names.

ghost use Rattle.std.specs.Prelude.{IfOk, OnOk};
ghost use Rattle.class_link.specs.View.{vtype_of};
ghost use Rattle.type_verifier.specs.Tables.{IsTable, Adds, TypeLasts, KindLasts, KindsLast, StatedLast};

use crate::names::Names;
use class_link::VType;
use class_model::{Kind, Memory};
use class_table::Program;
use vframes::SlotType;

/// The type of values of a kind.
#[tactic(auto, using(crate::proofs::Lasting::same_table))]
pub fn kind_type(names: &mut Names, program: &Program, kind: &Kind) -> Result<SlotType, Memory>
    requires { IsTable program.now names.old }
    ensures adds { OnOk result (Adds program.now names.old names.new) }
    ensures type_ { IfOk result (λ t. KindLasts names.new.list.items t kind.now) }
{
    match kind {
        Kind::Boolean => Ok(SlotType::Int),
        Kind::Byte => Ok(SlotType::Int),
        Kind::Char => Ok(SlotType::Int),
        Kind::Short => Ok(SlotType::Int),
        Kind::Int => Ok(SlotType::Int),
        Kind::Long => Ok(SlotType::Long),
        Kind::Ref(name) => {
            let number = names.number(program, name)?;
            Ok(SlotType::Obj(number))
        }
    }
}

/// The types of values of these kinds.
pub fn kind_types(
    names: &mut Names,
    program: &Program,
    kinds: &[Kind],
) -> Result<Vec<SlotType>, Memory>
    requires { IsTable program.now names.old }
    ensures adds { OnOk result (Adds program.now names.old names.new) }
    ensures types { IfOk result (λ ts. KindsLast names.new.list.items ts.items kinds.now) }
{
    let alloc = *names.list.allocator();
    let mut types = Vec::with_capacity(alloc, kinds.len())?;
    for kind in kinds {
        let t = kind_type(names, program, kind)?;
        types.push(t)?;
    }
    Ok(types)
}

/// A type that is stated.
#[tactic(auto, using(crate::proofs::Lasting::same_table))]
pub fn stated_type(names: &mut Names, program: &Program, t: &VType) -> Result<SlotType, Memory>
    requires { IsTable program.now names.old }
    ensures adds { OnOk result (Adds program.now names.old names.new) }
    ensures type_ { IfOk result (λ s. TypeLasts names.new.list.items s (vtype_of t.now)) }
{
    match t {
        VType::Top => Ok(SlotType::Top),
        VType::IntType => Ok(SlotType::Int),
        VType::LongType => Ok(SlotType::Long),
        VType::NullType => Ok(SlotType::Null),
        VType::UninitThis => Ok(SlotType::UninitThis),
        VType::Uninit(at) => Ok(SlotType::Uninit(*at)),
        VType::Obj(name) => {
            let number = names.number(program, name)?;
            Ok(SlotType::Obj(number))
        }
    }
}

/// Types that are stated.
pub fn stated_types(
    names: &mut Names,
    program: &Program,
    stated: &[VType],
) -> Result<Vec<SlotType>, Memory>
    requires { IsTable program.now names.old }
    ensures adds { OnOk result (Adds program.now names.old names.new) }
    ensures types { IfOk result (λ ts. StatedLast names.new.list.items ts.items stated.now) }
{
    let alloc = *names.list.allocator();
    let mut types = Vec::with_capacity(alloc, stated.len())?;
    for item in stated {
        let t = stated_type(names, program, item)?;
        types.push(t)?;
    }
    Ok(types)
}
