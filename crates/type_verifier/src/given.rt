//! What a method gives.

ghost use Rattle.std.specs.Prelude.{◌≡◌, IfOk, OnOk, Some};
ghost use Rattle.class_link.specs.Symbols.{kind_of};
ghost use Rattle.type_verifier.specs.Tables.{IsTable, Adds};
ghost use Rattle.type_verifier.specs.Heads.{GivenLasts, ResultGives};

use crate::names::Names;
use class_model::{Kind, Memory};
use class_table::Program;
use type_rows::Given;
use vframes::SlotType;

// What is given, by its kind.
#[tactic(auto, using(crate::proofs::Lasting::same_table))]
fn kind_given(names: &mut Names, program: &Program, kind: &Kind) -> Result<Given, Memory>
    requires { IsTable program.now names.old }
    ensures adds { OnOk result (Adds program.now names.old names.new) }
    ensures given { IfOk result (λ g. GivenLasts names.new.list.items (Some (kind_of kind.now)) g) }
{
    match kind {
        Kind::Boolean => Ok(Given::Int),
        Kind::Byte => Ok(Given::Int),
        Kind::Char => Ok(Given::Int),
        Kind::Short => Ok(Given::Int),
        Kind::Int => Ok(Given::Int),
        Kind::Long => Ok(Given::Long),
        Kind::Ref(name) => {
            let number = names.number(program, name)?;
            Ok(Given::Reference(SlotType::Obj(number)))
        }
    }
}

/// What a method gives whose descriptor states this result.
#[tactic(auto, using(crate::proofs::Lasting::same_table))]
pub fn given_of(
    names: &mut Names,
    program: &Program,
    stated: &Option<Kind>,
) -> Result<Given, Memory>
    requires { IsTable program.now names.old }
    ensures adds { OnOk result (Adds program.now names.old names.new) }
    ensures given { IfOk result (λ g. ResultGives names.new.list.items stated.now g) }
{
    match stated {
        Some(kind) => {
            let given = kind_given(names, program, kind)?;
            Ok(given)
        }
        None => Ok(Given::Nothing),
    }
}
