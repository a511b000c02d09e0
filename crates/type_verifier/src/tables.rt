//! What the methods of a class share.

ghost use Rattle.std.specs.Prelude.{IfOk};
ghost use Rattle.type_verifier.specs.Pool.{IsOwn};
ghost use Rattle.type_verifier.specs.ProgramTables.{AreTables};

use crate::{Names, Own, common_names, items};
use class_model::Memory;
use std::alloc::Global;
use type_rows::{CommonNames, Item};

/// What the methods of a class share: the names that it mentions by number, its own number among
/// them, and what the indices of its constant pool mean.
#[derive(Drop)]
pub struct Tables {
    pub names: Names,
    pub class: usize,
    pub common: CommonNames,
    pub items: Vec<Item>,
}

/// The tables of a class, before its methods.
pub fn tables_of(alloc: Global, own: &Own) -> Result<Tables, Memory>
    requires { IsOwn own.now }
    ensures { IfOk result (AreTables own.now) }
{
    let mut names = Names::new(alloc, own.program)?;
    let class = names.number(own.program, own.name)?;
    let common = common_names(&mut names, own.program)?;
    let items = items(&mut names, own)?;
    Ok(Tables {
        names,
        class,
        common,
        items,
    })
}
