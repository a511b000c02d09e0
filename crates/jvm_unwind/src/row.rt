//! The rows of an exception table, with the classes that they catch by number.

ghost use Rattle.std.specs.Prelude.{◌≡◌, All, Some, IfOk};
ghost use Rattle.class_link.specs.View.{row_of};
ghost use Rattle.jvm_unwind.specs.Rows.{catch_name, IsCatch, catch_row_of, IsCatchRow, AreRowsOf};

use class_family::class_behind;
use class_link::names::is_array_name;
use class_link::{LinkedRow, Shared};
use class_model::{ClassId, Memory, Name};
use class_table::Program;
use std::alloc::Global;

/// What a row of an exception table catches (JVMS 4.7.3).
#[derive(Drop)]
pub enum Catch {
    /// Each object.
    All,
    /// The objects of this class and of all below it.
    Class(ClassId),
    /// None: the row names an array, or a class that the program doesn't have. The class behind
    /// that name is consulted all the same.
    Nothing { named: Shared<Name>, behind: Name },
}

/// A row of an exception table: it covers the instructions from `start` up to but not `end`.
#[derive(Drop)]
pub struct CatchRow {
    pub start: u32,
    pub end: u32,
    pub handler: u32,
    pub catch: Catch,
}

/// What a row catches that names this class.
pub fn catch_named(alloc: Global, program: &Program, name: &Shared<Name>) -> Result<Catch, Memory>
    ensures name { IfOk result (λ c. catch_name program.now c ≡ Some name.now) }
    ensures right { IfOk result (λ c. IsCatch program.now c) }
{
    if !is_array_name(name.as_slice()) {
        if let Some(id) = program.find(name) {
            let _class = program.info(id);
            return Ok(Catch::Class(id));
        }
    }
    Ok(Catch::Nothing {
        named: name.share()?,
        behind: class_behind(alloc, name)?,
    })
}

// A row by number.
fn catch_row(alloc: Global, program: &Program, row: &LinkedRow) -> Result<CatchRow, Memory>
    ensures row { IfOk result (λ r. catch_row_of program.now r ≡ row_of row.now) }
    ensures right { IfOk result (λ r. IsCatchRow program.now r) }
{
    let catch = match &row.catch {
        None => Catch::All,
        Some(name) => catch_named(alloc, program, name)?,
    };
    Ok(CatchRow {
        start: row.start,
        end: row.end,
        handler: row.handler,
        catch,
    })
}

/// The rows of an exception table by number.
pub fn catch_rows(
    alloc: Global,
    program: &Program,
    rows: &[LinkedRow],
) -> Result<Vec<CatchRow, Global>, Memory>
    ensures rows { IfOk result (λ rs. AreRowsOf program.now rs.items rows.now) }
    ensures right { IfOk result (λ rs. All (IsCatchRow program.now) rs.items) }
{
    let mut found = Vec::with_capacity(alloc, rows.len())?;
    for row in rows {
        found.push(catch_row(alloc, program, row)?)?;
    }
    Ok(found)
}
