//! The rows of an exception table by number (JVMS 4.7.3).

ghost use Rattle.std.specs.Prelude.{◌≡◌, map, IfOk, OnOk};
ghost use Rattle.type_rules.specs.References.{throwable_name};
ghost use Rattle.type_verifier.specs.Tables.{IsTable, Adds, NameLasts};
ghost use Rattle.type_verifier.specs.Caught.{CaughtIs, RowIs, RowsAre};

use crate::{Names, is_thrown};
use class_link::LinkedRow;
use class_model::names::ascii;
use class_model::{Memory, Name, Seq};
use class_table::Program;
use std::alloc::Global;
use vframes::Handler;

// What a row catches: the class that it names, or all that is thrown.
fn caught<'a>(row: &'a LinkedRow, throwable: &'a Name) -> &'a Name
    requires { throwable.now ≡ throwable_name }
    ensures { CaughtIs row.now result.now }
{
    match &row.catch {
        Some(name) => name,
        None => throwable,
    }
}

// A row by number.
fn handler_of(
    names: &mut Names,
    program: &Program,
    row: &LinkedRow,
    throwable: &Name,
) -> Result<Handler, Memory>
    requires table { IsTable program.now names.old }
    requires throwable { throwable.now ≡ throwable_name }
    ensures adds { OnOk result (Adds program.now names.old names.new) }
    ensures row { IfOk result (λ h. RowIs program.now names.new h row.now) }
{
    let class = caught(row, throwable);
    let number = names.number(program, class)?;
    let thrown = is_thrown(program, class, throwable);
    Ok(Handler {
        start: row.start,
        end: row.end,
        target: row.handler,
        caught: number,
        is_thrown: thrown,
    })
}

/// The rows of an exception table by number, in order: what each catches has its number among the
/// names of the class. A row that names no class catches all that is thrown.
pub fn handlers_of(
    names: &mut Names,
    program: &Program,
    rows: &[LinkedRow],
) -> Result<Vec<Handler>, Memory>
    requires { IsTable program.now names.old }
    ensures adds { OnOk result (Adds program.now names.old names.new) }
    ensures rows { IfOk result (λ hs. RowsAre program.now names.new hs.items rows.now) }
{
    let alloc = *names.list.allocator();
    let throwable = ascii(alloc, "java/lang/Throwable")?;
    let mut handlers = Vec::with_capacity(alloc, rows.len())?;
    for row in rows {
        let handler = handler_of(names, program, row, &throwable)?;
        handlers.push(handler)?;
    }
    Ok(handlers)
}
