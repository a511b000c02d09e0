//! Each test with how it ended.

ghost use Rattle.std.specs.Prelude.{◌<◌, ◌^◌};
ghost use Rattle.class_table.specs.Table.{look};
ghost use Rattle.jvm_run.specs.Below.{IsRunnable};
ghost use Rattle.jvm_run.specs.Below.{AreTablesOf};

use crate::case::{Case, case_of};
use crate::words::{push_ran, push_recorded, push_test};
use class_model::Memory;
use class_table::Program;
use jvm_run::{RunResult, Tables, execute};
use mt_edge::Meter;
use record_rules::RunRecord;
use run_records::make_record;
use std::alloc::Global;

// The run of a test.
fn run(
    program: &Program,
    tables: &mut Tables,
    case: &Case,
    alloc: Global,
) -> Result<RunResult, Memory>
    requires tables { AreTablesOf program.now tables.old }
    requires runnable { IsRunnable (look program.now) }
    requires small { case.now.limits.heap < 2 ^ 31 }
    ensures tables { AreTablesOf program.now tables.new }
{
    let mut meter = Meter::new();
    let mut part = meter.split();
    let ran = execute(
        alloc,
        program,
        tables,
        &case.test,
        case.limits,
        case.steps,
        &mut part,
    );
    let _counted = part.count();
    meter.join(part);
    ran
}

// Its record, if it isn't stuck.
fn record(
    program: &Program,
    tables: &mut Tables,
    case: &Case,
    alloc: Global,
) -> Result<Option<RunRecord>, Memory>
    requires tables { AreTablesOf program.now tables.old }
    requires runnable { IsRunnable (look program.now) }
    requires small { case.now.limits.heap < 2 ^ 31 }
    ensures tables { AreTablesOf program.now tables.new }
{
    let mut meter = Meter::new();
    let mut part = meter.split();
    let made = make_record(
        alloc,
        program,
        tables,
        &case.test,
        case.limits,
        case.steps,
        &mut part,
    );
    let _counted = part.count();
    meter.join(part);
    made
}

// ---- lines of tests

// Runs a test, and tells how it ended.
fn push_case(
    program: &Program,
    tables: &mut Tables,
    case: &Case,
    out: &mut String,
) -> anyhow::Result<()>
    requires tables { AreTablesOf program.now tables.old }
    requires runnable { IsRunnable (look program.now) }
    requires small { case.now.limits.heap < 2 ^ 31 }
    ensures tables { AreTablesOf program.now tables.new }
{
    let ran = run(program, tables, case, *out.allocator())?;
    push_ran(out, &ran)?;
    Ok(())
}

// The same by its record.
fn push_case_by_record(
    program: &Program,
    tables: &mut Tables,
    case: &Case,
    out: &mut String,
) -> anyhow::Result<()>
    requires tables { AreTablesOf program.now tables.old }
    requires runnable { IsRunnable (look program.now) }
    requires small { case.now.limits.heap < 2 ^ 31 }
    ensures tables { AreTablesOf program.now tables.new }
{
    match record(program, tables, case, *out.allocator())? {
        Some(record) => push_recorded(out, &record)?,
        None => out.push_str("no record\n")?,
    }
    Ok(())
}

// Runs the test of a line, and adds its line.
fn push_run(
    program: &Program,
    tables: &mut Tables,
    line: &str,
    out: &mut String,
) -> anyhow::Result<()>
    requires tables { AreTablesOf program.now tables.old }
    requires runnable { IsRunnable (look program.now) }
    ensures tables { AreTablesOf program.now tables.new }
{
    let case = case_of(*out.allocator(), line)?;
    push_test(out, &case.test)?;
    if case.by_record {
        push_case_by_record(program, tables, &case, out)
    } else {
        push_case(program, tables, &case, out)
    }
}

// Runs the test of each line with these tables, and adds a line for each.
fn push_lines(
    program: &Program,
    tables: &mut Tables,
    tests: &str,
    out: &mut String,
) -> anyhow::Result<()>
    requires tables { AreTablesOf program.now tables.old }
    requires runnable { IsRunnable (look program.now) }
{
    for line in tests.lines() {
        push_run(program, tables, line, out)?;
    }
    Ok(())
}

/// Runs the test of each line, and adds a line for each.
pub fn push_runs(program: &Program, tests: &str, out: &mut String) -> anyhow::Result<()>
    requires runnable { IsRunnable (look program.now) }
{
    let Some(mut tables) = Tables::find(*out.allocator(), program)? else {
        anyhow::bail!("the library lacks a class");
    };
    push_lines(program, &mut tables, tests, out)
}

/// The record of the run of a test.
pub fn record_of(program: &Program, case: &Case, alloc: Global) -> anyhow::Result<RunRecord>
    requires runnable { IsRunnable (look program.now) }
    requires small { case.now.limits.heap < 2 ^ 31 }
{
    let Some(mut tables) = Tables::find(alloc, program)? else {
        anyhow::bail!("the library lacks a class");
    };
    match record(program, &mut tables, case, alloc)? {
        Some(record) => Ok(record),
        None => anyhow::bail!("no record"),
    }
}
