//! A record of a run, written as a journal has it.

ghost use Rattle.std.specs.Prelude.{◌≡◌, ◌<◌, ◌≤◌, ◌++◌, ◌^◌, length, All, OnOk};
ghost use Rattle.std.specs.List.{flat_map};
ghost use Rattle.class_model.specs.declared.outcome.Cause.TheVariants.{Thrown};
ghost use Rattle.class_model.specs.declared.outcome.Outcome.TheVariants.{Failed};
ghost use Rattle.history_rules.specs.Items.{text_bytes, IsText, counted_bytes};
ghost use Rattle.history_rules.specs.Classes.{number_of};
ghost use Rattle.history_rules.specs.Entries.{entry_bytes, pair_bytes};
ghost use Rattle.history_rules.specs.Spelling.{told_cause_bytes, IsToldCause, outcome_bytes, record_bytes, IsOutcome};
ghost use Rattle.history_rules.specs.Laws.{IsFormed};
ghost use Rattle.job_journal.specs.Adding.{HasNumber, HasNumbers, IsWritten};

use crate::numbers::ClassNumbers;
use class_model::{Bytes, Cause, Memory, Name, Outcome, SharedBytes, write_text};
use mt_bytes::{put_u1, put_u2, put_u4, put_u8};
use record_rules::RunRecord;
use std::alloc::Global;

#[tactic(auto, using(crate::proofs::Putting::then_written))]
fn put_name(alloc: Global, name: &Name, out: &mut Bytes) -> Result<(), Memory>
    requires { IsText name.now }
    ensures { OnOk result (out.new ≡ out.old ++ text_bytes name.now) }
{
    let text = write_text(alloc, name)?;
    put_u2(out, text.len() as u16)?;
    out.extend_from_slice(text.as_slice())?;
    Ok(())
}

// Why a test failed: an exception of the class of this name.
#[tactic(auto, using(crate::proofs::Putting::then_written))]
fn put_thrown(alloc: Global, name: &Name, out: &mut Bytes) -> Result<(), Memory>
    requires { IsText name.now }
    ensures { OnOk result (out.new ≡ out.old ++ told_cause_bytes (Thrown name.now)) }
{
    put_u1(out, 1)?;
    put_name(alloc, name, out)?;
    Ok(())
}

fn put_cause(alloc: Global, cause: &Cause, out: &mut Bytes) -> Result<(), Memory>
    requires { IsToldCause cause.now }
    ensures { OnOk result (out.new ≡ out.old ++ told_cause_bytes cause.now) }
{
    match cause {
        Cause::Returned => put_u1(out, 0),
        Cause::Thrown(name) => put_thrown(alloc, name, out),
    }
}

#[tactic(auto, using(crate::proofs::Putting::then_written))]
fn put_failed(alloc: Global, cause: &Cause, out: &mut Bytes) -> Result<(), Memory>
    requires { IsToldCause cause.now }
    ensures { OnOk result (out.new ≡ out.old ++ outcome_bytes 2 (Failed cause.now)) }
{
    put_u1(out, 1)?;
    put_cause(alloc, cause, out)?;
    Ok(())
}

fn put_outcome(alloc: Global, outcome: &Outcome, out: &mut Bytes) -> Result<(), Memory>
    requires { IsOutcome 2 outcome.now }
    ensures { OnOk result (out.new ≡ out.old ++ outcome_bytes 2 outcome.now) }
{
    match outcome {
        Outcome::Passed => put_u1(out, 0),
        Outcome::Failed(cause) => put_failed(alloc, cause, out),
        Outcome::TimedOut => put_u1(out, 2),
        Outcome::MemoryOut => put_u1(out, 3),
    }
}

// The number of a class that stands there; 0 where there is none.
fn number_of(numbers: &ClassNumbers, class: &Option<SharedBytes>) -> u32
    requires { number_of numbers.now class.now ≤ length numbers.now }
    ensures { result ≡ number_of numbers.now class.now }
{
    match class {
        None => 0,
        Some(class) => match numbers.number(class.as_slice()) {
            Some(number) => number,
            None => 0,
        },
    }
}

#[tactic(auto, using(crate::proofs::Putting::then_written))]
fn put_entry(
    alloc: Global,
    numbers: &ClassNumbers,
    entry: &(Name, Option<SharedBytes>),
    out: &mut Bytes,
) -> Result<(), Memory>
    requires { IsWritten numbers.now entry.now }
    ensures { OnOk result (out.new ≡ out.old ++ entry_bytes numbers.now entry.now) }
{
    put_name(alloc, &entry.0, out)?;
    let number = number_of(numbers, &entry.1);
    put_u4(out, number)?;
    Ok(())
}

fn put_each_entry(
    alloc: Global,
    numbers: &ClassNumbers,
    entries: &[(Name, Option<SharedBytes>)],
    out: &mut Bytes,
) -> Result<(), Memory>
    requires { All (IsWritten numbers.now) entries.now }
    ensures { OnOk result (out.new ≡ out.old ++ flat_map (entry_bytes numbers.now) entries.now) }
{
    for entry in entries {
        put_entry(alloc, numbers, entry, out)?;
    }
    Ok(())
}

#[tactic(auto, using(crate::proofs::Putting::then_written))]
fn put_entries(
    alloc: Global,
    numbers: &ClassNumbers,
    entries: &[(Name, Option<SharedBytes>)],
    out: &mut Bytes,
) -> Result<(), Memory>
    requires few { length entries.now < 2 ^ 32 }
    requires each { All (IsWritten numbers.now) entries.now }
    ensures { OnOk result
        (out.new ≡ out.old ++ counted_bytes (entry_bytes numbers.now) entries.now) }
{
    put_u4(out, entries.len() as u32)?;
    put_each_entry(alloc, numbers, entries, out)?;
    Ok(())
}

fn put_each_pair(pairs: &[(u32, u16)], out: &mut Bytes) -> Result<(), Memory>
    ensures { OnOk result (out.new ≡ out.old ++ flat_map pair_bytes pairs.now) }
{
    for pair in pairs {
        put_u4(out, pair.0)?;
        put_u2(out, pair.1)?;
    }
    Ok(())
}

#[tactic(auto, using(crate::proofs::Putting::then_written))]
fn put_pairs(pairs: &[(u32, u16)], out: &mut Bytes) -> Result<(), Memory>
    requires { length pairs.now < 2 ^ 32 }
    ensures { OnOk result (out.new ≡ out.old ++ counted_bytes pair_bytes pairs.now) }
{
    put_u4(out, pairs.len() as u32)?;
    put_each_pair(pairs, out)?;
    Ok(())
}

/// The record, behind what is there.
pub fn put_record(
    alloc: Global,
    numbers: &ClassNumbers,
    r: &RunRecord,
    out: &mut Bytes,
) -> Result<(), Memory>
    requires form { IsFormed r.now }
    requires numbers { HasNumbers numbers.now r.now }
    ensures { OnOk result (out.new ≡ out.old ++ record_bytes 2 numbers.now r.now) }
{
    put_name(alloc, &r.test_class, out)?;
    put_name(alloc, &r.test_method, out)?;
    put_u4(out, r.heap)?;
    put_u4(out, r.depth)?;
    put_u8(out, r.limit)?;
    put_outcome(alloc, &r.outcome, out)?;
    put_u8(out, r.steps)?;
    put_entries(alloc, numbers, r.consulted.as_slice(), out)?;
    put_pairs(r.reached.as_slice(), out)?;
    Ok(())
}
