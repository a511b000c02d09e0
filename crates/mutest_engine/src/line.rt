//! The parts of the lines that tell refusals and faults.

ghost use Rattle.std.specs.Prelude.{◌≡◌, ◌++◌, IfOk, OnOk, decimal};
ghost use Rattle.class_model.specs.Fault.{number_of};
ghost use Rattle.mutator_ops.specs.Printing.{printed};
ghost use Rattle.mutest_engine.specs.Lines.{fault_text, outcome_name, named_line, count_text, not_green_line, not_green_lines};

use class_model::{Bytes, ClassFault, Memory, Name, Outcome};
use std::alloc::Global;

fn outcome_name(outcome: &Outcome) -> &'static str
    ensures { result.now ≡ outcome_name outcome.now }
{
    match outcome {
        Outcome::Passed => "Passed",
        Outcome::Failed(_) => "Failed",
        Outcome::TimedOut => "TimedOut",
        Outcome::MemoryOut => "MemoryOut",
    }
}

/// Puts a text at the end.
pub fn put_str(text: &mut Bytes, piece: &str) -> Result<(), Memory>
    ensures { OnOk result (text.new ≡ text.old ++ piece.now) }
{
    text.extend_from_slice(piece.as_bytes())
}

/// Puts a name at the end, in UTF-8.
pub fn put_name(alloc: Global, text: &mut Bytes, name: &Name) -> Result<(), Memory>
    ensures { OnOk result (text.new ≡ text.old ++ printed name.now) }
{
    let printed = String::from_utf16_lossy(alloc, name.as_slice())?;
    text.extend_from_slice(printed.as_bytes())
}

/// Puts a number at the end, in decimal digits.
pub fn put_number(alloc: Global, text: &mut Bytes, number: u64) -> Result<(), Memory>
    ensures { OnOk result (text.new ≡ text.old ++ decimal number) }
{
    let digits = format!(in alloc; "{number}")?;
    put_str(text, digits.as_str())
}

/// Puts a line of a kind and what it names.
#[tactic(auto, unfolding(crate::specs::Lines::named_line))]
pub fn put_named(line: &mut Bytes, kind: &str, named: &[u8]) -> Result<(), Memory>
    ensures { OnOk result (line.new ≡ line.old ++ named_line kind.now named.now) }
{
    put_str(line, kind)?;
    line.extend_from_slice(named)?;
    put_str(line, "\n")
}

/// Puts a name and a number behind it.
pub fn put_count(alloc: Global, text: &mut Bytes, name: &str, number: u64) -> Result<(), Memory>
    ensures { OnOk result (text.new ≡ text.old ++ count_text name.now number) }
{
    put_str(text, name)?;
    put_str(text, " ")?;
    put_number(alloc, text, number)
}

// The number of a fault and its value.
fn fault_text(alloc: Global, fault: ClassFault) -> Result<Bytes, Memory>
    ensures { IfOk result (λ text. text ≡ fault_text fault (number_of fault)) }
{
    let mut text = Bytes::new(alloc);
    if let Some(number) = fault.number() {
        put_str(&mut text, " ")?;
        put_number(alloc, &mut text, u64::from(number))?;
        put_count(alloc, &mut text, "", fault.value())?;
    }
    Ok(text)
}

/// A path and the fault of the class file there.
pub fn class_text(alloc: Global, path: &[u8], fault: ClassFault) -> Result<Bytes, Memory>
    ensures { IfOk result (λ text. text ≡ path.now ++ fault_text fault (number_of fault)) }
{
    let fault = fault_text(alloc, fault)?;
    let mut text = Bytes::from_slice(alloc, path)?;
    text.extend_from_slice(fault.as_slice())?;
    Ok(text)
}

// Puts the line of a test whose original run didn't pass.
#[tactic(auto, unfolding(crate::specs::Lines::not_green_line))]
fn put_not_green(lines: &mut Bytes, test: &(Bytes, Outcome)) -> Result<(), Memory>
    ensures { OnOk result (lines.new ≡ lines.old ++ not_green_line test.now) }
{
    put_str(lines, "mutest: NotGreen ")?;
    lines.extend_from_slice(test.0.as_slice())?;
    put_named(lines, " ", outcome_name(&test.1).as_bytes())
}

/// The lines of tests whose original runs didn't pass.
pub fn not_green_lines(alloc: Global, tests: &[(Bytes, Outcome)]) -> Result<Bytes, Memory>
    ensures { IfOk result (λ lines. lines ≡ not_green_lines tests.now) }
{
    let mut lines = Bytes::new(alloc);
    for test in tests {
        put_not_green(&mut lines, test)?;
    }
    Ok(lines)
}
