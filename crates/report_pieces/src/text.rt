//! The texts that name tests and mutants.

ghost use Rattle.std.specs.Prelude.{◌≡◌, IfOk, string_bytes};
ghost use Rattle.mutator_ops.specs.Printing.{printed, id_text};
ghost use Rattle.library_rules.specs.Objects.{dotted};
ghost use Rattle.report_schema.specs.Report.{test_id};

use class_model::{Memory, Name};
use class_table::Test;
use lib_lang::dotted;
use mutator_ops::Mutant;
use std::alloc::Global;

/// A name in UTF-8.
pub fn printed(alloc: Global, name: &Name) -> Result<String, Memory>
    ensures { IfOk result (λ text. string_bytes text ≡ printed name.now) }
{
    Ok(String::from_utf16_lossy(alloc, name.as_slice())?)
}

/// The name of a class in UTF-8, with `.` for `/`.
pub fn class_text(alloc: Global, class: &Name) -> Result<String, Memory>
    ensures { IfOk result (λ text. string_bytes text ≡ printed (dotted class.now)) }
{
    let dotted = dotted(alloc, class.as_slice())?;
    let text = printed(alloc, &dotted)?;
    Ok(text)
}

/// The identifier of a test: class, `.`, method.
pub fn test_id(alloc: Global, test: &Test) -> Result<String, Memory>
    ensures { IfOk result (λ id. string_bytes id ≡ test_id test.now) }
{
    let mut id = printed(alloc, &test.class)?;
    let method = printed(alloc, &test.method)?;
    id.push_str(".")?;
    id.push_str(method.as_str())?;
    Ok(id)
}

/// The identifier of a mutant, as a text.
pub fn mutant_id(alloc: Global, mutant: &Mutant) -> Result<String, Memory>
    ensures { IfOk result (λ id. string_bytes id ≡ id_text mutant.now) }
{
    let mut id = printed(alloc, &mutant.class)?;
    let method = printed(alloc, &mutant.method)?;
    let desc = printed(alloc, &mutant.desc)?;
    let at = mutant.at;
    let number = format!(in alloc; "{at}")?;
    id.push_str(".")?;
    id.push_str(method.as_str())?;
    id.push_str(desc.as_str())?;
    id.push_str("@")?;
    id.push_str(number.as_str())?;
    id.push_str(":")?;
    id.push_str(mutant.mutator.name())?;
    Ok(id)
}
