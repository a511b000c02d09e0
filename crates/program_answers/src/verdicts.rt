//! Which classes of a program are accepted.

ghost use Rattle.std.specs.Prelude.{◌≡◌, ◌<◌, length};
ghost use Rattle.class_table.specs.Table.{look};
ghost use Rattle.type_verifier.specs.Programs.{AreNumbered, IsLibraryAccepted};

use class_model::{ClassId, Memory, Name};
use class_table::Program;
use std::alloc::Global;
use type_verifier::{VerifyEnd, VerifyFault, is_numbered, verify_class, verify_library};

/// How many classes are accepted, and the first fault of each other one.
#[derive(Drop)]
pub struct Verdicts {
    pub accepted: u64,
    pub refused: Vec<VerifyFault>,
}

fn verify_each(alloc: Global, program: &Program) -> Result<Verdicts, Memory>
    requires numbered { AreNumbered program.now }
    requires library { IsLibraryAccepted (look program.now) }
{
    let mut verdicts = Verdicts {
        accepted: 0,
        refused: Vec::new(alloc),
    };
    let count = program.len() as u32;
    for id in 0..count {
        let id = ClassId(id);
        if program.file_class(id).is_none() {
            continue;
        }
        match verify_class(alloc, program, id) {
            Ok(()) => verdicts.accepted = verdicts.accepted.saturating_add(1),
            Err(VerifyEnd::Refused(fault)) => verdicts.refused.push(fault)?,
            Err(VerifyEnd::Memory) => return Err(Memory),
        }
    }
    Ok(verdicts)
}

/// Verifies each class of a program that is of a class file.
pub fn verdicts_of(alloc: Global, program: &Program) -> anyhow::Result<Verdicts> {
    if !is_numbered(program) {
        anyhow::bail!("a code has too many instructions");
    }
    if verify_library(alloc, program).is_err() {
        anyhow::bail!("the library is refused");
    }
    Ok(verify_each(alloc, program)?)
}

fn text_of(alloc: Global, name: &Name) -> Result<String, Memory> {
    Ok(String::from_utf16_lossy(alloc, name.as_slice())?)
}

/// Which class is refused, at which method and instruction, and by which rule.
pub fn refusal(alloc: Global, program: &Program, fault: &VerifyFault) -> anyhow::Result<String> {
    let (Some(class), Some(method)) = (
        program.get(fault.class),
        program.method(fault.class, fault.method),
    ) else {
        anyhow::bail!("no method has this fault");
    };
    let class = text_of(alloc, class.name())?;
    let name = text_of(alloc, &method.name)?;
    let desc = text_of(alloc, &method.desc)?;
    Ok(format!(in alloc;
        "{class}.{name} {desc} at {}: rule {}",
        fault.at, fault.rule
    )?)
}
