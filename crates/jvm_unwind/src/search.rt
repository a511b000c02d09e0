//! The search for a handler (JVMS 2.10).

ghost use Rattle.std.specs.Prelude.{◌≡◌, All, List, IfOk, OnOk};
ghost use Rattle.class_table.specs.Seen.{IsConsultedOf};
ghost use Rattle.program_rules.specs.Linked.{covers};
ghost use Rattle.class_link.specs.Info.{Info};
ghost use Rattle.jvm_unwind.specs.Rows.{catch_row_of, IsCatch, IsCatchRow};
ghost use Rattle.jvm_unwind.specs.Searches.{IsThrown, IsListedAs, Tests, Takes, Finds};
ghost use Rattle.jvm_unwind.specs.declared.row.Catch.TheVariants.{Class};

use crate::row::{Catch, CatchRow};
use class_model::{ClassId, Memory};
use class_table::{Consulted, Program};

// Whether a class stands above what is thrown, or is its class.
fn is_above(program: &Program, class: ClassId, thrown: Option<ClassId>) -> bool
    requires class { IsCatch program.now (Class class) }
    requires thrown { IsThrown program.now thrown }
    ensures { IsListedAs program.now thrown class.0 result }
{
    match thrown {
        Some(thrown) => program.is_subtype(thrown, class),
        None => false,
    }
}

// Consults a class, and says whether it stands above what is thrown.
fn tests_class(
    program: &Program,
    seen: &mut Consulted,
    class: ClassId,
    thrown: Option<ClassId>,
) -> Result<bool, Memory>
    requires class { IsCatch program.now (Class class) }
    requires thrown { IsThrown program.now thrown }
    requires seen { IsConsultedOf program.now seen.old }
    ensures tests { IfOk result (λ b. Tests program.now thrown (Class class) seen.old b seen.new) }
    ensures kept { OnOk result (IsConsultedOf program.now seen.new) }
{
    program.consult(seen, class)?;
    Ok(is_above(program, class, thrown))
}

impl Catch {
    /// Consults the class that is named, and says whether the row catches an object of this class.
    pub fn catches(
        &self,
        program: &Program,
        seen: &mut Consulted,
        thrown: Option<ClassId>,
    ) -> Result<bool, Memory>
        requires catch { IsCatch program.now self.now }
        requires thrown { IsThrown program.now thrown }
        requires seen { IsConsultedOf program.now seen.old }
        ensures tests { IfOk result (λ b. Tests program.now thrown self.now seen.old b seen.new) }
        ensures kept { OnOk result (IsConsultedOf program.now seen.new) }
    {
        match self {
            Catch::All => Ok(true),
            Catch::Class(class) => tests_class(program, seen, *class, thrown),
            Catch::Nothing { behind, .. } => {
                program.consult_name(seen, behind)?;
                Ok(false)
            }
        }
    }
}

impl CatchRow {
    // Whether the row covers an instruction.
    fn covers(&self, at: usize) -> bool
        ensures { (p : List Info) → result ≡ covers at (catch_row_of p self.now) }
    {
        self.start as usize <= at && at < self.end as usize
    }

    // Whether the row covers an instruction and catches an object of this class. The class that it
    // names is consulted if it covers it.
    fn takes(
        &self,
        program: &Program,
        seen: &mut Consulted,
        at: usize,
        thrown: Option<ClassId>,
    ) -> Result<bool, Memory>
        requires row { IsCatchRow program.now self.now }
        requires thrown { IsThrown program.now thrown }
        requires seen { IsConsultedOf program.now seen.old }
        ensures row { IfOk result (λ b. Takes program.now thrown self.now at seen.old b seen.new) }
        ensures kept { OnOk result (IsConsultedOf program.now seen.new) }
    {
        if !self.covers(at) {
            return Ok(false);
        }
        let caught = self.catch.catches(program, seen, thrown)?;
        Ok(caught)
    }
}

/// The instruction that goes on with an object of this class that is thrown at an instruction,
/// where a row catches it: the first that covers the instruction and catches the class. The classes
/// that are tested are consulted. `None` is a class that the program doesn't have.
pub fn find_handler(
    program: &Program,
    seen: &mut Consulted,
    rows: &[CatchRow],
    at: usize,
    thrown: Option<ClassId>,
) -> Result<Option<u32>, Memory>
    requires rows { All (IsCatchRow program.now) rows.now }
    requires thrown { IsThrown program.now thrown }
    requires seen { IsConsultedOf program.now seen.old }
    ensures found { IfOk result (λ to. Finds program.now thrown rows.now at seen.old to seen.new) }
    ensures kept { OnOk result (IsConsultedOf program.now seen.new) }
{
    for row in rows {
        if row.takes(program, seen, at, thrown)? {
            return Ok(Some(row.handler));
        }
    }
    Ok(None)
}
