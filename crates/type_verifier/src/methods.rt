//! The first fault of a method (JVMS 4.6, 4.10.1).

ghost use Rattle.std.specs.Prelude.{◌≡◌, IfOk, OnOk};
ghost use Rattle.type_verifier.specs.ProgramTables.{AreTables, HasShortCode};
ghost use Rattle.type_verifier.specs.ProgramHeads.{Meets};
ghost use Rattle.type_verifier.specs.Methods.{BodyIs, BodyFaultIs, HeadIs, HeadBehind, FaultBehind};

use crate::codes::code_fault;
use crate::heads::Heads;
use crate::tables::Tables;
use crate::{Fault, Own};
use class_link::{LinkedBody, LinkedMethod};
use class_model::Memory;
use class_model::flags::{is_abstract, is_native};

fn has_code(body: &LinkedBody) -> bool
    ensures { BodyIs body.now result }
{
    match body {
        LinkedBody::Code(_) => true,
        LinkedBody::Native(_) => false,
        LinkedBody::Absent => false,
    }
}

/// Whether a method isn't native, and has code exactly where it isn't abstract (rule 1).
pub fn has_right_body(method: &LinkedMethod) -> bool
    ensures { HeadIs method.now result }
{
    if is_native(method.flags) {
        return false;
    }
    is_abstract(method.flags) != has_code(&method.body)
}

// The same, and the method is the first of its name and descriptor, where all before it were met
// (rule 1).
fn has_right_head(heads: &mut Heads, method: &LinkedMethod) -> Result<bool, Memory>
    ensures heads { OnOk result (Meets heads.old heads.new method.now) }
    ensures right { IfOk result (HeadBehind heads.old method.now) }
{
    let first = heads.meet(method)?;
    if !first {
        return Ok(false);
    }
    Ok(has_right_body(method))
}

/// The first fault of a method's code; none, where it has no code.
pub fn body_fault(
    own: &Own,
    tables: &mut Tables,
    method: &LinkedMethod,
) -> Result<Option<Fault>, Memory>
    requires tables { AreTables own.now tables.old }
    requires short { HasShortCode method.now }
    ensures tables { OnOk result (AreTables own.now tables.new) }
    ensures fault { IfOk result (BodyFaultIs own.now method.now) }
{
    match &method.body {
        LinkedBody::Code(code) => {
            let fault = code_fault(own, tables, method, code)?;
            Ok(fault)
        }
        LinkedBody::Native(_) => Ok(None),
        LinkedBody::Absent => Ok(None),
    }
}

/// The first fault of the next method of a class, where all before it were met.
pub fn method_fault(
    own: &Own,
    tables: &mut Tables,
    heads: &mut Heads,
    method: &LinkedMethod,
) -> Result<Option<Fault>, Memory>
    requires tables { AreTables own.now tables.old }
    requires short { HasShortCode method.now }
    ensures tables { OnOk result (AreTables own.now tables.new) }
    ensures heads { OnOk result (Meets heads.old heads.new method.now) }
    ensures fault { IfOk result (FaultBehind own.now heads.old method.now) }
{
    let right = has_right_head(heads, method)?;
    if !right {
        return Ok(Some(Fault { at: 0, rule: 1 }));
    }
    let fault = body_fault(own, tables, method)?;
    Ok(fault)
}
