//! Resolution of classes and arrays (JVMS 5.4.3.1).

ghost use Rattle.std.specs.Prelude.{IfOk, OnOk};
ghost use Rattle.class_table.specs.Seen.{IsConsultedOf};
ghost use Rattle.jvm_link.specs.Named.{Consults, ResolvesClass};

use class_family::class_behind;
use class_model::{ClassId, Memory, Name};
use class_table::{Consulted, Program};
use program_rules::Fault;
use std::alloc::Global;

/// The class that a name stands for: its own, or that of an array's elements, which is Object for
/// primitive ones. It is consulted with all above it, each name once, where it is met first. Where
/// there is no such class it is consulted, too, and the answer is NoClassDefFoundError.
#[tactic(auto, using(crate::proofs::Naming::class_here, crate::proofs::Naming::class_missing))]
pub fn resolve_class(
    alloc: Global,
    program: &Program,
    seen: &mut Consulted,
    name: &Name,
) -> Result<Result<ClassId, Fault>, Memory>
    requires { IsConsultedOf program.now seen.old }
    ensures class { IfOk result (λ a. ResolvesClass program.now name.now a) }
    ensures consults { OnOk result (Consults program.now name.now seen.old seen.new) }
{
    let behind = class_behind(alloc, name)?;
    program.consult_name(seen, &behind)?;
    match program.find(&behind) {
        Some(id) => {
            let _class = program.info(id);
            Ok(Ok(id))
        }
        None => Ok(Err(Fault::NoClassDefFoundError)),
    }
}
