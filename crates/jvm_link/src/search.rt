//! What a reference resolves to in the class that it names.

ghost use Rattle.std.specs.Prelude.{◌≡◌, ◌<◌, ℕ, List, length, IfOk, OnOk};
ghost use Rattle.program_rules.specs.Names.{is_array_name};
ghost use Rattle.class_table.specs.Seen.{IsConsultedOf};
ghost use Rattle.jvm_link.specs.Named.{Consults, IsClassNamed, ResolvesClass};
ghost use Rattle.jvm_link.specs.References.{ResolvesFieldRef, ResolvesMethodRef};

use crate::{Callee, Search, Site, resolve_class};
use class_link::names::is_array_name;
use class_link::{FieldRef, MethodRef, Shared};
use class_model::{ClassId, Memory, Name};
use class_table::{Consulted, Program};
use program_rules::Fault;
use std::alloc::Global;

// Whether a reference names an array.
fn names_array(reference: &FieldRef) -> bool
    ensures { result ≡ is_array_name reference.now.class }
{
    is_array_name(reference.class.as_slice())
}

/// Consults a class that a name stands for: a look at its mark, where it was consulted before.
#[tactic(auto, using(crate::proofs::Finding::consults))]
pub fn consult(program: &Program, seen: &mut Consulted, id: ClassId) -> Result<(), Memory>
    requires class { id.0 < length program.now }
    requires seen { IsConsultedOf program.now seen.old }
    ensures { OnOk result ((n : List ℕ) → IsClassNamed program.now n id →
        Consults program.now n seen.old seen.new) }
{
    program.consult(seen, id)?;
    Ok(())
}

/// The class that a reference names, which is consulted.
#[tactic(auto, using(crate::proofs::Finding::class_moved, crate::proofs::Finding::consults_moved))]
pub fn class_of(
    alloc: Global,
    program: &Program,
    seen: &mut Consulted,
    name: &Shared<Name>,
) -> Result<Result<ClassId, Fault>, Memory>
    requires { IsConsultedOf program.now seen.old }
    ensures class { IfOk result (λ a. ResolvesClass program.now name.now a) }
    ensures consults { OnOk result (Consults program.now name.now seen.old seen.new) }
{
    let answer = resolve_class(alloc, program, seen, name)?;
    Ok(answer)
}

/// The field that a reference resolves to in the class that it names (JVMS 5.4.3.2). An array has
/// none.
#[tactic(auto, using(crate::proofs::Finding::array_field, crate::proofs::Finding::no_field, crate::proofs::Finding::field_searched))]
pub fn resolve_field(
    program: &Program,
    searching: &mut Search,
    id: ClassId,
    reference: &FieldRef,
) -> Result<Result<Site, Fault>, Memory>
    requires { IsClassNamed program.now reference.now.class id }
    ensures { IfOk result (λ a. ResolvesFieldRef program.now reference.now a) }
{
    if names_array(reference) {
        return Ok(Err(Fault::NoSuchFieldError));
    }
    let walker = &mut searching.family;
    match crate::resolve_field(program, walker, id, &reference.name, &reference.desc)? {
        Some(site) => Ok(Ok(site)),
        None => Ok(Err(Fault::NoSuchFieldError)),
    }
}

/// The method that a reference resolves to in the class that it names (JVMS 5.4.3.3, 5.4.3.4).
#[tactic(auto, using(crate::proofs::Finding::method_searched))]
pub fn resolve_method(
    program: &Program,
    searching: &mut Search,
    id: ClassId,
    reference: &MethodRef,
) -> Result<Result<Callee, Fault>, Memory>
    requires { IsClassNamed program.now reference.now.class id }
    ensures { IfOk result (λ a. ResolvesMethodRef program.now reference.now a) }
{
    let answer = crate::resolve_method(program, searching, id, reference)?;
    Ok(answer)
}
