//! Calls of `jvm_link`, each with the contract of the function that it calls. A body that such a
//! contract refuses here, it refuses there too.

ghost use Rattle.std.specs.Prelude.{◌<◌, length, IfOk, IfSome};
ghost use Rattle.jvm_link.specs.Answers.{named, HasCallee, ResolvesMethod, SelectsNamed, SelectsOf};

use class_link::{LinkedMethod, MethodRef};
use class_model::{ClassId, Memory};
use class_table::Program;
use jvm_link::{Callee, Search, Site, first_declared};
use program_rules::Fault;

/// `resolve_method`
pub fn resolve_method(
    program: &Program,
    searching: &mut Search,
    id: ClassId,
    reference: &MethodRef,
) -> Result<Result<Callee, Fault>, Memory>
    requires { id.0 < length program.now }
    ensures { IfOk result (λ a. ResolvesMethod program.now id.0 (named reference.now) a) }
{
    let answer = jvm_link::resolve_method(program, searching, id, reference)?;
    Ok(answer)
}

/// `select_named`
pub fn select_named(
    program: &Program,
    searching: &mut Search,
    id: ClassId,
    array: bool,
    reference: &MethodRef,
) -> Result<Result<Callee, Fault>, Memory>
    requires { id.0 < length program.now }
    ensures { IfOk result (λ a. SelectsNamed program.now id.0 array (named reference.now) a) }
{
    let selected = jvm_link::select_named(program, searching, id, array, reference)?;
    Ok(selected)
}

/// `select_virtual`
pub fn select_virtual(
    program: &Program,
    searching: &mut Search,
    id: ClassId,
    array: bool,
    reference: &MethodRef,
    resolved: Callee,
) -> Result<Result<Callee, Fault>, Memory>
    requires class { id.0 < length program.now }
    requires resolved { HasCallee program.now resolved }
    ensures { IfOk result (λ a. SelectsOf program.now id.0 array (named reference.now) resolved a) }
{
    let found = jvm_link::select_virtual(program, searching, id, array, reference, resolved)?;
    Ok(found)
}

// ---- what wrong bodies ask

/// The method at a site, if there is one.
pub fn method_at(program: &Program, site: Site) -> Option<&LinkedMethod> {
    program.get(site.class)?.linked().methods.get(site.place)
}

/// The flags of a method; none for an array's `clone`.
pub fn flags_of(program: &Program, callee: Callee) -> u16 {
    let Callee::Method(site) = callee else {
        return 0;
    };
    match method_at(program, site) {
        Some(method) => method.flags,
        None => 0,
    }
}

/// The first interface that a class names, or its superclass where it names none.
pub fn first_above(program: &Program, id: ClassId) -> Option<ClassId>
    ensures { IfSome result (λ up. up.0 < length program.now) }
{
    if id.0 as usize >= program.len() {
        return None;
    }
    match program.links(id).interfaces.get(0) {
        Some(up) => {
            if *up as usize >= program.len() {
                return None;
            }
            Some(ClassId(*up))
        }
        None => class_family::superclass(program, id),
    }
}

/// The first method of a class and those above it with a reference's name and descriptor, whatever
/// its flags are.
pub fn first_of(program: &Program, id: ClassId, reference: &MethodRef) -> Option<Callee>
    requires { id.0 < length program.now }
{
    let Some(site) = first_declared(program, id, &reference.name, &reference.desc) else {
        return None;
    };
    Some(Callee::Method(site))
}

/// The first method that a class declares.
pub fn lowest_of(id: ClassId) -> Callee {
    Callee::Method(Site {
        class: id,
        place: 0,
    })
}
