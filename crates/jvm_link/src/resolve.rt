//! Resolution of methods and of interface methods (JVMS 5.4.3.3, 5.4.3.4).

ghost use Rattle.std.specs.Prelude.{◌≡◌, ◌<◌, length, IfOk};
ghost use Rattle.program_rules.specs.Names.{is_array_name};
ghost use Rattle.program_rules.specs.Outlines.{is_interface_class};
ghost use Rattle.program_rules.specs.Resolution.{same_bool, is_clone, is_initializer_name};
ghost use Rattle.jvm_link.specs.Candidates.{family_at};
ghost use Rattle.jvm_link.specs.Answers.{named, IsOfKind, AnswersFound, AnswersChoice, AnswersInitializer, ResolvesMethod, SearchesMethod};

use crate::family::{lowest, search};
use crate::heads::is_interface;
use crate::interfaces::{Choice, Search, Specific};
use crate::methods::{first_declared, own_method};
use crate::site::{Callee, Site};
use class_link::MethodRef;
use class_link::names::is_array_name;
use class_model::names::is_text;
use class_model::{ClassId, Memory};
use class_table::Program;
use program_rules::Fault;

// Whether a class is an interface, or isn't. An array is none.
fn is_interface_family(program: &Program, id: ClassId, array: bool) -> bool
    requires { id.0 < length program.now }
    ensures { result ≡ is_interface_class (family_at program.now id.0 array).class }
{
    if array {
        return false;
    }
    is_interface(program, id)
}

// Whether two answers are the same.
fn agree(one: bool, other: bool) -> bool
    ensures { result ≡ same_bool one other }
{
    if one { other } else { !other }
}

// Whether a class or an array is what a reference says of it: an interface, or none.
fn is_of_kind(program: &Program, id: ClassId, array: bool, interface: bool) -> bool
    requires { id.0 < length program.now }
    ensures { IsOfKind program.now id.0 array interface result }
{
    agree(is_interface_family(program, id, array), interface)
}

// Whether a reference names an array.
fn names_array(reference: &MethodRef) -> bool
    ensures { result ≡ is_array_name reference.now.class }
{
    is_array_name(reference.class.as_slice())
}

// Whether a reference names what an array has besides Object's methods.
fn is_clone(reference: &MethodRef) -> bool
    ensures { result ≡ is_clone (named reference.now) }
{
    is_array_name(reference.class.as_slice())
        && is_text(reference.name.as_slice(), b"clone")
        && is_text(reference.desc.as_slice(), b"()Ljava/lang/Object;")
}

// Whether a reference names an instance initializer (JVMS 2.9.1).
fn is_initializer(reference: &MethodRef) -> bool
    ensures { result ≡ is_initializer_name reference.now.name }
{
    is_text(reference.name.as_slice(), b"<init>")
}

// What a search answers that may have found a method.
fn found_or_none(site: Option<Site>) -> Result<Callee, Fault>
    ensures { AnswersFound site result }
{
    match site {
        Some(site) => Ok(Callee::Method(site)),
        None => Err(Fault::NoSuchMethodError),
    }
}

// `<init>` is searched in the named class alone, and an array has none.
fn own_initializer(
    program: &Program,
    id: ClassId,
    array: bool,
    reference: &MethodRef,
) -> Result<Callee, Fault>
    requires class { id.0 < length program.now }
    requires array { array ≡ is_array_name reference.now.class }
    ensures { AnswersInitializer program.now id.0 (named reference.now) result }
{
    if array {
        return Err(Fault::NoSuchMethodError);
    }
    found_or_none(own_method(program, id, &reference.name, &reference.desc))
}

// The one maximally-specific method that isn't abstract, else the first that may be chosen.
fn by_choice(choice: Choice) -> Result<Callee, Fault>
    ensures { AnswersChoice choice result }
{
    if let Specific::One(site) = choice.specific {
        return Ok(Callee::Method(site));
    }
    match choice.first {
        Some(site) => Ok(Callee::Method(site)),
        None => Err(Fault::NoSuchMethodError),
    }
}

// In a class and its superclasses, then in the superinterfaces.
fn search_method(
    program: &Program,
    searching: &mut Search,
    id: ClassId,
    array: bool,
    reference: &MethodRef,
) -> Result<Result<Callee, Fault>, Memory>
    requires { id.0 < length program.now }
    ensures { IfOk result (λ a. SearchesMethod program.now id.0 array (named reference.now) a) }
{
    let _len = program.len();
    let start = lowest(program, id, array);
    if let Some(site) = first_declared(program, start, &reference.name, &reference.desc) {
        return Ok(Ok(Callee::Method(site)));
    }
    search(program, &mut searching.family, id, array)?;
    let choice = searching.choose(program, id, array, &reference.name, &reference.desc)?;
    Ok(by_choice(choice))
}

/// The method that a reference to a method of a class or an interface is resolved to, where it
/// names this class, or an array of it. A class where the reference says that it names an
/// interface, or the reverse, is IncompatibleClassChangeError. `<init>` is searched in the class
/// alone; an array has Object's methods and its own `clone`; all else is searched in the class and
/// its superclasses, then in the superinterfaces: the one maximally-specific method that isn't
/// abstract, else the first that is neither private nor static, else NoSuchMethodError.
pub fn resolve_method(
    program: &Program,
    searching: &mut Search,
    id: ClassId,
    reference: &MethodRef,
) -> Result<Result<Callee, Fault>, Memory>
    requires { id.0 < length program.now }
    ensures { IfOk result (λ a. ResolvesMethod program.now id.0 (named reference.now) a) }
{
    let array = names_array(reference);
    if !is_of_kind(program, id, array, reference.interface) {
        return Ok(Err(Fault::IncompatibleClassChangeError));
    }
    if is_clone(reference) {
        return Ok(Ok(Callee::ArrayClone));
    }
    if is_initializer(reference) {
        return Ok(own_initializer(program, id, array, reference));
    }
    let answer = search_method(program, searching, id, array, reference)?;
    Ok(answer)
}
