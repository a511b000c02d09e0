//! Which method a call of an instance's method runs (JVMS 5.4.6, 6.5).

ghost use Rattle.std.specs.Prelude.{◌<◌, length, IfOk};
ghost use Rattle.class_family.specs.Above.{AreWithin};
ghost use Rattle.jvm_link.specs.Answers.{named, AnswersOne, FirstVirtual, HasCallee, SelectsAbove, SelectsNamed, SelectsOf, VirtualOf};
ghost use Rattle.jvm_link.specs.Overriding.{FirstOver};
ghost use Rattle.jvm_link.specs.declared.site.Callee.TheVariants.{Method};

use crate::family::{lowest, search};
use crate::heads::flags_at;
use crate::interfaces::{Search, Specific};
use crate::methods::declared_method;
use crate::overriding::overriding_site;
use crate::site::{Callee, Site};
use class_family::superclass;
use class_link::MethodRef;
use class_model::flags::{is_open, is_private, is_static};
use class_model::{ClassId, Memory};
use class_table::Program;
use program_rules::Fault;

// The method that a class declares, where it isn't static.
fn virtual_site(program: &Program, class: ClassId, reference: &MethodRef) -> Option<Site>
    requires { class.0 < length program.now }
    ensures { VirtualOf program.now class.0 (named reference.now) result }
{
    let Some(place) = declared_method(program, class, &reference.name, &reference.desc) else {
        return None;
    };
    if is_static(flags_at(program, class, place)) {
        return None;
    }
    Some(Site { class, place })
}

// The first of a class and its superclasses that isn't static.
fn first_virtual(program: &Program, start: ClassId, reference: &MethodRef) -> Option<Site>
    requires { start.0 < length program.now }
    ensures { FirstVirtual program.now start.0 (named reference.now) result }
{
    let _len = program.len();
    let mut next = Some(start);
    while let Some(class) = next {
        if let Some(site) = virtual_site(program, class, reference) {
            return Some(site);
        }
        next = superclass(program, class);
    }
    None
}

// The one maximally-specific method that isn't abstract.
fn the_one(specific: Specific) -> Result<Callee, Fault>
    ensures { AnswersOne specific result }
{
    match specific {
        Specific::Missing => Err(Fault::AbstractMethodError),
        Specific::One(site) => Ok(Callee::Method(site)),
        Specific::Several => Err(Fault::IncompatibleClassChangeError),
    }
}

// What the superinterfaces give.
fn select_above(
    program: &Program,
    searching: &mut Search,
    id: ClassId,
    array: bool,
    reference: &MethodRef,
) -> Result<Result<Callee, Fault>, Memory>
    requires { id.0 < length program.now }
    ensures { IfOk result (λ a. SelectsAbove program.now id.0 array (named reference.now) a) }
{
    search(program, &mut searching.family, id, array)?;
    let choice = searching.choose(program, id, array, &reference.name, &reference.desc)?;
    Ok(the_one(choice.specific))
}

/// The method that an object of this class, or an array of it, runs for `invokeinterface`, and the
/// one that `invokespecial` runs from this superclass on: the first of that name and descriptor in
/// the class and its superclasses that isn't static, else the one maximally-specific method of the
/// superinterfaces that isn't abstract. None of these is AbstractMethodError, several are
/// IncompatibleClassChangeError.
pub fn select_named(
    program: &Program,
    searching: &mut Search,
    id: ClassId,
    array: bool,
    reference: &MethodRef,
) -> Result<Result<Callee, Fault>, Memory>
    requires { id.0 < length program.now }
    ensures { IfOk result (λ a. SelectsNamed program.now id.0 array (named reference.now) a) }
{
    let start = lowest(program, id, array);
    if let Some(site) = first_virtual(program, start, reference) {
        return Ok(Ok(Callee::Method(site)));
    }
    let answer = select_above(program, searching, id, array, reference)?;
    Ok(answer)
}

// The first of a class and its superclasses that declares the resolved method or overrides it.
fn first_overriding(
    program: &Program,
    classes: &[u32],
    start: ClassId,
    reference: &MethodRef,
    over: ClassId,
    wide: bool,
) -> Option<Site>
    requires classes { AreWithin program.now classes.now }
    requires start { start.0 < length program.now }
    requires over { over.0 < length program.now }
    ensures { FirstOver program.now (named reference.now) over.0 wide classes.now start.0 result }
{
    let _len = program.len();
    let mut shut = false;
    let mut next = Some(start);
    while let Some(class) = next {
        if let Some(site) = overriding_site(
            program, classes, class, reference, over, wide, &mut shut,
        ) {
            return Some(site);
        }
        next = superclass(program, class);
    }
    None
}

// What a resolved method of a class selects.
fn select_of(
    program: &Program,
    searching: &mut Search,
    id: ClassId,
    array: bool,
    reference: &MethodRef,
    site: Site,
) -> Result<Result<Callee, Fault>, Memory>
    requires class { id.0 < length program.now }
    requires site { site.class.0 < length program.now }
    ensures { IfOk result (SelectsOf program.now id.0 array (named reference.now) (Method site)) }
{
    let _len = program.len();
    let flags = flags_at(program, site.class, site.place);
    if is_private(flags) {
        return Ok(Ok(Callee::Method(site)));
    }
    search(program, &mut searching.family, id, array)?;
    let start = lowest(program, id, array);
    let wide = is_open(flags);
    let classes = searching.family.classes();
    if let Some(found) = first_overriding(program, classes, start, reference, site.class, wide) {
        return Ok(Ok(Callee::Method(found)));
    }
    let answer = select_above(program, searching, id, array, reference)?;
    Ok(answer)
}

/// The method that an object of this class, or an array of it, runs for `invokevirtual`, where the
/// reference was resolved to this method. A private method is itself, and so is an array's `clone`;
/// else it is the first of the class and its superclasses that declares the resolved method or
/// overrides it, across packages only where it is public or protected, itself or by a class between
/// them; else what the superinterfaces give, as for `invokeinterface`.
pub fn select_virtual(
    program: &Program,
    searching: &mut Search,
    id: ClassId,
    array: bool,
    reference: &MethodRef,
    resolved: Callee,
) -> Result<Result<Callee, Fault>, Memory>
    requires class { id.0 < length program.now }
    requires resolved { HasCallee program.now resolved }
    ensures { IfOk result (λ a. SelectsOf program.now id.0 array (named reference.now) resolved a) }
{
    match resolved {
        Callee::Method(site) => select_of(program, searching, id, array, reference, site),
        Callee::ArrayClone => Ok(Ok(Callee::ArrayClone)),
    }
}
