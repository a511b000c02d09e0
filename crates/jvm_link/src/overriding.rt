//! The method of a class that overrides a resolved one (JVMS 5.4.5).

ghost use Rattle.std.specs.Prelude.{◌≡◌, ◌<◌, length};
ghost use Rattle.class_family.specs.Above.{AreWithin};
ghost use Rattle.jvm_link.specs.Candidates.{can_choose};
ghost use Rattle.jvm_link.specs.Answers.{named};
ghost use Rattle.jvm_link.specs.Overriding.{can_open, is_opened_at, StandsAbove, SharesPackage, Declares, OpensAt, IsShut, StandsBelow, Reach, Takes};

use crate::heads::flags_at;
use crate::interfaces::can_choose;
use crate::methods::declared_method;
use crate::site::Site;
use crate::text::same_package;
use class_family::class_at;
use class_link::MethodRef;
use class_model::ClassId;
use class_model::flags::is_open;
use class_table::Program;

// Whether a class stands above another one.
fn stands_above(program: &Program, class: ClassId, over: ClassId) -> bool
    requires class { class.0 < length program.now }
    requires over { over.0 < length program.now }
    ensures { StandsAbove program.now class.0 over.0 result }
{
    let _len = program.len();
    if class.0 == over.0 {
        return false;
    }
    program.is_subtype(class, over)
}

// Whether two classes are of one package.
fn shares_package(program: &Program, class: ClassId, other: ClassId) -> bool
    requires class { class.0 < length program.now }
    requires other { other.0 < length program.now }
    ensures { SharesPackage program.now class.0 other.0 result }
{
    same_package(
        program.info(class).name().as_slice(),
        program.info(other).name().as_slice(),
    )
}

// Whether a class declares such a method, and it is neither private nor static.
fn declares_choice(program: &Program, class: ClassId, reference: &MethodRef) -> bool
    requires { class.0 < length program.now }
    ensures { Declares program.now (named reference.now) can_choose class.0 result }
{
    match declared_method(program, class, &reference.name, &reference.desc) {
        Some(place) => can_choose(flags_at(program, class, place)),
        None => false,
    }
}

// Whether a class declares such a method, and it is public or protected.
fn declares_open(program: &Program, class: ClassId, reference: &MethodRef) -> bool
    requires { class.0 < length program.now }
    ensures { Declares program.now (named reference.now) can_open class.0 result }
{
    match declared_method(program, class, &reference.name, &reference.desc) {
        Some(place) => can_open(flags_at(program, class, place)),
        None => false,
    }
}

fn can_open(flags: u16) -> bool
    ensures { result ≡ can_open flags }
{
    can_choose(flags) && is_open(flags)
}

// Whether a class opens a method of a class above it, of its package.
fn opens(program: &Program, class: ClassId, reference: &MethodRef, over: ClassId) -> bool
    requires class { class.0 < length program.now }
    requires over { over.0 < length program.now }
    ensures { OpensAt program.now (named reference.now) over.0 class.0 result }
{
    declares_open(program, class, reference)
        && (shares_package(program, class, over) && stands_above(program, class, over))
}

// Whether a class below another one declares a method that may override one of it.
fn stands_below(program: &Program, class: ClassId, reference: &MethodRef, over: ClassId) -> bool
    requires class { class.0 < length program.now }
    requires over { over.0 < length program.now }
    ensures { StandsBelow program.now (named reference.now) over.0 class.0 result }
{
    declares_choice(program, class, reference) && stands_above(program, class, over)
}

// Whether a class above this one opens a method.
fn is_opened(
    program: &Program,
    classes: &[u32],
    class: ClassId,
    reference: &MethodRef,
    over: ClassId,
) -> bool
    requires classes { AreWithin program.now classes.now }
    requires class { class.0 < length program.now }
    requires over { over.0 < length program.now }
    ensures { result ≡ is_opened_at program.now (named reference.now) over.0 classes.now class.0 }
{
    let mut at = 0;
    while at < classes.len() {
        let number = class_at(classes, at);
        let other = ClassId(number);
        if opens(program, other, reference, over) && stands_above(program, class, other) {
            return true;
        }
        at += 1;
    }
    false
}

// Whether a class reaches a method of a class above it: the method is public or protected, or of
// its package, or opened. What was asked once of the last needn't be asked again further up.
fn reaches(
    program: &Program,
    classes: &[u32],
    class: ClassId,
    reference: &MethodRef,
    over: ClassId,
    wide: bool,
    shut: &mut bool,
) -> bool
    requires classes { AreWithin program.now classes.now }
    requires class { class.0 < length program.now }
    requires over { over.0 < length program.now }
    requires shut { IsShut program.now (named reference.now) over.0 classes.now class.0 shut.old }
    ensures reach { Reach program.now (named reference.now) over.0 wide classes.now class.0 result }
    ensures shut { IsShut program.now (named reference.now) over.0 classes.now class.0 shut.new }
{
    if wide || shares_package(program, class, over) {
        return true;
    }
    if *shut {
        return false;
    }
    let opened = is_opened(program, classes, class, reference, over);
    *shut = !opened;
    opened
}

/// The method of a class, if the class declares the resolved one or overrides it. `classes` are all
/// of the object's family; `wide` says that the resolved method is public or protected; `shut`,
/// that no class above this one is known to open it.
pub fn overriding_site(
    program: &Program,
    classes: &[u32],
    class: ClassId,
    reference: &MethodRef,
    over: ClassId,
    wide: bool,
    shut: &mut bool,
) -> Option<Site>
    requires classes { AreWithin program.now classes.now }
    requires class { class.0 < length program.now }
    requires over { over.0 < length program.now }
    requires shut { IsShut program.now (named reference.now) over.0 classes.now class.0 shut.old }
    ensures site { Takes program.now (named reference.now) over.0 wide classes.now class.0 result }
    ensures shut { IsShut program.now (named reference.now) over.0 classes.now class.0 shut.new }
{
    let _len = program.len();
    let Some(place) = declared_method(program, class, &reference.name, &reference.desc) else {
        return None;
    };
    if class.0 == over.0 {
        return Some(Site { class, place });
    }
    if !stands_below(program, class, reference, over) {
        return None;
    }
    if !reaches(program, classes, class, reference, over, wide, shut) {
        return None;
    }
    Some(Site { class, place })
}
