//! When one type may stand where another is stated (JVMS 4.10.1.2).

ghost use Rattle.std.specs.Prelude.{◌≡◌, ◌<◌, length};
ghost use Rattle.std.specs.Option.{option_map};
ghost use Rattle.program_rules.specs.Names.{same, object_name};
ghost use Rattle.type_rules.specs.References.{classes_of};
ghost use Rattle.type_rules.specs.Assignability.{takes_arrays, name_assignable};
ghost use Rattle.class_table.specs.Table.{look};
ghost use Rattle.vframes.specs.Named.{IsNamed, AreNamed, IsNumberOf, IsWithin, IsClosed, base as base_is, is_absent_base, is_array_base, class_number};
ghost use Rattle.vframes.specs.FrameView.{types_of};
ghost use Rattle.vframes.specs.Fits.{InterfaceIs, BelowIs, ClassFits, base_fits, type_fits, locals_fit, item_fits, stack_fits, frame_fits};

use crate::base::Base;
use crate::frame::Frame;
use crate::named::{Named, named_at};
use crate::slot_type::SlotType;
use crate::stack::Stack;
use class_model::names::is_text;
use class_model::{ClassId, Name, flags};
use class_table::Program;

fn is_object(name: &Name) -> bool
    ensures { result ≡ same name.now object_name }
{
    is_text(name.as_slice(), b"java/lang/Object")
}

// Whether each array is assignable to this class.
fn takes_arrays(name: &Name) -> bool
    ensures { result ≡ takes_arrays name.now }
{
    is_object(name)
        || is_text(name.as_slice(), b"java/lang/Cloneable")
        || is_text(name.as_slice(), b"java/io/Serializable")
}

/// Whether the class of a name is an interface, by its number.
#[tactic(auto, using(crate::proofs::Lookups::interface_is, crate::proofs::Lookups::no_interface))]
pub fn is_interface(program: &Program, class: Option<ClassId>) -> bool
    requires { IsWithin program.now class }
    ensures { InterfaceIs program.now class result }
{
    match class {
        Some(id) => flags::is_interface(program.info(id).linked().flags),
        None => false,
    }
}

/// Whether a class is another one or stands below it, by their numbers.
#[tactic(auto)]
pub fn is_below(program: &Program, class: ClassId, above: Option<ClassId>) -> bool
    requires class { class.0 < length program.now }
    requires above { IsWithin program.now above }
    requires closed { IsClosed program.now }
    ensures { BelowIs program.now class.0 above result }
{
    match above {
        Some(above) => program.is_subtype(class, above),
        None => false,
    }
}

// Whether a class is assignable to a class.
fn is_class_assignable(
    program: &Program,
    from: Option<ClassId>,
    name: &Name,
    to: Option<ClassId>,
) -> bool
    requires closed { IsClosed program.now }
    requires to { IsNumberOf program.now to name.now }
    requires to_within { IsWithin program.now to }
    requires from_within { IsWithin program.now from }
    ensures { ClassFits program.now from name.now result }
{
    if is_object(name) {
        return true;
    }
    let Some(class) = from else {
        return true;
    };
    if is_interface(program, to) {
        return true;
    }
    is_below(program, class, to)
}

// Whether it is a class that is absent.
#[tactic(auto, using(crate::proofs::Lookups::absent_is))]
fn is_absent_base(program: &Program, base: &Base, class: Option<ClassId>) -> bool
    requires class { option_map (λ id. id.0) class ≡ class_number program.now (base_is base.now) }
    requires within { IsWithin program.now class }
    ensures { result ≡ is_absent_base (classes_of (look program.now)) (base_is base.now) }
{
    match base {
        Base::Class(_) => class.is_none(),
        Base::Letter(_) => false,
    }
}

// Whether each array is assignable to it.
fn is_array_base(base: &Base) -> bool
    ensures { result ≡ is_array_base (base_is base.now) }
{
    match base {
        Base::Class(name) => takes_arrays(name),
        Base::Letter(_) => false,
    }
}

// Whether one is assignable to the other, of as many dimensions.
fn is_base_assignable(program: &Program, from: &Named, to: &Named) -> bool
    requires closed { IsClosed program.now }
    requires from { IsNamed program.now from.now }
    requires to { IsNamed program.now to.now }
    ensures { result ≡ base_fits program.now from.now.name to.now.name }
{
    match (&from.base, &to.base) {
        (Base::Class(_), Base::Class(name)) => {
            is_class_assignable(program, from.class, name, to.class)
        }
        (Base::Letter(letter), Base::Letter(other)) => *letter == *other,
        (Base::Class(_), Base::Letter(_)) => false,
        (Base::Letter(_), Base::Class(_)) => false,
    }
}

/// Whether a class or an array is assignable to another.
#[tactic(auto, using(crate::proofs::Bases::fewer, crate::proofs::Bases::more, crate::proofs::Bases::as_many, crate::proofs::Bases::by_bases))]
pub fn is_name_assignable(program: &Program, from: &Named, to: &Named) -> bool
    requires closed { IsClosed program.now }
    requires from { IsNamed program.now from.now }
    requires to { IsNamed program.now to.now }
    ensures { result ≡ name_assignable (classes_of (look program.now)) from.now.name to.now.name }
{
    if from.dimensions < to.dimensions {
        return is_absent_base(program, &from.base, from.class);
    }
    if from.dimensions > to.dimensions {
        return is_array_base(&to.base);
    }
    is_base_assignable(program, from, to)
}

/// Whether a type is assignable to another.
pub fn is_assignable(program: &Program, names: &[Named], from: SlotType, to: SlotType) -> bool
    requires { AreNamed program.now names.now }
    ensures { result ≡ type_fits program.now names.now from to }
{
    match (from, to) {
        (SlotType::Obj(from), SlotType::Obj(to)) => {
            is_name_assignable(program, named_at(names, from), named_at(names, to))
        }
        (SlotType::Null, SlotType::Obj(_)) => true,
        (_, SlotType::Top) => true,
        (SlotType::Int, SlotType::Int) => true,
        (SlotType::Long, SlotType::Long) => true,
        (SlotType::Null, SlotType::Null) => true,
        (SlotType::UninitThis, SlotType::UninitThis) => true,
        (SlotType::Uninit(at), SlotType::Uninit(other)) => at == other,
        (_, _) => false,
    }
}

// Whether each of these locals is assignable to the one beside it.
fn are_locals_assignable(
    program: &Program,
    names: &[Named],
    from: &[SlotType],
    to: &[SlotType],
) -> bool
    requires { AreNamed program.now names.now }
    ensures { result ≡ locals_fit program.now names.now from.now to.now }
{
    let mut items = from;
    let mut others = to;
    loop {
        let [item, behind @ ..] = items else {
            return others.is_empty();
        };
        let [other, rest @ ..] = others else {
            return false;
        };
        if !is_assignable(program, names, *item, *other) {
            return false;
        }
        items = behind;
        others = rest;
    }
}

// Whether an item of a stack is assignable to another one of as many words.
fn is_item_assignable(program: &Program, names: &[Named], from: SlotType, to: SlotType) -> bool
    requires { AreNamed program.now names.now }
    ensures { result ≡ item_fits program.now names.now from to }
{
    from.width() == to.width() && is_assignable(program, names, from, to)
}

// The same of items of a stack, in the same order.
fn are_items_assignable(
    program: &Program,
    names: &[Named],
    from: &[SlotType],
    to: &[SlotType],
) -> bool
    requires { AreNamed program.now names.now }
    ensures { result ≡ stack_fits program.now names.now from.now to.now }
{
    let mut items = from;
    let mut others = to;
    loop {
        let [item, behind @ ..] = items else {
            return others.is_empty();
        };
        let [other, rest @ ..] = others else {
            return false;
        };
        if !is_item_assignable(program, names, *item, *other) {
            return false;
        }
        items = behind;
        others = rest;
    }
}

/// The same of two stacks.
pub fn is_stack_assignable(program: &Program, names: &[Named], from: &Stack, to: &Stack) -> bool
    requires { AreNamed program.now names.now }
    ensures { result ≡ stack_fits program.now names.now from.now to.now }
{
    are_items_assignable(program, names, from.as_slice(), to.as_slice())
}

/// Whether a frame is assignable to another: flags agree, and stack and locals are assignable item
/// by item.
pub fn is_frame_assignable(program: &Program, names: &[Named], from: &Frame, to: &Frame) -> bool
    requires { AreNamed program.now names.now }
    ensures { result ≡ frame_fits program.now names.now from.now (types_of names.now to.now) }
{
    from.flag == to.flag
        && is_stack_assignable(program, names, &from.stack, &to.stack)
        && are_locals_assignable(program, names, &from.locals, &to.locals)
}
