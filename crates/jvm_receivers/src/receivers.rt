//! What an object is of, by number.

ghost use Rattle.std.specs.Prelude.{◌<◌, true, length, IfOk, IfSome};
ghost use Rattle.program_rules.specs.Names.{class_behind};
ghost use Rattle.program_rules.specs.Objects.{ArrayOf, Plain};
ghost use Rattle.class_link.specs.Symbols.{kind_of};
ghost use Rattle.class_table.specs.Table.{name_at};
ghost use Rattle.jvm_world.specs.View.{kind_in};
ghost use Rattle.jvm_receivers.specs.Objects.{FindsClass, FindsPlace, FindsReceiver, text_name};

use class_family::{class_behind, object_name};
use class_link::names::is_array_name;
use class_model::{ClassId, Kind, Memory, Name, Seq};
use class_table::Program;
use jvm_link::Receiver;
use jvm_values::ObjKind;
use std::alloc::Global;

// The class of a name, for its objects or for arrays of them.
#[tactic(auto, using(crate::proofs::Finding::place_is))]
#[inline(never)]
fn place_of(p: &Program, name: &Name, array: bool) -> Option<Receiver>
    ensures place { FindsPlace p.now name.now array result }
    ensures within { IfSome result (λ to. to.class.0 < length p.now) }
{
    match p.find(name) {
        Some(class) => Some(Receiver { class, array }),
        None => None,
    }
}

// What the objects of a class are of.
#[tactic(auto, using(crate::proofs::Finding::plain_is, crate::proofs::Finding::past_class))]
#[inline(always)]
fn of_class(alloc: Global, p: &Program, class: ClassId) -> Option<Receiver>
    ensures receiver { FindsReceiver p.now (Plain (name_at p.now class.0)) result }
    ensures within { IfSome result (λ to. to.class.0 < length p.now) }
{
    if (class.0 as usize) < p.len() {
        return Some(Receiver {
            class,
            array: false,
        });
    }
    place_of(p, &Seq::new(alloc), false)
}

// What the arrays of a class are of.
#[tactic(auto, using(crate::proofs::Finding::behind_plain))]
fn of_named(alloc: Global, p: &Program, name: &Name) -> Result<Option<Receiver>, Memory>
    ensures receiver { IfOk result (λ to. FindsPlace p.now (class_behind name.now) true to) }
    ensures within { IfOk result (λ o. IfSome o (λ to. to.class.0 < length p.now)) }
{
    if !is_array_name(name.as_slice()) {
        let to = place_of(p, name, true);
        return Ok(to);
    }
    let class = class_behind(alloc, name)?;
    let to = place_of(p, &class, true);
    Ok(to)
}

// What the arrays of elements of a kind are of.
#[tactic(auto, using(crate::proofs::Finding::array_found))]
#[inline(never)]
fn of_elements(alloc: Global, p: &Program, kind: &Kind) -> Result<Option<Receiver>, Memory>
    ensures receiver { IfOk result (λ to. FindsReceiver p.now (ArrayOf (kind_of kind.now)) to) }
    ensures within { IfOk result (λ o. IfSome o (λ to. to.class.0 < length p.now)) }
{
    match kind {
        Kind::Ref(name) => {
            let to = of_named(alloc, p, name)?;
            Ok(to)
        }
        Kind::Boolean | Kind::Byte | Kind::Char | Kind::Short | Kind::Int | Kind::Long => {
            let name = object_name(alloc)?;
            let to = place_of(p, &name, true);
            Ok(to)
        }
    }
}

// What a text is of.
#[tactic(auto, using(crate::proofs::Finding::text_found, crate::proofs::Finding::no_text_found))]
fn of_text(p: &Program, text: Option<ClassId>) -> Option<Receiver>
    requires { FindsClass p.now text_name text }
    ensures receiver { FindsReceiver p.now (Plain text_name) result }
    ensures within { IfSome result (λ to. to.class.0 < length p.now) }
{
    let _count = p.len();
    match text {
        Some(class) => Some(Receiver {
            class,
            array: false,
        }),
        None => None,
    }
}

/// What an object is of; none where the program has no such class.
#[inline(always)]
pub fn receiver_of(
    alloc: Global,
    p: &Program,
    text: Option<ClassId>,
    kind: &ObjKind,
) -> Result<Option<Receiver>, Memory>
    requires { FindsClass p.now text_name text }
    ensures receiver { IfOk result (λ to. FindsReceiver p.now (kind_in p.now kind.now) to) }
    ensures within { IfOk result (λ o. IfSome o (λ to. to.class.0 < length p.now)) }
{
    match kind {
        ObjKind::Plain(class) => Ok(of_class(alloc, p, *class)),
        ObjKind::Text => Ok(of_text(p, text)),
        ObjKind::Array(kind) => {
            let to = of_elements(alloc, p, kind)?;
            Ok(to)
        }
    }
}
