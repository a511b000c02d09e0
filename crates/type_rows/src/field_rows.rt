//! Fields (JVMS 6.5, `getstatic` to `putfield`).
#![tactic(auto, unfolding(type_rules::specs::Rows::row))]

ghost use Rattle.std.specs.Prelude.{◌≡◌, IfOk, true, false};
ghost use Rattle.program_rules.specs.Instructions.{GetStatic, PutStatic, GetField};
ghost use Rattle.vframes.specs.Named.{AreNamed};
ghost use Rattle.type_rows.specs.Sites.{StaticIs, FieldIs, OwnerIs, TakesOwner, TakesNoOwner, PutIs};

use crate::answer::{Answer, give};
use crate::reference_rows::take_assignable;
use crate::site::Site;
use class_model::Memory;
use vframes::{Frame, Fresh, SlotType, Stack, is_assignable};

/// `getstatic` of a field of this type.
pub fn get_static(site: &Site, f: &mut Frame, held: SlotType) -> Result<Answer, Memory>
    ensures { IfOk result (λ a. StaticIs GetStatic site.now held f.old a f.new) }
{
    f.stack.push(held)?;
    Ok(give(f, site.code.max_stack))
}

/// `putstatic` of a field of this type.
pub fn put_static(site: &Site, f: &mut Frame, held: SlotType) -> Answer
    requires { AreNamed site.now.program.now site.now.names.now }
    ensures { StaticIs PutStatic site.now held f.old result f.new }
{
    if take_assignable(site, &mut f.stack, held) {
        Answer::Falls
    } else {
        Answer::Fails(7)
    }
}

/// `getfield` of a field of this type in this class.
pub fn get_field(site: &Site, f: &mut Frame, class: usize, held: SlotType) -> Result<Answer, Memory>
    requires { AreNamed site.now.program.now site.now.names.now }
    ensures { IfOk result (λ a. FieldIs GetField site.now class held f.old a f.new) }
{
    if !take_assignable(site, &mut f.stack, SlotType::Obj(class)) {
        return Ok(Answer::Fails(7));
    }
    f.stack.push(held)?;
    Ok(give(f, site.code.max_stack))
}

// Whether it is the object of a `putfield`: of the field's class; or `this` before it is
// initialised, where its own class declares the field.
fn is_owner(site: &Site, class: usize, held: SlotType, own: bool, t: SlotType) -> bool
    requires { AreNamed site.now.program.now site.now.names.now }
    ensures { OwnerIs site.now class held own t result }
{
    if Fresh::This.is_of(t) {
        own
    } else {
        is_assignable(site.program, site.names, t, SlotType::Obj(class))
    }
}

// Takes the object of a `putfield` off the top.
fn take_owner(site: &Site, stack: &mut Stack, class: usize, held: SlotType, own: bool) -> bool
    requires { AreNamed site.now.program.now site.now.names.now }
    ensures yes { result ≡ true → TakesOwner site.now class held own stack.old stack.new }
    ensures no { result ≡ false → TakesNoOwner site.now class held own stack.old }
{
    let Some(t) = stack.pop() else {
        return false;
    };
    is_owner(site, class, held, own, t)
}

/// `putfield` of a field of this type in this class, which is one that the class itself declares or
/// not.
pub fn put_field(site: &Site, f: &mut Frame, class: usize, held: SlotType, own: bool) -> Answer
    requires { AreNamed site.now.program.now site.now.names.now }
    ensures { PutIs site.now class held own f.old result f.new }
{
    if !take_assignable(site, &mut f.stack, held) {
        return Answer::Fails(7);
    }
    if !take_owner(site, &mut f.stack, class, held, own) {
        return Answer::Fails(7);
    }
    Answer::Falls
}
