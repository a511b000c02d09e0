//! Special calls: of initializers, and of methods of a class above (JVMS 6.5, `invokespecial`).
#![tactic(auto, unfolding(type_rules::specs::Rows::row))]

ghost use Rattle.std.specs.Prelude.{◌≡◌, IfOk, IfSome, IfNone, OnOk, true, false};
ghost use Rattle.vframes.specs.declared.slot_type.SlotType.TheVariants.{UninitThis, Uninit};
ghost use Rattle.vframes.specs.Named.{AreNamed, AreDistinct};
ghost use Rattle.type_rows.specs.Sites.{AreItems, IsInitialised, InitialisesIs, SpecialIs, SpecialIf, TakesObject, TakesNoObject, NearIs};

use crate::answer::Answer;
use crate::call_rows::{push_result, take_args};
use crate::item::Signature;
use crate::meaning::class_made;
use crate::site::Site;
use class_model::Memory;
use vframes::{Frame, Fresh, SlotType, Stack, is_assignable, is_same_name};

// Makes all copies of an object those of a class.
fn initialise(f: &mut Frame, fresh: Fresh, class: usize) -> Result<(), Memory>
    ensures { OnOk result (IsInitialised fresh class f.old f.new) }
{
    let alloc = *f.locals.allocator();
    let locals = fresh.replace(alloc, &f.locals, SlotType::Obj(class))?;
    let stack = f.stack.initialise(fresh, class)?;
    f.locals = locals;
    f.stack = stack;
    Ok(())
}

// `<init>` on `this`: of the class itself or of its superclass.
fn initialise_this(site: &Site, f: &mut Frame, method: &Signature) -> Result<Answer, Memory>
    ensures { IfOk result (λ a. InitialisesIs site.now method.now UninitThis f.old a f.new) }
{
    if !method.initialises_this {
        return Ok(Answer::Fails(12));
    }
    initialise(f, Fresh::This, site.class)?;
    f.flag = false;
    Ok(Answer::Falls)
}

// `<init>` on what the `new` at an instruction made: of the class that it names.
fn initialise_new(site: &Site, f: &mut Frame, method: &Signature, at: u32) -> Result<Answer, Memory>
    requires named { AreNamed site.now.program.now site.now.names.now }
    requires distinct { AreDistinct site.now.names.now }
    requires items { AreItems site.now }
    ensures { IfOk result (λ a. InitialisesIs site.now method.now (Uninit at) f.old a f.new) }
{
    let Some(class) = class_made(site, at) else {
        return Ok(Answer::Fails(12));
    };
    if !is_same_name(site.names, method.class, class) {
        return Ok(Answer::Fails(12));
    }
    initialise(f, Fresh::New(at), class)?;
    Ok(Answer::Falls)
}

// `<init>` on what stands below its arguments.
fn initialise_top(
    site: &Site,
    f: &mut Frame,
    method: &Signature,
    top: SlotType,
) -> Result<Answer, Memory>
    requires named { AreNamed site.now.program.now site.now.names.now }
    requires distinct { AreDistinct site.now.names.now }
    requires items { AreItems site.now }
    ensures { IfOk result (λ a. InitialisesIs site.now method.now top f.old a f.new) }
{
    match top {
        SlotType::UninitThis => initialise_this(site, f, method),
        SlotType::Uninit(at) => initialise_new(site, f, method, at),
        SlotType::Top => Ok(Answer::Fails(12)),
        SlotType::Int => Ok(Answer::Fails(12)),
        SlotType::Long => Ok(Answer::Fails(12)),
        SlotType::Null => Ok(Answer::Fails(12)),
        SlotType::Obj(_) => Ok(Answer::Fails(12)),
    }
}

// A call of `<init>`.
fn call_initializer(site: &Site, f: &mut Frame, method: &Signature) -> Result<Answer, Memory>
    requires named { AreNamed site.now.program.now site.now.names.now }
    requires distinct { AreDistinct site.now.names.now }
    requires items { AreItems site.now }
    ensures { IfOk result (λ a. SpecialIf true site.now method.now f.old a f.new) }
{
    if !take_args(site, &mut f.stack, method.args.as_slice()) {
        return Ok(Answer::Fails(7));
    }
    let Some(top) = f.stack.take_any_reference() else {
        return Ok(Answer::Fails(7));
    };
    push_result(&mut f.stack, method.result)?;
    if !f.stack.fits(site.code.max_stack) {
        return Ok(Answer::Fails(8));
    }
    initialise_top(site, f, method, top)
}

// Takes an object of this class off the top.
fn take_object(site: &Site, stack: &mut Stack, class: usize) -> Option<SlotType>
    requires { AreNamed site.now.program.now site.now.names.now }
    ensures some { IfSome result (λ t. TakesObject site.now class t stack.old stack.new) }
    ensures none { IfNone result (TakesNoObject site.now class stack.old) }
{
    let Some(t) = stack.pop() else {
        return None;
    };
    if is_assignable(site.program, site.names, t, SlotType::Obj(class)) {
        Some(t)
    } else {
        None
    }
}

// The next instruction, where the method is one that a special call may name, on such an object.
fn near(site: &Site, f: &Frame, method: &Signature, top: SlotType) -> Answer
    requires { AreNamed site.now.program.now site.now.names.now }
    ensures { NearIs site.now method.now top f.now result }
{
    if !method.called.is_plain() {
        return Answer::Fails(12);
    }
    if !method.is_near {
        return Answer::Fails(12);
    }
    if is_assignable(site.program, site.names, top, SlotType::Obj(site.class)) {
        Answer::Falls
    } else {
        Answer::Fails(12)
    }
}

// A special call of another method.
fn call_near(site: &Site, f: &mut Frame, method: &Signature) -> Result<Answer, Memory>
    requires { AreNamed site.now.program.now site.now.names.now }
    ensures { IfOk result (λ a. SpecialIf false site.now method.now f.old a f.new) }
{
    if !take_args(site, &mut f.stack, method.args.as_slice()) {
        return Ok(Answer::Fails(7));
    }
    let Some(top) = take_object(site, &mut f.stack, method.class) else {
        return Ok(Answer::Fails(7));
    };
    push_result(&mut f.stack, method.result)?;
    if !f.stack.fits(site.code.max_stack) {
        return Ok(Answer::Fails(8));
    }
    Ok(near(site, f, method, top))
}

/// `invokespecial`.
pub fn call_special(site: &Site, f: &mut Frame, method: &Signature) -> Result<Answer, Memory>
    requires named { AreNamed site.now.program.now site.now.names.now }
    requires distinct { AreDistinct site.now.names.now }
    requires items { AreItems site.now }
    ensures { IfOk result (λ a. SpecialIs site.now method.now f.old a f.new) }
{
    if method.called.is_init() {
        call_initializer(site, f, method)
    } else {
        call_near(site, f, method)
    }
}
