//! Calls (JVMS 6.5, `invokevirtual` to `invokeinterface`).
#![tactic(auto, unfolding(type_rules::specs::Rows::row))]

ghost use Rattle.std.specs.Prelude.{◌≡◌, ◌<◌, IfOk, OnOk, true, false, length, drop};
ghost use Rattle.program_rules.specs.Instructions.{InvokeVirtual, InvokeInterface, InvokeStatic};
ghost use Rattle.vframes.specs.Named.{AreNamed};
ghost use Rattle.type_rows.specs.Sites.{TakesAll, TakesNotAll, TakesNext, CallIs, PlainIs, pushed};

use crate::answer::Answer;
use crate::item::{Called, Signature};
use crate::reference_rows::take_assignable;
use crate::site::Site;
use class_model::Memory;
use vframes::{Frame, SlotType, Stack};

// Takes the argument at a place.
fn take_arg(site: &Site, stack: &mut Stack, args: &[SlotType], at: usize) -> bool
    requires named { AreNamed site.now.program.now site.now.names.now }
    requires within { at < length args.now }
    ensures yes { result ≡ true → TakesNext site.now args.now at stack.old stack.new }
    ensures no { result ≡ false → TakesNotAll site.now (drop at args.now) stack.old }
{
    take_assignable(site, stack, args[at])
}

/// Takes the arguments of a call, the last of which stands first.
pub fn take_args(site: &Site, stack: &mut Stack, args: &[SlotType]) -> bool
    requires { AreNamed site.now.program.now site.now.names.now }
    ensures yes { result ≡ true → TakesAll site.now args.now stack.old stack.new }
    ensures no { result ≡ false → TakesNotAll site.now args.now stack.old }
{
    for at in 0..args.len() {
        if !take_arg(site, stack, args, at) {
            return false;
        }
    }
    true
}

/// Puts the result of a call on the top, if there is one.
pub fn push_result(stack: &mut Stack, given: Option<SlotType>) -> Result<(), Memory>
    ensures { OnOk result (stack.new ≡ pushed given stack.old) }
{
    match given {
        Some(t) => {
            stack.push(t)?;
            Ok(())
        }
        None => Ok(()),
    }
}

// The next instruction, unless the call names an initializer.
fn plainly(site: &Site, f: &Frame, method: &Signature) -> Answer
    ensures { PlainIs site.now method.now f.now result }
{
    match method.called {
        Called::Other => Answer::Falls,
        Called::InstanceInitializer => Answer::Fails(12),
        Called::ClassInitializer => Answer::Fails(12),
    }
}

/// `invokestatic`.
pub fn call_static(site: &Site, f: &mut Frame, method: &Signature) -> Result<Answer, Memory>
    requires { AreNamed site.now.program.now site.now.names.now }
    ensures { IfOk result (λ a. CallIs InvokeStatic site.now method.now f.old a f.new) }
{
    if !take_args(site, &mut f.stack, method.args.as_slice()) {
        return Ok(Answer::Fails(7));
    }
    push_result(&mut f.stack, method.result)?;
    if !f.stack.fits(site.code.max_stack) {
        return Ok(Answer::Fails(8));
    }
    Ok(plainly(site, f, method))
}

/// `invokevirtual` and `invokeinterface`.
pub fn call_method(site: &Site, f: &mut Frame, method: &Signature) -> Result<Answer, Memory>
    requires { AreNamed site.now.program.now site.now.names.now }
    ensures virtual_ { IfOk result (λ a. CallIs InvokeVirtual site.now method.now f.old a f.new) }
    ensures interface { IfOk result (λ a.
        CallIs InvokeInterface site.now method.now f.old a f.new) }
{
    if !take_args(site, &mut f.stack, method.args.as_slice()) {
        return Ok(Answer::Fails(7));
    }
    if !take_assignable(site, &mut f.stack, SlotType::Obj(method.class)) {
        return Ok(Answer::Fails(7));
    }
    push_result(&mut f.stack, method.result)?;
    if !f.stack.fits(site.code.max_stack) {
        return Ok(Answer::Fails(8));
    }
    Ok(plainly(site, f, method))
}
