//! Returns, and what takes a reference and gives something else (JVMS 6.5, `ireturn` to `return`,
//! `athrow` to `monitorexit`).
#![tactic(auto, unfolding(type_rules::specs::Rows::row))]

ghost use Rattle.std.specs.Prelude.{◌≡◌, IfOk, true, false};
ghost use Rattle.program_rules.specs.Instructions.{IntReturn, LongReturn, ReferenceReturn, PlainReturn, Throw, CheckCast, InstanceOf, MonitorEnter, MonitorExit};
ghost use Rattle.type_rules.specs.References.{throwable_name};
ghost use Rattle.vframes.specs.Named.{AreNamed, name_at};
ghost use Rattle.type_rows.specs.Answers.{RowIs, RowsAre};
ghost use Rattle.type_rows.specs.Sites.{RowAt, Returns, is_int, is_long, is_nothing, gives_reference, Takes, TakesNo, CastIs};

use crate::answer::{Answer, give};
use crate::site::{Given, Site};
use class_model::Memory;
use vframes::{Frame, SlotType, Stack, is_assignable};

/// Takes what is assignable to this type off the top.
pub fn take_assignable(site: &Site, stack: &mut Stack, t: SlotType) -> bool
    requires { AreNamed site.now.program.now site.now.names.now }
    ensures yes { result ≡ true → Takes site.now t stack.old stack.new }
    ensures no { result ≡ false → TakesNo site.now t stack.old }
{
    let Some(top) = stack.pop() else {
        return false;
    };
    is_assignable(site.program, site.names, top, t)
}

// The return is that of the descriptor, and an initializer has initialised `this`.
fn leave(site: &Site, f: &Frame, fits: bool) -> Answer
    ensures { Returns site.now f.now fits result }
{
    if fits && !(site.is_initializer && f.flag) {
        Answer::Stops
    } else {
        Answer::Fails(11)
    }
}

fn is_int(given: Given) -> bool
    ensures { result ≡ is_int given }
{
    match given {
        Given::Int => true,
        Given::Nothing => false,
        Given::Long => false,
        Given::Reference(_) => false,
    }
}

fn is_long(given: Given) -> bool
    ensures { result ≡ is_long given }
{
    match given {
        Given::Long => true,
        Given::Nothing => false,
        Given::Int => false,
        Given::Reference(_) => false,
    }
}

fn is_nothing(given: Given) -> bool
    ensures { result ≡ is_nothing given }
{
    match given {
        Given::Nothing => true,
        Given::Int => false,
        Given::Long => false,
        Given::Reference(_) => false,
    }
}

// Whether a method gives references to which this type is assignable.
fn gives_reference(site: &Site, t: SlotType) -> bool
    requires { AreNamed site.now.program.now site.now.names.now }
    ensures { result ≡ gives_reference site.now t }
{
    match site.given {
        Given::Reference(to) => is_assignable(site.program, site.names, t, to),
        Given::Nothing => false,
        Given::Int => false,
        Given::Long => false,
    }
}

pub fn int_return(site: &Site, f: &mut Frame) -> Answer
    ensures { RowAt IntReturn site.now f.old result f.new }
{
    if !f.stack.take_int() {
        return Answer::Fails(7);
    }
    leave(site, f, is_int(site.given))
}

pub fn long_return(site: &Site, f: &mut Frame) -> Answer
    ensures { RowAt LongReturn site.now f.old result f.new }
{
    if !f.stack.take_long() {
        return Answer::Fails(7);
    }
    leave(site, f, is_long(site.given))
}

pub fn reference_return(site: &Site, f: &mut Frame) -> Answer
    requires { AreNamed site.now.program.now site.now.names.now }
    ensures { RowAt ReferenceReturn site.now f.old result f.new }
{
    let Some(t) = f.stack.take_reference() else {
        return Answer::Fails(7);
    };
    leave(site, f, gives_reference(site, t))
}

pub fn plain_return(site: &Site, f: &Frame) -> Answer
    ensures { RowAt PlainReturn site.now f.now result f.now }
{
    leave(site, f, is_nothing(site.given))
}

/// `athrow`; the type is Throwable's.
pub fn throw(site: &Site, f: &mut Frame, throwable: usize) -> Answer
    requires named { AreNamed site.now.program.now site.now.names.now }
    requires throwable { name_at site.now.names.now throwable ≡ throwable_name }
    ensures { RowAt Throw site.now f.old result f.new }
{
    if take_assignable(site, &mut f.stack, SlotType::Obj(throwable)) {
        Answer::Stops
    } else {
        Answer::Fails(7)
    }
}

pub fn check_cast(f: &mut Frame, room: u16, to: usize) -> Result<Answer, Memory>
    ensures { IfOk result (λ a. CastIs to room f.old a f.new) }
{
    let Some(_) = f.stack.take_reference() else {
        return Ok(Answer::Fails(7));
    };
    f.stack.push(SlotType::Obj(to))?;
    Ok(give(f, room))
}

pub fn instance_of(f: &mut Frame, room: u16) -> Result<Answer, Memory>
    ensures { IfOk result (λ a. RowsAre InstanceOf room f.old a f.new) }
{
    let Some(_) = f.stack.take_reference() else {
        return Ok(Answer::Fails(7));
    };
    f.stack.push(SlotType::Int)?;
    Ok(give(f, room))
}

/// `monitorenter` and `monitorexit`.
pub fn monitor(f: &mut Frame, room: u16) -> Answer
    ensures enter { RowIs MonitorEnter room f.old result f.new }
    ensures exit { RowIs MonitorExit room f.old result f.new }
{
    let Some(_) = f.stack.take_any_reference() else {
        return Answer::Fails(7);
    };
    Answer::Falls
}
