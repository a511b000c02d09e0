//! Jumps (JVMS 6.5, `ifeq` to `goto`).
#![tactic(auto, unfolding(type_rules::specs::Rows::row))]

ghost use Rattle.std.specs.Prelude.{◌≡◌};
ghost use Rattle.program_rules.specs.Instructions.{IfInt, IfInts, IfSame, IfNotSame, IfNull, IfNotNull, Goto};
ghost use Rattle.program_rules.specs.declared.operation.Comparison.{Comparison};
ghost use Rattle.vframes.specs.Named.{AreNamed};
ghost use Rattle.type_rows.specs.Sites.{RowAt, LeadsTo, leads_in};

use crate::answer::Answer;
use crate::site::Site;
use vframes::Frame;

/// Whether a target states a frame to which this one is assignable.
pub fn leads(site: &Site, f: &Frame, to: u32) -> bool
    requires { AreNamed site.now.program.now site.now.names.now }
    ensures { result ≡ leads_in site.now f.now to }
{
    site.stated.leads(site.program, site.names, f, to)
}

// The next instruction, where the target takes the frame.
fn fork(site: &Site, f: &Frame, to: u32) -> Answer
    requires { AreNamed site.now.program.now site.now.names.now }
    ensures { LeadsTo site.now to f.now result }
{
    if leads(site, f, to) {
        Answer::Falls
    } else {
        Answer::Fails(9)
    }
}

pub fn if_int(site: &Site, f: &mut Frame, to: u32) -> Answer
    requires { AreNamed site.now.program.now site.now.names.now }
    ensures { (c : Comparison) → RowAt (IfInt c to) site.now f.old result f.new }
{
    if !f.stack.take_int() {
        return Answer::Fails(7);
    }
    fork(site, f, to)
}

pub fn if_ints(site: &Site, f: &mut Frame, to: u32) -> Answer
    requires { AreNamed site.now.program.now site.now.names.now }
    ensures { (c : Comparison) → RowAt (IfInts c to) site.now f.old result f.new }
{
    if !f.stack.take_int() {
        return Answer::Fails(7);
    }
    if !f.stack.take_int() {
        return Answer::Fails(7);
    }
    fork(site, f, to)
}

pub fn if_references(site: &Site, f: &mut Frame, to: u32) -> Answer
    requires { AreNamed site.now.program.now site.now.names.now }
    ensures same { RowAt (IfSame to) site.now f.old result f.new }
    ensures not_same { RowAt (IfNotSame to) site.now f.old result f.new }
{
    let Some(_) = f.stack.take_any_reference() else {
        return Answer::Fails(7);
    };
    let Some(_) = f.stack.take_any_reference() else {
        return Answer::Fails(7);
    };
    fork(site, f, to)
}

pub fn if_reference(site: &Site, f: &mut Frame, to: u32) -> Answer
    requires { AreNamed site.now.program.now site.now.names.now }
    ensures null { RowAt (IfNull to) site.now f.old result f.new }
    ensures not_null { RowAt (IfNotNull to) site.now f.old result f.new }
{
    let Some(_) = f.stack.take_any_reference() else {
        return Answer::Fails(7);
    };
    fork(site, f, to)
}

pub fn goto(site: &Site, f: &Frame, to: u32) -> Answer
    requires { AreNamed site.now.program.now site.now.names.now }
    ensures { RowAt (Goto to) site.now f.now result f.now }
{
    if leads(site, f, to) {
        Answer::Stops
    } else {
        Answer::Fails(9)
    }
}
