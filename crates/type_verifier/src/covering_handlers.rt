//! The handlers of a method (JVMS 4.10.1.6, 4.7.3).

ghost use Rattle.std.specs.Prelude.{◌≡◌, IfOk, OnOk};
ghost use Rattle.type_rules.specs.References.{classes_of, throwable_name};
ghost use Rattle.class_table.specs.Table.{look};
ghost use Rattle.vframes.specs.Named.{AreNamed, IsClosed};
ghost use Rattle.type_verifier.specs.Handlers.{is_thrown, HasLocalsOf, TakesCaught, Fits, AllFit};

use class_model::{Memory, Name};
use class_table::Program;
use std::mem;
use type_rows::{Site, leads};
use vframes::{Frame, Handler, SlotType, Stack, is_below};

/// Whether a class is Throwable or stands below it, or is absent.
pub fn is_thrown(program: &Program, name: &Name, throwable: &Name) -> bool
    requires closed { IsClosed program.now }
    requires throwable { throwable.now ≡ throwable_name }
    ensures { result ≡ is_thrown (classes_of (look program.now)) name.now }
{
    match program.find(name) {
        Some(id) => is_below(program, id, program.find(throwable)),
        None => true,
    }
}

// Whether the handler takes the frame's locals and what is caught, which then stands on the stack.
fn takes_caught(site: &Site, handler: Handler, f: &mut Frame) -> Result<bool, Memory>
    requires { AreNamed site.now.program.now site.now.names.now }
    ensures same { OnOk result (HasLocalsOf f.old f.new) }
    ensures fit { IfOk result (λ b. TakesCaught site.now handler f.old b) }
{
    let alloc = *f.locals.allocator();
    let mut stack = Stack::new(alloc);
    stack.push(SlotType::Obj(handler.caught))?;
    f.stack = stack;
    Ok(leads(site, f, handler.target) && handler.is_thrown)
}

// The same, if it covers the instruction.
fn fits(site: &Site, at: u32, handler: Handler, f: &mut Frame) -> Result<bool, Memory>
    requires { AreNamed site.now.program.now site.now.names.now }
    ensures same { OnOk result (HasLocalsOf f.old f.new) }
    ensures fit { IfOk result (λ b. Fits site.now at handler f.old b) }
{
    if !handler.covers(at) {
        return Ok(true);
    }
    let takes = takes_caught(site, handler, f)?;
    Ok(takes)
}

// Whether all do.
fn all_fit(site: &Site, at: u32, handlers: &[Handler], f: &mut Frame) -> Result<bool, Memory>
    requires { AreNamed site.now.program.now site.now.names.now }
    ensures same { OnOk result (HasLocalsOf f.old f.new) }
    ensures fit { IfOk result (λ b. AllFit site.now at handlers.now f.old b) }
{
    let mut left = handlers;
    while let [handler, behind @ ..] = left {
        let fits = fits(site, at, *handler, f)?;
        if !fits {
            return Ok(false);
        }
        left = behind;
    }
    Ok(true)
}

/// Whether all handlers that cover an instruction take its locals and what they catch.
pub fn handlers_fit(
    site: &Site,
    at: u32,
    handlers: &[Handler],
    f: &mut Frame,
) -> Result<bool, Memory>
    requires { AreNamed site.now.program.now site.now.names.now }
    ensures same { OnOk result (f.new ≡ f.old) }
    ensures fit { IfOk result (λ b. AllFit site.now at handlers.now f.old b) }
{
    let alloc = *f.locals.allocator();
    let stack = mem::replace(&mut f.stack, Stack::new(alloc));
    let all = all_fit(site, at, handlers, f)?;
    f.stack = stack;
    Ok(all)
}
