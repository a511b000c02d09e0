//! A function for each public call over which wrong bodies are tried, with the call's contract.

ghost use Rattle.std.specs.Prelude.{◌≡◌, IfNone, IfOk, IfSome};
ghost use Rattle.program_rules.specs.Instructions.{ArrayLoad, NullConstant, ReferenceReturn};
ghost use Rattle.type_rules.specs.References.{classes_of};
ghost use Rattle.type_rules.specs.Assignability.{name_assignable};
ghost use Rattle.class_table.specs.Table.{look};
ghost use Rattle.vframes.specs.Named.{AreDistinct, AreNamed, HaveComponents, IsClosed, IsNamed, IsWithin};
ghost use Rattle.vframes.specs.Fits.{InterfaceIs};
ghost use Rattle.vframes.specs.Stated.{AreFewer, IsChopOf};
ghost use Rattle.type_rows.specs.Answers.{RowIs};
ghost use Rattle.type_rows.specs.Sites.{AreItems, RowAt, SpecialIs};

use class_model::{ClassId, Memory};
use class_table::Program;
use program_rules::Element;
use type_rows::{Answer, Signature, Site};
use vframes::{Frame, Local, Locals, Named};

/// `vframes::is_name_assignable`
pub fn is_name_assignable(program: &Program, from: &Named, to: &Named) -> bool
    requires closed { IsClosed program.now }
    requires from { IsNamed program.now from.now }
    requires to { IsNamed program.now to.now }
    ensures { result ≡ name_assignable (classes_of (look program.now)) from.now.name to.now.name }
{
    let is = vframes::is_name_assignable(program, from, to);
    is
}

/// `vframes::is_interface`
pub fn is_interface(program: &Program, class: Option<ClassId>) -> bool
    requires { IsWithin program.now class }
    ensures { InterfaceIs program.now class result }
{
    let answer = vframes::is_interface(program, class);
    answer
}

/// `type_rows::null_constant`
pub fn null_constant(f: &mut Frame, room: u16) -> Result<Answer, Memory>
    ensures { IfOk result (λ a. RowIs NullConstant room f.old a f.new) }
{
    let a = type_rows::null_constant(f, room)?;
    Ok(a)
}

/// `type_rows::array_load`
pub fn array_load(site: &Site, f: &mut Frame, element: Element) -> Result<Answer, Memory>
    requires named { AreNamed site.now.program.now site.now.names.now }
    requires components { HaveComponents site.now.names.now }
    ensures { IfOk result (λ a. RowAt (ArrayLoad element) site.now f.old a f.new) }
{
    let loaded = type_rows::array_load(site, f, element)?;
    Ok(loaded)
}

/// `type_rows::reference_return`
pub fn reference_return(site: &Site, f: &mut Frame) -> Answer
    requires { AreNamed site.now.program.now site.now.names.now }
    ensures { RowAt ReferenceReturn site.now f.old result f.new }
{
    let given = type_rows::reference_return(site, f);
    given
}

/// `type_rows::call_special`
pub fn call_special(site: &Site, f: &mut Frame, method: &Signature) -> Result<Answer, Memory>
    requires named { AreNamed site.now.program.now site.now.names.now }
    requires distinct { AreDistinct site.now.names.now }
    requires items { AreItems site.now }
    ensures { IfOk result (λ a. SpecialIs site.now method.now f.old a f.new) }
{
    let called = type_rows::call_special(site, f, method)?;
    Ok(called)
}

/// `vframes::chop_locals`
pub fn chop_locals(store: &[Local], locals: Locals, count: u8) -> Option<Locals>
    ensures some { IfSome result (λ l. IsChopOf store.now locals count l) }
    ensures none { IfNone result (AreFewer store.now locals count) }
{
    let chopped = vframes::chop_locals(store, locals, count);
    chopped
}
