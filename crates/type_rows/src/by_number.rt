//! The rows of instructions that name a switch of their code, or an array by its number.
#![tactic(auto, unfolding(class_link::specs::View::instruction_of))]

ghost use Rattle.std.specs.Prelude.{◌≡◌, IfOk};
ghost use Rattle.class_link.specs.declared.instruction.Instruction.TheVariants.{TableSwitch, LookupSwitch, NewArray};
ghost use Rattle.type_rows.specs.Means.{IsSite, RowMeant};

use crate::indices::array_at;
use crate::{Answer, Site, lookup_switch, new_array, table_switch};
use class_link::Switch;
use class_model::Memory;
use vframes::Frame;

pub fn by_table(site: &Site, at: u32, f: &mut Frame, number: u32) -> Answer
    requires { IsSite site.now }
    ensures { RowMeant site.now at (TableSwitch number) f.old result f.new }
{
    let Some(switch) = site.code.switches.get(number as usize) else {
        return Answer::Fails(7);
    };
    match switch {
        Switch::Table(default, _, targets) => table_switch(site, f, *default, targets.as_slice()),
        Switch::Lookup(_, _) => Answer::Fails(7),
    }
}

pub fn by_keys(site: &Site, at: u32, f: &mut Frame, number: u32) -> Answer
    requires { IsSite site.now }
    ensures { RowMeant site.now at (LookupSwitch number) f.old result f.new }
{
    let Some(switch) = site.code.switches.get(number as usize) else {
        return Answer::Fails(7);
    };
    match switch {
        Switch::Lookup(default, keys) => lookup_switch(site, f, *default, keys.as_slice()),
        Switch::Table(_, _, _) => Answer::Fails(7),
    }
}

/// `newarray` of elements by their number.
pub fn make_plain_array(site: &Site, at: u32, f: &mut Frame, number: u8) -> Result<Answer, Memory>
    requires { IsSite site.now }
    ensures { IfOk result (λ a. RowMeant site.now at (NewArray number) f.old a f.new) }
{
    let Some(array) = array_at(site, number) else {
        return Ok(Answer::Fails(7));
    };
    Ok(new_array(f, site.code.max_stack, array)?)
}
