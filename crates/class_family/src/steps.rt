//! The supers to which a walk goes on from a class of a program.
#![tactic(auto, unfolding(class_link::specs::View::linked_of))]

ghost use Rattle.std.specs.Prelude.{◌≡◌, ◌<◌, length, IfOk, OnOk};
ghost use Rattle.std.specs.Option.{is_some};
ghost use Rattle.program_rules.specs.Linked.{is_interface};
ghost use Rattle.program_rules.specs.Programs.{Order};
ghost use Rattle.class_link.specs.Info.{class_of};
ghost use Rattle.class_table.specs.Table.{look, name_at};
ghost use Rattle.class_family.specs.Walks.{AddsStepsOf, AddsInterfaces};

use crate::tasks::{Task, Way, push_interfaces, push_steps};
use class_model::{ClassId, Memory, flags};
use class_table::{ClassInfo, Program};

/// Whether a class names a superclass.
pub fn names_superclass(info: &ClassInfo) -> bool
    ensures { result ≡ is_some (class_of info.now).parent }
{
    info.linked().parent.is_some()
}

// Whether a class is an interface.
fn is_interface(info: &ClassInfo) -> bool
    ensures { result ≡ is_interface (class_of info.now).flags }
{
    flags::is_interface(info.linked().flags)
}

/// The supers to which a walk goes on from a class are entered before all else.
pub fn enter_steps(
    program: &Program,
    way: Way,
    tasks: &mut Vec<Task>,
    id: ClassId,
) -> Result<(), Memory>
    requires { id.0 < length program.now }
    ensures { OnOk result (AddsStepsOf way program.now id.0 tasks.old.items tasks.new.items) }
{
    let info = program.info(id);
    push_steps(
        tasks,
        way,
        program.links(id),
        names_superclass(info),
        is_interface(info),
    )?;
    Ok(())
}

/// The interfaces of a class are entered before all else.
pub fn enter_interfaces(program: &Program, tasks: &mut Vec<Task>, id: ClassId) -> Result<(), Memory>
    requires { id.0 < length program.now }
    ensures { OnOk result (AddsInterfaces program.now id.0 tasks.old.items tasks.new.items) }
{
    let info = program.info(id);
    push_interfaces(tasks, program.links(id), names_superclass(info))?;
    Ok(())
}
