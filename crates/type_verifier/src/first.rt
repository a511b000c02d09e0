//! The types before a method's first instruction (JVMS 4.10.1.6).

ghost use Rattle.std.specs.Prelude.{◌≡◌, ◌≤◌, ◌++◌, IfOk, OnOk};
ghost use Rattle.program_rules.specs.Names.{same, object_name, instance_initializer};
ghost use Rattle.vframes.specs.View.{words_of};
ghost use Rattle.type_verifier.specs.Tables.{IsTable, Adds, NameLasts};
ghost use Rattle.type_verifier.specs.Heads.{FirstAre, FirstIs, InitIs, ReceiverIs, if_any};

use crate::names::Names;
use crate::types::kind_types;
use class_link::LinkedMethod;
use class_model::flags::is_static;
use class_model::names::is_text;
use class_model::{Memory, Name};
use class_table::Program;
use std::alloc::Global;
use vframes::{Frame, SlotType, Stack, StatedFrame, frame_in_full, no_locals, push_locals};

fn is_init_name(name: &Name) -> bool
    ensures { result ≡ same name.now instance_initializer }
{
    is_text(name.as_slice(), b"<init>")
}

fn is_object_name(name: &Name) -> bool
    ensures { result ≡ same name.now object_name }
{
    is_text(name.as_slice(), b"java/lang/Object")
}

/// Whether a method is an `<init>`.
pub fn is_init(method: &LinkedMethod) -> bool
    ensures { InitIs method.now result }
{
    is_init_name(&method.name)
}

// `this`, if the method of a class of this name and number has it.
fn receiver(name: &Name, class: usize, method: &LinkedMethod) -> Option<SlotType>
    ensures { ReceiverIs name.now class method.now result }
{
    if is_init(method) {
        if is_object_name(name) {
            return Some(SlotType::Obj(class));
        }
        return Some(SlotType::UninitThis);
    }
    if is_static(method.flags) {
        return None;
    }
    Some(SlotType::Obj(class))
}

// A type, if there is one.
fn of_any(alloc: Global, this: Option<SlotType>) -> Result<Vec<SlotType>, Memory>
    ensures { IfOk result (λ ts. ts.items ≡ if_any this) }
{
    let mut types = Vec::new(alloc);
    match this {
        Some(t) => {
            types.push(t)?;
            Ok(types)
        }
        None => Ok(types),
    }
}

// Types with these behind them.
fn add_all(types: &mut Vec<SlotType>, more: &[SlotType]) -> Result<(), Memory>
    ensures { OnOk result (types.new.items ≡ types.old.items ++ more.now) }
{
    for t in more {
        types.push(*t)?;
    }
    Ok(())
}

/// The types of the receiver and of the arguments, in a method of the class of this name and
/// number.
pub fn first_types(
    names: &mut Names,
    program: &Program,
    name: &Name,
    class: usize,
    method: &LinkedMethod,
) -> Result<Vec<SlotType>, Memory>
    requires table { IsTable program.now names.old }
    requires class { NameLasts names.old.list.items class name.now }
    ensures adds { OnOk result (Adds program.now names.old names.new) }
    ensures types { IfOk result (λ ts. FirstAre names.new name.now method.now ts.items) }
{
    let alloc = *names.list.allocator();
    let args = kind_types(names, program, method.args.as_slice())?;
    let this = receiver(name, class, method);
    let mut first = of_any(alloc, this)?;
    add_all(&mut first, &args)?;
    Ok(first)
}

/// The frame before a method's first instruction, of these types, which fit its locals.
pub fn first_frame(alloc: Global, max_locals: u16, types: &[SlotType]) -> Result<Frame, Memory>
    requires { words_of types.now ≤ max_locals }
    ensures { IfOk result (FirstIs max_locals types.now) }
{
    let mut store = Vec::new(alloc);
    let locals = push_locals(&mut store, no_locals(), types)?;
    let stated = StatedFrame {
        locals,
        stack: Stack::new(alloc),
    };
    let frame = frame_in_full(alloc, &store, max_locals, &stated)?;
    Ok(frame)
}
