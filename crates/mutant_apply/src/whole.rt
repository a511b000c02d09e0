//! An edit of a class.

ghost use Rattle.std.specs.Prelude.{◌≡◌, ◌++◌, IfOk};
ghost use Rattle.class_writer.specs.Writing.{HasClassForm};
ghost use Rattle.mutant_apply.specs.Edited.{edited_parts, class_with, applied};
ghost use Rattle.mutant_apply.specs.Fitting.{Fits};
ghost use Rattle.mutant_apply.specs.Room.{Makes};

use crate::code::edited_code;
use crate::members::{methods_with, named_code};
use crate::parts::Parts;
use crate::refusal::Refusal;
use class_model::{Bytes, Class, Const, Edit, LayoutFault, Memory, Seq, push_entries};
use class_writer::write_class;
use std::alloc::Global;

fn parts_or_refusal(class: &Class, edit: &Edit) -> Result<Parts, Refusal>
    requires form { HasClassForm class.now }
    requires fits { Fits class.now edit.now }
    ensures { Makes (edited_parts edit.now class.now) result }
{
    let Some(code) = named_code(edit, class) else {
        return Err(Refusal::NoLayout);
    };
    edited_code(&class.pool, edit, code)
}

/// The parts of a class that an edit makes anew; none exactly where a bound of the format is passed
/// by them. What the edit leaves isn't copied.
pub fn edited_parts(class: &Class, edit: &Edit) -> Result<Option<Parts>, Memory>
    requires form { HasClassForm class.now }
    requires fits { Fits class.now edit.now }
    ensures { IfOk result (λ parts. parts ≡ edited_parts edit.now class.now) }
{
    match parts_or_refusal(class, edit) {
        Ok(parts) => Ok(Some(parts)),
        Err(Refusal::NoLayout) => Ok(None),
        Err(Refusal::Memory) => Err(Memory),
    }
}

/// The class with parts that an edit makes anew.
pub fn class_with(class: &Class, edit: &Edit, parts: &Parts) -> Result<Class, Memory>
    ensures { IfOk result (λ edited. edited ≡ class_with edit.now class.now parts.now) }
{
    let mut pool = class.pool.copy()?;
    push_entries(&mut pool, parts.added.as_slice())?;
    Ok(Class {
        minor: class.minor,
        major: class.major,
        pool,
        flags: class.flags,
        this: class.this,
        parent: class.parent,
        interfaces: class.interfaces.copy()?,
        fields: class.fields.copy()?,
        methods: methods_with(edit, &parts.code, class)?,
        attrs: class.attrs.copy()?,
    })
}

/// The class that an edit makes, with its bytes; none exactly where a bound of the format is
/// passed.
pub fn apply(alloc: Global, class: &Class, edit: &Edit) -> Result<Option<(Class, Bytes)>, Memory>
    requires form { HasClassForm class.now }
    requires fits { Fits class.now edit.now }
    ensures { IfOk result (λ made. made ≡ applied class.now edit.now) }
{
    let Some(parts) = edited_parts(class, edit)? else {
        return Ok(None);
    };
    let edited = class_with(class, edit, &parts)?;
    match write_class(alloc, &edited) {
        Ok(bytes) => Ok(Some((edited, bytes))),
        Err(LayoutFault::TooLarge { .. }) => Ok(None),
        Err(LayoutFault::Memory) => Err(Memory),
    }
}
