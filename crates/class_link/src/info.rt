//! A class of a program.

ghost use Rattle.std.specs.Prelude.{◌≡◌, ◌<◌, ◌^◌, length, IfOk};
ghost use Rattle.std.specs.Option.{option_copied};
ghost use Rattle.class_model.specs.Pool.{text_of, class_name_of};
ghost use Rattle.class_link.specs.Symbols.{text_named};
ghost use Rattle.class_link.specs.View.{linked_of};
ghost use Rattle.class_link.specs.Edits.{AddsAlone, class_edited};
ghost use Rattle.class_link.specs.Info.{HasEntries, own_name, body_name, link_body, class_of};
ghost use Rattle.class_link.specs.Linking as linking;
ghost use Rattle.class_link.specs.declared.loaded.ClassBody.TheVariants as content;

use crate::edited_class::edited_class;
use crate::library_linking::link_library;
use crate::linked::LinkedClass;
use crate::linking::link;
use crate::loaded::{ClassBody, EditedFile};
use crate::relinking::link_edit;
use crate::texts::entry;
use class_model::{Class, Const, Memory, Name, Seq};
use std::alloc::Global;
use std::marker::Model;

/// A class of a program: its name, where it comes from, and what it means.
#[derive(Drop)]
pub struct ClassInfo {
    name: Name,
    body: ClassBody,
    linked: LinkedClass,
}

impl Model for ClassInfo {
    ghost use Rattle.std.specs.Coded.{codes};
    ghost use Rattle.class_model.specs.contracts.attribute.Body as content;
    ghost use Rattle.class_model.specs.contracts.attribute.Code as written;
    ghost use Rattle.class_link.specs.Info.{Info, IsInfo};

    ghost Value = { Info };

    ghost coded = { Prim.hlevel (codes, content.the_row.coded, written.the_row.coded) };

    ghost view = { λ i. record { name = i.name; body = i.body; linked = i.linked } };

    ghost invariant = { λ i. IsInfo (record { name = i.name; body = i.body; linked = i.linked }) };
}

impl ClassInfo {
    /// The class with what it means. Where it has 2^32 methods or more, memory runs out.
    pub fn new(alloc: Global, body: ClassBody) -> Result<ClassInfo, Memory>
        ensures body { IfOk result (λ info. info.body ≡ body) }
        ensures name { IfOk result (λ info. info.name ≡ body_name body) }
        ensures class { IfOk result (λ info. class_of info ≡ link_body body) }
    {
        let (name, linked) = name_and_link(alloc, &body)?;
        Ok(ClassInfo { name, body, linked })
    }

    /// The class of a class file that an edit makes of this one's. The code of the edited method
    /// alone is linked; what isn't edited is shared. Entries that are added mean what they say, and
    /// nothing else means anything else by them.
    #[tactic(auto, using(crate::proofs::EditLaws::entries_of, crate::proofs::EditLaws::edited_info))]
    pub fn edited(&self, alloc: Global, file: EditedFile) -> Result<ClassInfo, Memory>
        requires of { self.now.body ≡ content.File file.original }
        requires alone { AddsAlone file }
        ensures body { IfOk result (λ info. info.body ≡ content.Edited file) }
        ensures name { IfOk result (λ info. info.name ≡ own_name (class_edited file)) }
        ensures class { IfOk result (λ info. class_of info ≡ linking.link (class_edited file)) }
    {
        let Some(linked) = link_edit(alloc, &self.linked, &file)? else {
            return ClassInfo::new(alloc, ClassBody::Edited(file));
        };
        let name = self.name.copy()?;
        Ok(ClassInfo {
            name,
            body: ClassBody::Edited(file),
            linked,
        })
    }

    /// The class's name.
    pub fn name(&self) -> &Name
        ensures value { result.now ≡ self.now.name }
        ensures of_body { result.now ≡ body_name self.now.body }
    {
        &self.name
    }

    /// Where the class comes from.
    pub fn body(&self) -> &ClassBody
        ensures { result.now ≡ self.now.body }
    {
        &self.body
    }

    /// What the class means.
    pub fn linked(&self) -> &LinkedClass
        ensures value { result.now ≡ self.now.linked }
        ensures of_body { class_of self.now ≡ link_body self.now.body }
        ensures entries { HasEntries self.now.body self.now.linked.entries }
        ensures few { length self.now.linked.methods < 2 ^ 32 }
    {
        &self.linked
    }
}

// The text of an index, if there is one.
fn text_at(pool: &[Const], index: u16) -> Option<&Name>
    ensures { option_copied result ≡ text_of pool.now index }
{
    match entry(pool, index)? {
        Const::Utf8(text) => Some(text),
        _ => None,
    }
}

fn class_name_at(pool: &[Const], index: u16) -> Option<&Name>
    ensures { option_copied result ≡ class_name_of pool.now index }
{
    match entry(pool, index)? {
        Const::Class(name) => text_at(pool, *name),
        _ => None,
    }
}

/// A copy of the text that an index names, empty where it names none.
pub fn text_named(alloc: Global, pool: &[Const], index: u16) -> Result<Name, Memory>
    ensures { IfOk result (λ name. name ≡ text_named pool.now index) }
{
    match text_at(pool, index) {
        Some(text) => text.copy(),
        None => Ok(Seq::new(alloc)),
    }
}

/// A copy of the name that a class file gives to its class, empty where it gives none.
pub fn own_name(alloc: Global, class: &Class) -> Result<Name, Memory>
    ensures { IfOk result (λ name. name ≡ own_name class.now) }
{
    match class_name_at(class.pool.as_slice(), class.this) {
        Some(name) => Ok(name.copy()?),
        None => Ok(Seq::new(alloc)),
    }
}

fn body_name(alloc: Global, body: &ClassBody) -> Result<Name, Memory>
    ensures { IfOk result (λ name. name ≡ body_name body.now) }
{
    match body {
        ClassBody::File(loaded) => Ok(own_name(alloc, &loaded.class)?),
        ClassBody::Edited(file) => Ok(own_name(alloc, &edited_class(file)?)?),
        ClassBody::Library(class) => Ok(class.name.copy()?),
    }
}

fn link_body(alloc: Global, body: &ClassBody) -> Result<LinkedClass, Memory>
    ensures meant { IfOk result (λ linked. linked_of linked ≡ link_body body.now) }
    ensures entries { IfOk result (λ linked. HasEntries body.now linked.entries) }
{
    match body {
        ClassBody::File(loaded) => Ok(link(alloc, &loaded.class)?),
        ClassBody::Edited(file) => Ok(link(alloc, &edited_class(file)?)?),
        ClassBody::Library(class) => Ok(link_library(alloc, class)?),
    }
}

// The name and the meaning of a class that has a number for each of its methods.
fn name_and_link(alloc: Global, body: &ClassBody) -> Result<(Name, LinkedClass), Memory>
    ensures name { IfOk result (λ both. both.0 ≡ body_name body.now) }
    ensures linked { IfOk result (λ both. linked_of both.1 ≡ link_body body.now) }
    ensures entries { IfOk result (λ both. HasEntries body.now both.1.entries) }
    ensures few { IfOk result (λ both. length both.1.methods < 2 ^ 32) }
{
    let linked = link_body(alloc, body)?;
    if linked.methods.len() > u32::MAX as usize {
        return Err(Memory);
    }
    Ok((body_name(alloc, body)?, linked))
}
