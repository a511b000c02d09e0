//! Fields of objects that references name, with their slots.

ghost use Rattle.std.specs.Prelude.{◌<◌, false, List, length, IfOk, IfSome};
ghost use Rattle.program_rules.specs.Outlines.{fields_in};
ghost use Rattle.class_link.specs.Info.{Info};
ghost use Rattle.class_link.specs.declared.linked.Entry.TheVariants.{Field};
ghost use Rattle.jvm_link.specs.Named.{IsClassNamed};
ghost use Rattle.jvm_link.specs.Sites.{outline_at};
ghost use Rattle.jvm_link.specs.References.{IsEntry, IsFieldNamed};
ghost use Rattle.jvm_members.specs.Sites.{ServesIn, TellsStatic};
ghost use Rattle.jvm_members.specs.Slots.{AreSlots, IsKnown, IsObjectField};

use crate::sites::ObjectField;
use class_family::class_behind;
use class_link::FieldRef;
use class_model::{ClassId, Memory};
use class_table::Program;
use jvm_link::{Held, Site, held_at, hold};
use std::alloc::Global;
use std::marker::Model;

/// The fields of objects that the constant pools of a program's classes name, with their slots, as
/// far as they were asked. What is kept depends on the program alone, not on the run.
#[derive(Drop)]
pub struct Slots {
    rows: Vec<Held<ObjectField>>,
}

impl Model for Slots {
    ghost use Rattle.std.specs.Prelude.{List, Option};
    ghost use Rattle.jvm_members.specs.declared.sites.ObjectField.{ObjectField as Known};

    ghost Value = { List (List (Option Known)) };

    ghost view = { λ s. s.rows.items };
}

// The slot in an object of a class; the highest number where it takes more than 32 bits.
#[tactic(auto, using(crate::proofs::Slotted::serves_same, crate::proofs::Slotted::serves_last))]
fn slot_within(p: &Program, root: ClassId, site: Site) -> u32
    requires root { root.0 < length p.now }
    requires class { site.class.0 < length p.now }
    requires place { site.place < length (fields_in (outline_at p.now site.class.0)) }
    ensures { ServesIn p.now root.0 site result }
{
    match jvm_layout::slot_of(p, root, site.class, site.place) {
        Some(slot) => slot,
        None => u32::MAX,
    }
}

// The class that a reference names, where that resolves to a field.
fn class_named(
    alloc: Global,
    p: &Program,
    reference: &FieldRef,
    site: Site,
) -> Result<ClassId, Memory>
    requires { IsFieldNamed p.now reference.now site }
    ensures { IfOk result (λ id. IsClassNamed p.now reference.now.class id) }
{
    let name = class_behind(alloc, &reference.class)?;
    match p.find(&name) {
        Some(id) => Ok(id),
        None => unreachable!(),
    }
}

// The field of objects that a reference resolves to.
#[tactic(auto, using(crate::proofs::Fielded::place_within))]
fn object_field(
    alloc: Global,
    p: &Program,
    reference: &FieldRef,
    site: Site,
) -> Result<ObjectField, Memory>
    requires site { IsFieldNamed p.now reference.now site }
    requires object { TellsStatic p.now site false }
    ensures { IfOk result (IsObjectField p.now reference.now) }
{
    let named = class_named(alloc, p, reference, site)?;
    let slot = slot_within(p, named, site);
    Ok(ObjectField { named, site, slot })
}

impl Slots {
    /// Nothing was asked yet, which is right for each program.
    #[tactic(auto, using(crate::proofs::Slotted::none_held))]
    pub fn new(alloc: Global) -> Slots
        ensures { (p : List Info) → AreSlots p result }
    {
        Slots {
            rows: Vec::new(alloc),
        }
    }

    /// The field of objects that the reference at an index of a class's constant pool resolves to,
    /// if it was asked before.
    #[inline(always)]
    #[tactic(auto, using(crate::proofs::Slotted::held_field))]
    pub fn known(&self, p: &Program, class: ClassId, index: u32) -> Option<ObjectField>
        requires { AreSlots p.now self.now }
        ensures { IfSome result (IsKnown p.now class.0 index) }
    {
        held_at(&self.rows, class, index)
    }

    // Holds the field of the reference at an index of a class.
    #[tactic(auto, using(crate::proofs::Slotted::held_more, crate::proofs::Slotted::held_same))]
    fn hold(
        &mut self,
        p: &Program,
        class: ClassId,
        index: u32,
        reference: &FieldRef,
        field: ObjectField,
    ) -> Result<(), Memory>
        requires slots { AreSlots p.now self.old }
        requires entry { IsEntry p.now class.0 index (Field reference.now) }
        requires right { IsObjectField p.now reference.now field }
        ensures { AreSlots p.now self.new }
    {
        hold(&mut self.rows, class, index, field)?;
        Ok(())
    }

    /// Finds the slot of the field of objects that the reference at an index of a class's constant
    /// pool resolves to, and holds the field from then on.
    pub fn keep(
        &mut self,
        alloc: Global,
        p: &Program,
        class: ClassId,
        index: u32,
        reference: &FieldRef,
        site: Site,
    ) -> Result<ObjectField, Memory>
        requires slots { AreSlots p.now self.old }
        requires entry { IsEntry p.now class.0 index (Field reference.now) }
        requires site { IsFieldNamed p.now reference.now site }
        requires object { TellsStatic p.now site false }
        ensures field { IfOk result (IsObjectField p.now reference.now) }
        ensures slots { AreSlots p.now self.new }
    {
        let field = object_field(alloc, p, reference, site)?;
        self.hold(p, class, index, reference, field)?;
        Ok(field)
    }
}
