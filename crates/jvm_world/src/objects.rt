//! Objects of a world by their numbers, and the words that are left of the heap.
#![tactic(auto, unfolding(crate::specs::View::world_of))]

ghost use Rattle.std.specs.Option.{option_copied};
ghost use Rattle.std.specs.Prelude.{◌≡◌, ◌+◌, ◌<◌, ◌^◌, length, List, Some, None, true, false, nat_le, IfSome, IfNone};
ghost use Rattle.machine_rules.specs.NewObjects.{literal, object_of_class};
ghost use Rattle.class_link.specs.Info.{Info};
ghost use Rattle.jvm_world.specs.View.{object_of, length_in, IsWorldOf, IsKept, IsObjectIn, SetsSlot, TellsRoom, TellsMade, TellsLength};

use crate::world::World;
use class_model::Name;
use class_table::Program;
use jvm_values::{ObjKind, Object};
use program_rules::Value;

// Whether so many words more are within a limit: a few, and one for each of some units.
fn is_within(used: u32, limit: u32, header: u32, units: usize) -> bool
    ensures { result ≡ nat_le (used + (header + units)) limit }
{
    if limit < used || limit - used < header {
        return false;
    }
    units <= (limit - used - header) as usize
}

// The number of an array's elements.
fn length_in(object: &Object) -> Option<i32>
    requires { length object.now.values < 2 ^ 31 }
    ensures some { IfSome result (λ n.
        (p : List Info) → length_in (Some (object_of p object.now)) ≡ Some n) }
    ensures none { IfNone result (
        (p : List Info) → length_in (Some (object_of p object.now)) ≡ None) }
{
    match &object.kind {
        ObjKind::Array(_) => Some(object.values.len() as i32),
        ObjKind::Plain(_) => None,
        ObjKind::Text => None,
    }
}

impl World {
    /// The object of a number, if there is one.
    pub fn object(&self, p: &Program, object: u32) -> Option<&Object>
        ensures { IsObjectIn p.now self.now object (option_copied result) }
    {
        let _ = p.len();
        self.heap.get(object)
    }

    /// A slot of an object holds this value from now on. It is false, and nothing changes, where
    /// there is no such object or slot.
    pub fn set_slot(&mut self, p: &Program, object: u32, slot: u32, value: Value) -> bool
        requires world { IsWorldOf p.now self.old }
        ensures sets { SetsSlot p.now self.old self.new object slot value result }
        ensures absent { result ≡ false → self.new ≡ self.old }
        ensures kept { IsKept p.now self.old self.new }
    {
        self.heap.set(object, slot, value)
    }

    /// The number of elements of an array.
    pub fn array_length(&self, p: &Program, object: u32) -> Option<i32>
        requires { IsWorldOf p.now self.now }
        ensures some { IfSome result (λ n. TellsLength p.now self.now object (Some n)) }
        ensures none { IfNone result (TellsLength p.now self.now object None) }
    {
        let _ = p.len();
        match self.heap.get(object) {
            Some(found) => length_in(found),
            None => None,
        }
    }

    // ---- the words that are left

    /// Whether so many words more are within the limit: a few, and one for each of some units.
    pub fn has_room(&self, p: &Program, header: u32, units: usize) -> bool
        ensures { TellsRoom p.now self.now (header + units) result }
    {
        let _ = p.len();
        is_within(self.heap.words(), self.limits.heap, header, units)
    }

    /// Whether the object of a literal was made, or there is room for it.
    pub fn has_room_for_literal(&self, p: &Program, text: &Name) -> bool
        ensures { TellsMade p.now self.now (λ v. literal self.now.limits v text.now) result }
    {
        match self.literals.get(text) {
            Some(_) => true,
            None => self.has_room(p, 2, text.len()),
        }
    }

    /// Whether the object of a class was made, or there is room for it.
    pub fn has_room_for_class(&self, p: &Program, name: &Name) -> bool
        ensures { TellsMade p.now self.now (λ v.
            object_of_class self.now.limits v name.now) result }
    {
        match self.class_objects.get(name) {
            Some(_) => true,
            None => self.has_room(p, 3, 0),
        }
    }
}
