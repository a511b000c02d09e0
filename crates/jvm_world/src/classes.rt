//! The classes of which the machine makes objects by itself.

ghost use Rattle.std.specs.Prelude.{◌≡◌, ◌∷◌, [], map, IfOk};
ghost use Rattle.std.proofs.Common.{get_or};
ghost use Rattle.program_rules.specs.Names.{class_name};
ghost use Rattle.program_rules.specs.Faults.{fault_name};
ghost use Rattle.class_table.specs.Table.{look, name_at};
ghost use Rattle.jvm_world.specs.Classes.{fault_place, fault_id, machine_names, AreMachineClasses};
ghost use Rattle.jvm_world.specs.Finding.{Finds};

use class_model::names::ascii;
use class_model::{ClassId, Memory};
use class_table::Program;
use program_rules::Fault;
use std::alloc::Global;
use std::marker::Model;

// The exceptions by their places, and the class of classes.
const NAMES: [&str; 23] = [
    "java/lang/StackOverflowError",
    "java/lang/AssertionError",
    "java/lang/NullPointerException",
    "java/lang/NoClassDefFoundError",
    "java/lang/NoSuchFieldError",
    "java/lang/NoSuchMethodError",
    "java/lang/IncompatibleClassChangeError",
    "java/lang/AbstractMethodError",
    "java/lang/InstantiationError",
    "java/lang/ExceptionInInitializerError",
    "java/lang/ArithmeticException",
    "java/lang/ArrayIndexOutOfBoundsException",
    "java/lang/NegativeArraySizeException",
    "java/lang/ArrayStoreException",
    "java/lang/ClassCastException",
    "java/lang/IllegalMonitorStateException",
    "java/lang/IndexOutOfBoundsException",
    "java/lang/StringIndexOutOfBoundsException",
    "java/lang/IllegalArgumentException",
    "java/lang/NumberFormatException",
    "java/lang/UnsupportedOperationException",
    "java/util/NoSuchElementException",
    "java/lang/Class",
];

/// The numbers of the classes of which the machine makes objects by itself. Contracts see them by
/// their places.
#[derive(Drop)]
pub struct MachineClasses {
    ids: Vec<ClassId>,
}

impl Model for MachineClasses {
    ghost use Rattle.std.specs.Prelude.{List, map, ℕ};

    ghost Value = { List ℕ };

    ghost view = { λ c. map (λ x. x.0) c.ids.items };
}

impl MachineClasses {
    /// The classes in a program; none where it lacks one of them.
    pub fn find(alloc: Global, p: &Program) -> Result<Option<MachineClasses>, Memory>
        ensures { IfOk result (Finds (look p.now) machine_names (AreMachineClasses p.now)) }
    {
        let Some(ids) = find_all(alloc, p, &NAMES)? else {
            return Ok(None);
        };
        Ok(Some(MachineClasses { ids }))
    }

    /// The same classes once more.
    pub fn copy(&self, alloc: Global) -> Result<MachineClasses, Memory>
        ensures { IfOk result (λ c. c ≡ self.now) }
    {
        let mut ids = Vec::with_capacity(alloc, self.ids.len())?;
        ids.extend_from_slice(&self.ids)?;
        Ok(MachineClasses { ids })
    }

    /// The class of an exception.
    pub fn fault(&self, fault: Fault) -> ClassId
        ensures { result.0 ≡ fault_id fault self.now }
    {
        id_at(&self.ids, place(fault))
    }

    /// The class of classes.
    pub fn class(&self) -> ClassId
        ensures { result.0 ≡ get_or self.now 22 0 }
    {
        id_at(&self.ids, 22)
    }
}

// The class of this name; none where it is missing.
fn find_one(alloc: Global, p: &Program, text: &str) -> Result<Option<ClassId>, Memory>
    ensures { IfOk result (Finds (look p.now) (text.now ∷ []) (λ id.
        name_at p.now id.0 ≡ text.now)) }
{
    let name = ascii(alloc, text)?;
    Ok(p.find(&name))
}

// The classes of these names; none where one is missing.
fn find_all(alloc: Global, p: &Program, names: &[&str]) -> Result<Option<Vec<ClassId>>, Memory>
    ensures { IfOk result (Finds (look p.now) (map (λ t. t.now) names.now) (λ ids.
        map (name_at p.now) (map (λ x. x.0) ids.items) ≡ map (λ t. t.now) names.now)) }
{
    let mut ids = Vec::with_capacity(alloc, names.len())?;
    for text in names {
        let Some(id) = find_one(alloc, p, text)? else {
            return Ok(None);
        };
        ids.push(id)?;
    }
    Ok(Some(ids))
}

// The number at a place.
fn id_at(ids: &[ClassId], place: usize) -> ClassId
    ensures { result.0 ≡ get_or (map (λ x. x.0) ids.now) place 0 }
{
    match ids.get(place) {
        Some(id) => *id,
        None => ClassId(0),
    }
}

// The place of an exception.
fn place(fault: Fault) -> usize
    ensures { result ≡ fault_place fault }
{
    match fault {
        Fault::StackOverflowError => 0,
        Fault::AssertionError => 1,
        Fault::NullPointerException => 2,
        Fault::NoClassDefFoundError => 3,
        Fault::NoSuchFieldError => 4,
        Fault::NoSuchMethodError => 5,
        Fault::IncompatibleClassChangeError => 6,
        Fault::AbstractMethodError => 7,
        Fault::InstantiationError => 8,
        Fault::ExceptionInInitializerError => 9,
        Fault::ArithmeticException => 10,
        Fault::ArrayIndexOutOfBoundsException => 11,
        Fault::NegativeArraySizeException => 12,
        Fault::ArrayStoreException => 13,
        Fault::ClassCastException => 14,
        Fault::IllegalMonitorStateException => 15,
        Fault::IndexOutOfBoundsException => 16,
        Fault::StringIndexOutOfBoundsException => 17,
        Fault::IllegalArgumentException => 18,
        Fault::NumberFormatException => 19,
        Fault::UnsupportedOperationException => 20,
        Fault::NoSuchElementException => 21,
    }
}
