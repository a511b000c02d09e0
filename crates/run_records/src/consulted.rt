//! The names that a run has consulted, with the bytes of their class files and the places of their
//! classes.

ghost use Rattle.std.specs.Prelude.{◌≡◌, ◌<◌, ◌^◌, length, IfOk, OnOk};
ghost use Rattle.run_records.specs.Asking.{bytes_of, held_by};
ghost use Rattle.run_records.specs.Places.{AddsName, HasPlaces, Keeps, NotesName, SetsPlace, place_of};

use crate::class_files::bytes_in;
use class_model::{ClassId, Memory, Name, Seq, SharedBytes};
use class_table::{ClassInfo, Program};
use std::alloc::Global;
use std::collections::BTreeMap;

/// Consulted names, in order.
#[derive(Drop)]
pub struct Consulted {
    /// Each with the bytes of its class file, if there is one.
    pub entries: Vec<(Name, Option<SharedBytes>)>,
    // for a class by its number the place of its name among these
    places: BTreeMap<u32, u32>,
}

// The bytes of a class's file, once more.
fn bytes_of(info: &ClassInfo) -> Result<Option<SharedBytes>, Memory>
    ensures { IfOk result (λ bytes. bytes ≡ bytes_of info.now) }
{
    match bytes_in(info.body()) {
        Some(bytes) => Ok(Some(bytes.copy()?)),
        None => Ok(None),
    }
}

// Keeps the place of a class, if none is kept.
#[tactic(auto, using(crate::proofs::Placing::set_kept, crate::proofs::Placing::set_new))]
fn set_place(places: &mut BTreeMap<u32, u32>, class: u32, place: u32) -> Result<(), Memory>
    ensures { OnOk result (SetsPlace class place places.old places.new) }
{
    if places.contains_key(&class) {
        return Ok(());
    }
    places.insert(class, place)?;
    Ok(())
}

impl Consulted {
    // Keeps the place of a name that stands behind the others, and gives the bytes of its class
    // file, if there is one.
    #[tactic(auto, using(crate::proofs::Placing::noted, crate::proofs::Placing::not_noted))]
    fn note(&mut self, p: &Program, name: &Name) -> Result<Option<SharedBytes>, Memory>
        requires { length self.old.entries.items < 2 ^ 32 }
        ensures entries { self.new.entries ≡ self.old.entries }
        ensures bytes { IfOk result (λ bytes. bytes ≡ held_by p.now name.now) }
        ensures places { OnOk result (NotesName p.now name.now
            (length self.old.entries.items) self.old.places self.new.places) }
    {
        // what every program is, for the prover alone
        let _len = p.len();
        let Some(id) = p.find(name) else {
            return Ok(None);
        };
        let place = self.entries.len() as u32;
        set_place(&mut self.places, id.0, place)?;
        let bytes = bytes_of(p.info(id))?;
        Ok(bytes)
    }

    // One more name.
    fn add(&mut self, p: &Program, name: Name) -> Result<(), Memory>
        requires few { length self.old.entries.items < 2 ^ 32 }
        requires places { HasPlaces p.now self.old }
        ensures { OnOk result (AddsName p.now name self.old self.new) }
    {
        let bytes = self.note(p, &name)?;
        self.entries.push((name, bytes))?;
        Ok(())
    }

    /// These names.
    #[tactic(auto, using(crate::proofs::Placing::one_more, crate::proofs::Placing::count_of, crate::proofs::Placing::all_kept))]
    pub fn new(alloc: Global, p: &Program, names: Seq<Name>) -> Result<Consulted, Memory>
        requires { length names < 2 ^ 32 }
        ensures few { IfOk result (λ c. length c.entries.items < 2 ^ 32) }
        ensures kept { IfOk result (Keeps p.now names) }
    {
        let entries = Vec::with_capacity(alloc, names.len())?;
        let mut kept = Consulted {
            entries,
            places: BTreeMap::new(alloc),
        };
        for name in names.into_vec() {
            kept.add(p, name)?;
        }
        Ok(kept)
    }

    /// The place of the name of a class of this number; how many names there are, if it has none.
    pub fn place_of(&self, class: ClassId) -> u32
        requires { length self.now.entries.items < 2 ^ 32 }
        ensures { result ≡ place_of self.now class.0 }
    {
        match self.places.get(&class.0) {
            Some(place) => *place,
            None => self.entries.len() as u32,
        }
    }
}
