//! Objects that are made once for a name.

ghost use Rattle.std.specs.Prelude.{◌≡◌, ℕ, List, Some, None, if◌then◌else◌, OnOk};
ghost use Rattle.std.specs.BTreeMap.{get};
ghost use Rattle.std.specs.Cmp.Lexicographic.{slice_cmp};
ghost use Rattle.std.specs.Ordering.{nat_cmp};
ghost use Rattle.program_rules.specs.Names.{same};

use class_model::{Memory, Name};
use std::alloc::Global;
use std::collections::BTreeMap;

/// The objects that were made for names: of literals, or of classes.
#[derive(Drop)]
pub struct Made {
    objects: BTreeMap<Name, u32>,
}

impl Made {
    /// None was made.
    pub fn new(alloc: Global) -> Made
        ensures { (n : List ℕ) → get (slice_cmp nat_cmp) result.objects n ≡ None }
    {
        Made {
            objects: BTreeMap::new(alloc),
        }
    }

    /// The object of a name, if it was made.
    pub fn get(&self, name: &Name) -> Option<u32>
        ensures { result ≡ get (slice_cmp nat_cmp) self.now.objects name.now }
    {
        self.objects.get(name).copied()
    }

    /// This object is made for a name from now on.
    pub fn add(&mut self, name: &Name, object: u32) -> Result<(), Memory>
        ensures { OnOk result ((n : List ℕ) → get (slice_cmp nat_cmp) self.new.objects n
            ≡ (if same name.now n then Some object
            else get (slice_cmp nat_cmp) self.old.objects n)) }
    {
        add_object(&mut self.objects, name, object)
    }
}

fn add_object(objects: &mut BTreeMap<Name, u32>, name: &Name, object: u32) -> Result<(), Memory>
    ensures { OnOk result ((n : List ℕ) → get (slice_cmp nat_cmp) objects.new n
        ≡ (if same name.now n then Some object else get (slice_cmp nat_cmp) objects.old n)) }
{
    objects.insert(name.copy()?, object)?;
    Ok(())
}
