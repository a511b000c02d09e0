//! The classes of a journal, and their numbers by their bytes.

ghost use Rattle.std.specs.Prelude.{◌≡◌, ◌∷◌, ◌++◌, ◌<◌, ◌^◌, [], length, IfOk, OnOk};
ghost use Rattle.job_journal.specs.Adding.{first_number};

use class_model::{Bytes, Memory, Seq, SharedBytes};
use std::alloc::Global;
use std::collections::BTreeMap;
use std::marker::Model;

/// The class files of a journal, in order. A contract sees their list. The number of one is asked of
/// a map, whatever the others are.
#[derive(Drop)]
pub struct ClassNumbers {
    alloc: Global,
    classes: Vec<SharedBytes>,
    numbers: BTreeMap<Vec<u8>, u32>,
}

impl Model for ClassNumbers {
    ghost use Rattle.std.specs.Prelude.{List, ℕ};
    ghost use Rattle.job_journal.specs.Numbers.{AreNumbers};

    ghost Value = { List (List ℕ) };

    ghost view = { λ n. n.classes.items };

    ghost invariant = { λ n. AreNumbers n.classes.items n.numbers };
}

impl ClassNumbers {
    /// No classes.
    pub fn new(alloc: Global) -> ClassNumbers
        ensures { result ≡ [] }
    {
        ClassNumbers {
            alloc,
            classes: Vec::new(alloc),
            numbers: BTreeMap::new(alloc),
        }
    }

    /// These classes.
    pub fn of(alloc: Global, classes: Seq<SharedBytes>) -> Result<ClassNumbers, Memory>
        ensures { IfOk result (λ numbers. numbers ≡ classes) }
    {
        let mut numbers = ClassNumbers::new(alloc);
        for class in classes.into_vec() {
            numbers.push(class)?;
        }
        Ok(numbers)
    }

    /// How many there are.
    pub fn len(&self) -> usize
        ensures len { result ≡ length self.now }
        ensures few { length self.now < 2 ^ 32 }
    {
        self.classes.len()
    }

    /// The number of a class, if it stands there; of equal ones that of the first.
    pub fn number(&self, class: &[u8]) -> Option<u32>
        ensures number { result ≡ first_number self.now class.now }
        ensures few { length self.now < 2 ^ 32 }
    {
        self.numbers.get(class).copied()
    }

    /// A class more, behind the others. So many that no number of four bytes is left are taken as want
    /// of memory.
    pub fn push(&mut self, class: SharedBytes) -> Result<(), Memory>
        ensures { OnOk result (self.new ≡ self.old ++ class ∷ []) }
    {
        if self.classes.len() >= u32::MAX as usize {
            return Err(Memory);
        }
        self.classes.reserve(1)?;
        let number = self.classes.len() as u32 + 1;
        if self.numbers.contains_key(class.as_slice()) {
            self.classes.push_reserved(class);
            return Ok(());
        }
        let copy = Bytes::from_slice(self.alloc, class.as_slice())?;
        let key = copy.into_vec();
        self.numbers.insert(key, number)?;
        self.classes.push_reserved(class);
        Ok(())
    }
}
