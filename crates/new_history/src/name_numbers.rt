//! Names by number.

ghost use Rattle.std.specs.Prelude.{◌≡◌, ◌+◌, ◌<◌, ◌^◌, [], All, None, length, map, IfOk};
ghost use Rattle.class_model.specs.Text.{IsUnits};
ghost use Rattle.history_file.specs.Texts.{number_in};
ghost use Rattle.new_history.specs.Numbering.{AreNames, Once, PutsName, names_by};

use class_model::{Memory, Name, Seq};
use std::alloc::Global;
use std::collections::BTreeMap;

/// Names, each once, by number. A question costs the logarithm of how many there are times the
/// length of the name that is asked about, whatever the others are.
#[derive(Drop)]
pub struct NameNumbers<'n> {
    numbers: BTreeMap<&'n [u16], u32>,
    names: Seq<&'n Name>,
}

impl<'n> NameNumbers<'n> {
    /// No names.
    pub fn new(alloc: Global) -> NameNumbers<'n>
        ensures known { AreNames result }
        ensures none { names_by result ≡ [] }
    {
        NameNumbers {
            numbers: BTreeMap::new(alloc),
            names: Seq::new(alloc),
        }
    }

    // The number of a name, if it is there.
    fn find(&self, name: &[u16]) -> Option<u32>
        requires { AreNames self.now }
        ensures { result ≡ number_in (names_by self.now) name.now }
    {
        self.numbers.get(name).copied()
    }

    // One name more.
    fn add(&mut self, name: &'n Name) -> Result<u32, Memory>
        requires known { AreNames self.old }
        requires units { IsUnits name.now }
        requires fresh { number_in (names_by self.old) name.now ≡ None }
        requires room { length (names_by self.old) + 1 < 2 ^ 32 }
        ensures { IfOk result (PutsName name.now self.old self.new) }
    {
        let number = self.names.len() as u32;
        self.numbers.insert(name.as_slice(), number)?;
        self.names.push(name)?;
        Ok(number)
    }

    /// The number of a name; a new one is the next.
    pub fn number(&mut self, name: &'n Name) -> Result<u32, Memory>
        requires known { AreNames self.old }
        requires units { IsUnits name.now }
        requires room { length (names_by self.old) + 1 < 2 ^ 32 }
        ensures { IfOk result (PutsName name.now self.old self.new) }
    {
        if let Some(number) = self.find(name.as_slice()) {
            return Ok(number);
        }
        let number = self.add(name)?;
        Ok(number)
    }

    /// These names, by their places, and no others.
    pub fn of(alloc: Global, names: &'n [Name]) -> Result<NameNumbers<'n>, Memory>
        requires units { All IsUnits names.now }
        requires once { Once names.now }
        requires few { length names.now < 2 ^ 32 }
        ensures known { IfOk result AreNames }
        ensures names { IfOk result (λ n. names_by n ≡ names.entry.now) }
    {
        let mut numbers = NameNumbers::new(alloc);
        for name in names {
            numbers.number(name)?;
        }
        Ok(numbers)
    }

    /// The names, in the order of their numbers.
    pub fn names(&self) -> &[&'n Name]
        ensures { map (λ s. s.now) result.now ≡ names_by self.now }
    {
        self.names.as_slice()
    }
}
