//! Slices by number.

ghost use Rattle.std.specs.Prelude.{◌≡◌, ◌<◌, ◌^◌, ℕ, List, map, length, IfOk, OnOk};
ghost use Rattle.history_index.specs.Numbers.{AreNumbersOf, NotesNumber, number_in};

use class_model::Memory;
use std::alloc::Global;
use std::collections::BTreeMap;

/// The number of each of some slices. A question costs the logarithm of how many there are times
/// the length of the slice that is asked about, whatever the others are.
#[derive(Drop)]
pub struct Numbers<'a> {
    numbers: BTreeMap<&'a [u8], u32>,
}

impl<'a> Numbers<'a> {
    // One slice more, whose number is kept if it has none yet.
    #[tactic(auto, using(crate::proofs::Noting::noted_again))]
    fn note(&mut self, slice: &'a [u8], number: u32) -> Result<(), Memory>
        ensures { OnOk result (NotesNumber slice.now number self.old self.new) }
    {
        if self.numbers.contains_key(slice) {
            return Ok(());
        }
        self.numbers.insert(slice, number)?;
        Ok(())
    }

    /// How many slices stand before each.
    pub fn of(alloc: Global, slices: &[&'a [u8]]) -> Result<Numbers<'a>, Memory>
        requires { length slices.now < 2 ^ 32 }
        ensures { IfOk result (AreNumbersOf (map (λ s. s.now) slices.now)) }
    {
        let mut numbers = Numbers {
            numbers: BTreeMap::new(alloc),
        };
        let mut before = 0;
        for slice in slices {
            numbers.note(slice, before)?;
            before += 1;
        }
        Ok(numbers)
    }

    /// The number of a slice with these bytes, if there is one.
    pub fn get(&self, bytes: &[u8]) -> Option<u32>
        ensures { (slices : List (List ℕ)) → AreNumbersOf slices self.now →
            result ≡ number_in slices bytes.now }
    {
        self.numbers.get(bytes).copied()
    }
}
