//! A history in which names, classes and tests are found.

ghost use Rattle.std.specs.Prelude.{◌≡◌, ◌↔◌, IfOk, IsTrue, None, Some, if◌then◌else◌, option_map, suc};
ghost use Rattle.class_model.specs.Text.{units_of};
ghost use Rattle.history_index.specs.Numbers.{IsIndexed, name_number, number_in, pair_number, pair_of};
ghost use Rattle.history_index.specs.Numbers.{test_by, test_number, test_of_class};
ghost use Rattle.history_index.specs.Standings.{IsSwap, swap_by};
ghost use Rattle.history_file.specs.Rows.{IsNumbered};

use crate::numbers::Numbers;
use crate::pairs::Pairs;
use crate::standings::Swap;
use class_model::{Memory, Name, TextFault, read_text, write_text};
use history_file::{History, Row};
use std::alloc::Global;
use std::marker::Model;

/// A history, and the numbers of its names, its classes and the tests of its records.
#[derive(Drop)]
pub struct HistoryIndex<'a> {
    history: History<'a>,
    names: Numbers<'a>,
    classes: Numbers<'a>,
    tests: Pairs,
}

impl<'a> Model for HistoryIndex<'a> {
    ghost use Rattle.history_index.specs.Numbers.{Indexed, IsIndexed, AreNumbersOf, ArePairs, pairs_in};

    ghost Value = { Indexed };

    ghost view = { λ i. record { history = i.history; tests = pairs_in i.tests } };

    ghost invariant = { λ i.
        IsIndexed (record { history = i.history; tests = pairs_in i.tests })
        × AreNumbersOf i.history.texts i.names
        × AreNumbersOf i.history.classes i.classes
        × ArePairs i.tests };
}

// Whether these bytes spell the name. Its text does, unless something isn't a code unit.
fn is_spelled(alloc: Global, name: &Name, text: &[u8]) -> Result<bool, Memory>
    ensures { IfOk result (λ b. IsTrue b ↔ (units_of text.now ≡ Some name.now)) }
{
    match read_text(alloc, text) {
        Ok(read) => Ok(read.as_slice() == name.as_slice()),
        Err(TextFault::BadText { .. }) => Ok(false),
        Err(TextFault::Memory) => Err(Memory),
    }
}

impl<'a> HistoryIndex<'a> {
    /// The index of a history. It takes time by the bytes of its names and classes times the
    /// logarithm of how many there are, whatever they are.
    pub fn build(alloc: Global, history: History<'a>) -> Result<HistoryIndex<'a>, Memory>
        ensures { IfOk result (λ i. i.history ≡ history.entry) }
    {
        let names = Numbers::of(alloc, history.texts())?;
        let classes = Numbers::of(alloc, history.classes())?;
        let tests = Pairs::of(alloc, history.rows())?;
        Ok(HistoryIndex {
            history,
            names,
            classes,
            tests,
        })
    }

    pub fn history(&self) -> &History<'a>
        ensures { result.now ≡ self.now.history }
    {
        &self.history
    }

    /// The tests of the records, by the numbers of class and method; the first has number 0.
    pub fn tests(&self) -> &[(u32, u32)]
        ensures tests { result.now ≡ self.now.tests }
        ensures known { IsIndexed self.now }
    {
        self.tests.as_slice()
    }

    /// The number of a name.
    pub fn name(&self, alloc: Global, name: &Name) -> Result<Option<u32>, Memory>
        ensures number { IfOk result (λ k. k ≡ name_number self.now.history.texts name.now) }
        ensures known { IsNumbered self.now.history }
    {
        let _tests = self.tests();
        let text = write_text(alloc, name)?;
        let bytes = text.as_slice();
        let spelled = is_spelled(alloc, name, bytes)?;
        let number = self.number_of(bytes, spelled);
        Ok(number)
    }

    // The number of a text that spells its name; else there is none.
    fn number_of(&self, text: &[u8], spelled: bool) -> Option<u32>
        ensures { result ≡ (if spelled then number_in self.now.history.texts text.now else None) }
    {
        if spelled { self.names.get(text) } else { None }
    }

    /// The number of a class, from 1, by its bytes.
    pub fn class(&self, bytes: &[u8]) -> Option<u32>
        ensures { result ≡ option_map suc (number_in self.now.history.classes bytes.now) }
    {
        let before = self.classes.get(bytes)?;
        Some(before + 1)
    }

    /// The number of a test, by its names.
    pub fn test(&self, alloc: Global, class: &Name, method: &Name) -> Result<Option<u32>, Memory>
        ensures { IfOk result (λ t. t ≡ test_number self.now class.now method.now) }
    {
        let class = self.name(alloc, class)?;
        let method = self.name(alloc, method)?;
        Ok(self.test_by(class, method))
    }

    // The number of a test, by the numbers of its names.
    fn test_by(&self, class: Option<u32>, method: Option<u32>) -> Option<u32>
        ensures { result ≡ test_by self.now.tests class method }
    {
        match class {
            Some(class) => self.test_of_class(class, method),
            None => None,
        }
    }

    fn test_of_class(&self, class: u32, method: Option<u32>) -> Option<u32>
        ensures { result ≡ test_of_class self.now.tests method class }
    {
        match method {
            Some(method) => self.tests.get((class, method)),
            None => None,
        }
    }

    /// The number of a record's test.
    pub fn test_of(&self, row: &Row) -> Option<u32>
        ensures { result ≡ pair_number self.now.tests (pair_of row.now) }
    {
        self.tests.get((row.test_class, row.test_method))
    }

    /// What is another one, to the history, where the class of this name has a class file of these
    /// bytes: nothing, if the history doesn't name it.
    pub fn swap(&self, alloc: Global, name: &Name, bytes: &[u8]) -> Result<Option<Swap>, Memory>
        ensures { IfOk result (IsSwap self.now.history name.now bytes.now) }
    {
        let number = self.name(alloc, name)?;
        let swap = self.swap_by(number, bytes);
        Ok(swap)
    }

    fn swap_by(&self, number: Option<u32>, bytes: &[u8]) -> Option<Swap>
        ensures { result ≡ swap_by self.now.history.classes bytes.now number }
    {
        match number {
            Some(name) => Some(Swap {
                name,
                class: self.class(bytes),
            }),
            None => None,
        }
    }
}
