//! How the names of a history stand in a program: which of its classes are the history's.

ghost use Rattle.std.specs.Prelude.{◌≡◌, false, IfOk, OnOk, option_map, slice_set};
ghost use Rattle.history_index.specs.Standings.{AreStandings, PutsClass, listed, no_look, no_files};
ghost use Rattle.history_index.specs.Standings.{set_at, standing_of};

use crate::index::HistoryIndex;
use class_model::{Memory, Name};
use std::alloc::Global;
use std::marker::Model;

/// One class file of a program is another: the number of its name, and the class number of its
/// bytes, if they are a class of the history.
#[derive(Clone, Copy)]
pub struct Swap {
    pub name: u32,
    pub class: Option<u32>,
}

/// For each name of a history, by number, the class number with which a record says what a program
/// has under it: 0 where that has no class of the name, and none where no record can say it, as of
/// a class of the library or of bytes that aren't the history's.
#[derive(Drop)]
pub struct Standings {
    classes: Vec<Option<u32>>,
}

impl Model for Standings {
    ghost use Rattle.std.specs.Prelude.{ℕ, List, Option};

    ghost Value = { List (Option ℕ) };

    ghost view = { λ s. s.classes.items };
}

// The class number of a class file, if it is the history's. Of a class of the library there is
// none.
fn class_in(index: &HistoryIndex, file: Option<&[u8]>) -> Option<u32>
    ensures { result ≡ standing_of index.now.history.classes false
        (option_map (λ s. s.now) file.entry) }
{
    match file {
        Some(bytes) => index.class(bytes),
        None => None,
    }
}

impl Standings {
    /// Those of a program without classes.
    #[tactic(auto, using(crate::proofs::Putting::none_are))]
    pub fn new(alloc: Global, index: &HistoryIndex) -> Result<Standings, Memory>
        ensures { IfOk result (AreStandings index.now.history no_look no_files) }
    {
        let names = index.history().texts().len();
        let mut classes = Vec::with_capacity(alloc, names)?;
        while classes.len() < names {
            classes.push(Some(0))?;
        }
        Ok(Standings { classes })
    }

    /// The program has one class more, or another one: of this name, with these bytes if it is of a
    /// class file.
    pub fn put(
        &mut self,
        alloc: Global,
        index: &HistoryIndex,
        name: &Name,
        file: Option<&[u8]>,
    ) -> Result<(), Memory>
        ensures { OnOk result (PutsClass index.now.history name.now
            (option_map (λ s. s.now) file.entry) self.old self.new) }
    {
        let number = index.name(alloc, name)?;
        let class = class_in(index, file);
        self.set(number, class);
        Ok(())
    }

    // Sets the class number of a name by its number, if it has one.
    fn set(&mut self, number: Option<u32>, class: Option<u32>)
        ensures { self.new ≡ set_at self.old number class }
    {
        if let Some(number) = number {
            self.set_at(number as usize, class);
        }
    }

    fn set_at(&mut self, at: usize, class: Option<u32>)
        ensures { self.new ≡ slice_set self.old at class }
    {
        if at < self.classes.len() {
            self.classes[at] = class;
        }
    }

    /// The class number of a name, by its number.
    pub fn get(&self, name: u32) -> Option<u32>
        ensures { result ≡ listed self.now name }
    {
        match self.classes.get(name as usize) {
            Some(class) => *class,
            None => None,
        }
    }
}
