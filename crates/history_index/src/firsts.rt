//! First records of a test that would match if the class of a name were another.

ghost use Rattle.std.specs.Prelude.{◌≡◌, ℕ, None, is_some, IfOk, OnOk};
ghost use Rattle.history_index.specs.Firsts.{first_at, Notes, SetsFirst};
ghost use Rattle.history_index.specs.Groups.{group_of};

use crate::groups::{others_for, place_of};
use class_model::Memory;
use std::alloc::Global;
use std::collections::BTreeMap;

/// For a test, a name and a class, by number, the place of a record; in maps of a few tests each.
#[derive(Drop)]
pub struct Firsts {
    others: Vec<BTreeMap<(u32, u32, u32), u32>>,
    last: BTreeMap<(u32, u32, u32), u32>,
}

impl Firsts {
    /// No places. It is made for so many tests.
    #[tactic(auto, using(crate::proofs::Grouping::more_groups, crate::proofs::Grouping::no_groups, crate::proofs::Keys::no_firsts))]
    pub fn new(alloc: Global, tests: usize) -> Result<Firsts, Memory>
        ensures { IfOk result (λ f. (t k c : ℕ) → first_at f t k c ≡ None) }
    {
        let count = others_for(tests);
        let mut others = Vec::with_capacity(alloc, count)?;
        while others.len() < count {
            others.push(BTreeMap::new(alloc))?;
        }
        Ok(Firsts {
            others,
            last: BTreeMap::new(alloc),
        })
    }

    // The map of a test.
    #[tactic(auto, using(crate::proofs::Grouping::group_other, crate::proofs::Grouping::group_last))]
    fn group(&self, test: u32) -> &BTreeMap<(u32, u32, u32), u32>
        ensures { result.now ≡ group_of self.now.last self.now.others.items test }
    {
        let place = place_of(test);
        if place < self.others.len() {
            &self.others[place]
        } else {
            &self.last
        }
    }

    // Sets a place.
    #[tactic(auto, using(crate::proofs::Keys::first_set_other, crate::proofs::Keys::first_set_last))]
    fn set(&mut self, test: u32, name: u32, class: u32, at: u32) -> Result<(), Memory>
        ensures { OnOk result (SetsFirst test name class at self.old self.new) }
    {
        let place = place_of(test);
        if place < self.others.len() {
            self.others[place].insert((test, name, class), at)?;
            return Ok(());
        }
        self.last.insert((test, name, class), at)?;
        Ok(())
    }

    // Whether a place is kept.
    fn is_kept(&self, test: u32, name: u32, class: u32) -> bool
        ensures { result ≡ is_some (first_at self.now test name class) }
    {
        self.get(test, name, class).is_some()
    }

    /// Keeps a place, if none is kept.
    #[tactic(auto, using(crate::proofs::Keys::note_kept))]
    pub fn note(&mut self, test: u32, name: u32, class: u32, place: u32) -> Result<(), Memory>
        ensures { OnOk result (Notes test name class place self.old self.new) }
    {
        if self.is_kept(test, name, class) {
            return Ok(());
        }
        self.set(test, name, class, place)?;
        Ok(())
    }

    /// The place that is kept.
    pub fn get(&self, test: u32, name: u32, class: u32) -> Option<u32>
        ensures { result ≡ first_at self.now test name class }
    {
        self.group(test).get(&(test, name, class)).copied()
    }
}
