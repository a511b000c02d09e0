//! How many records of a test name a name, from the first on.

ghost use Rattle.std.specs.Prelude.{◌≡◌, ℕ, IfOk, OnOk};
ghost use Rattle.history_index.specs.Firsts.{run_at, SetsRun};
ghost use Rattle.history_index.specs.Groups.{group_of};

use crate::groups::{others_for, place_of};
use class_model::Memory;
use std::alloc::Global;
use std::collections::BTreeMap;

/// For a test and a name, by number, a length; in maps of a few tests each.
#[derive(Drop)]
pub struct Runs {
    others: Vec<BTreeMap<(u32, u32), u32>>,
    last: BTreeMap<(u32, u32), u32>,
}

impl Runs {
    /// All are 0. It is made for so many tests.
    #[tactic(auto, using(crate::proofs::Grouping::more_groups, crate::proofs::Grouping::no_groups, crate::proofs::Keys::no_runs))]
    pub fn new(alloc: Global, tests: usize) -> Result<Runs, Memory>
        ensures { IfOk result (λ r. (t k : ℕ) → run_at r t k ≡ 0) }
    {
        let count = others_for(tests);
        let mut others = Vec::with_capacity(alloc, count)?;
        while others.len() < count {
            others.push(BTreeMap::new(alloc))?;
        }
        Ok(Runs {
            others,
            last: BTreeMap::new(alloc),
        })
    }

    // The map of a test.
    #[tactic(auto, using(crate::proofs::Grouping::group_other, crate::proofs::Grouping::group_last))]
    fn group(&self, test: u32) -> &BTreeMap<(u32, u32), u32>
        ensures { result.now ≡ group_of self.now.last self.now.others.items test }
    {
        let place = place_of(test);
        if place < self.others.len() {
            &self.others[place]
        } else {
            &self.last
        }
    }

    /// Sets a length.
    #[tactic(auto, using(crate::proofs::Keys::run_set_other, crate::proofs::Keys::run_set_last))]
    pub fn set(&mut self, test: u32, name: u32, len: u32) -> Result<(), Memory>
        ensures { OnOk result (SetsRun test name len self.old self.new) }
    {
        let place = place_of(test);
        if place < self.others.len() {
            self.others[place].insert((test, name), len)?;
            return Ok(());
        }
        self.last.insert((test, name), len)?;
        Ok(())
    }

    /// A length; 0 where none was set.
    pub fn get(&self, test: u32, name: u32) -> u32
        ensures { result ≡ run_at self.now test name }
    {
        match self.group(test).get(&(test, name)) {
            Some(len) => *len,
            None => 0,
        }
    }
}
