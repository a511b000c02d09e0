//! Places of records, in the order in which they come.

ghost use Rattle.std.specs.Prelude.{◌≡◌, ◌<◌, ◌++◌, ◌∷◌, ◌^◌, [], length, nat_eq, slice_get, IfOk, OnOk};
ghost use Rattle.history_index.specs.Firsts.{AreEmptyLists, PushesPlace, has_none, list_at, places_in};

use class_model::Memory;
use std::alloc::Global;

/// Some places. The first stands beside the others, so that one alone takes no memory of its own.
#[derive(Drop)]
pub struct Places {
    first: Option<u32>,
    others: Vec<u32>,
}

impl Places {
    /// None.
    pub fn new(alloc: Global) -> Places
        ensures { places_in result ≡ [] }
    {
        Places {
            first: None,
            others: Vec::new(alloc),
        }
    }

    fn has_none(&self) -> bool
        ensures { result ≡ has_none self.now }
    {
        match self.first {
            None => self.has_no_others(),
            Some(_) => false,
        }
    }

    fn has_no_others(&self) -> bool
        ensures { result ≡ nat_eq (length self.now.others.items) 0 }
    {
        self.others.is_empty()
    }

    // One more.
    #[tactic(auto, using(crate::proofs::Listing::first_pushed, crate::proofs::Listing::other_pushed))]
    fn push(&mut self, place: u32) -> Result<(), Memory>
        ensures { OnOk result (places_in self.new ≡ places_in self.old ++ place ∷ []) }
    {
        if self.has_none() {
            self.first = Some(place);
            return Ok(());
        }
        self.others.push(place)?;
        Ok(())
    }

    #[tactic(auto, using(crate::proofs::Listing::none_count, crate::proofs::Listing::some_count))]
    fn count(&self) -> u32
        requires { length (places_in self.now) < 2 ^ 32 }
        ensures { result ≡ length (places_in self.now) }
    {
        match self.first {
            None => self.others.len() as u32,
            Some(_) => self.others.len() as u32 + 1,
        }
    }

    // The one of this number, from 0.
    #[tactic(auto, using(crate::proofs::Listing::none_place, crate::proofs::Listing::some_place))]
    fn get(&self, number: u32) -> Option<u32>
        ensures { result ≡ slice_get (places_in self.now) number }
    {
        match self.first {
            None => self.other(number),
            Some(first) => self.first_or_other(first, number),
        }
    }

    #[tactic(auto, using(crate::proofs::Listing::at_first, crate::proofs::Listing::behind_first))]
    fn first_or_other(&self, first: u32, number: u32) -> Option<u32>
        ensures { result ≡ slice_get (first ∷ self.now.others.items) number }
    {
        if number == 0 {
            return Some(first);
        }
        self.other(number - 1)
    }

    fn other(&self, number: u32) -> Option<u32>
        ensures { result ≡ slice_get self.now.others.items number }
    {
        self.others.get(number as usize).copied()
    }
}

/// How many places a test has.
pub fn count_at(lists: &[Places], test: u32) -> u32
    requires { length (list_at lists.now test) < 2 ^ 32 }
    ensures { result ≡ length (list_at lists.now test) }
{
    match lists.get(test as usize) {
        Some(places) => places.count(),
        None => 0,
    }
}

/// The place of a test that has this number, from 0.
pub fn place_at(lists: &[Places], test: u32, number: u32) -> Option<u32>
    ensures { result ≡ slice_get (list_at lists.now test) number }
{
    match lists.get(test as usize) {
        Some(places) => places.get(number),
        None => None,
    }
}

/// A test has one place more.
pub fn push_at(lists: &mut [Places], test: u32, place: u32) -> Result<(), Memory>
    requires { test < length lists.old }
    ensures { OnOk result (PushesPlace test place lists.old lists.new) }
{
    lists[test as usize].push(place)?;
    Ok(())
}

/// For so many tests.
pub fn no_places(alloc: Global, count: usize) -> Result<Vec<Places>, Memory>
    ensures { IfOk result (λ lists. AreEmptyLists count lists.items) }
{
    let mut lists = Vec::with_capacity(alloc, count)?;
    while lists.len() < count {
        lists.push(Places::new(alloc))?;
    }
    Ok(lists)
}
