//! Lists are equal, ordered and hashed as their slices are, item by item. So a name is a key of any
//! map.
//!
//! Names are thus ordered by their code units. That is neither the order of their modified UTF-8,
//! where unit 0 comes behind the units below 0x80, nor that of their UTF-8, where a surrogate pair
//! comes behind every other unit: sort by the bytes where one of those is wanted.

ghost use Rattle.std.specs.Prelude.{◌≡◌};
ghost use Rattle.std.specs.Cmp.Lexicographic.{pointwise, slice_cmp, slice_partial_cmp, lists_agrees, lists_equiv, lists_per, lists_po, lists_ties, lists_total};
ghost use Rattle.std.specs.Hash as fed;

use crate::list::Seq;
use std::cmp::Ordering;
use std::hash::{Hash, Hasher};

impl<T: PartialEq> PartialEq for Seq<T> {
    ghost eq = { λ x y. pointwise T.eq x y };

    ghost laws = { lists_per T.laws };

    fn eq(&self, other: &Self) -> bool {
        self.as_slice() == other.as_slice()
    }
}

impl<T: Eq> Eq for Seq<T> {
    ghost laws = { lists_equiv T.Eq.laws };
}

impl<T: PartialOrd> PartialOrd for Seq<T> {
    ghost partial_cmp = { λ x y. slice_partial_cmp T.partial_cmp x y };

    ghost laws = { lists_po T.PartialOrd.laws };

    fn partial_cmp(&self, other: &Self) -> Option<Ordering> {
        self.as_slice().partial_cmp(other.as_slice())
    }
}

impl<T: Ord> Ord for Seq<T> {
    ghost cmp = { λ x y. slice_cmp T.cmp x y };

    ghost total = { lists_total T.total };

    ghost matches_partial_cmp = { λ x y. lists_agrees T.matches_partial_cmp x y };

    ghost matches_eq = { λ x y. lists_ties T.cmp T.matches_eq x y };

    fn cmp(&self, other: &Self) -> Ordering {
        self.as_slice().cmp(other.as_slice())
    }
}

impl<T: Hash> Hash for Seq<T> {
    ghost hash_input = { λ v. fed.slice T.hash_input v };

    ghost respects_eq = { (fed.items_Alike (record { fed = T.respects_eq })).fed };

    fn hash<H: Hasher>(&self, state: &mut H) {
        self.as_slice().hash(state);
    }
}
