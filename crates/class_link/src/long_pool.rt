//! A constant pool with entries behind it, which is copied for none of its edits (JVMS 4.4).

ghost use Rattle.std.specs.Prelude.{◌≡◌, ◌++◌, slice_get};
ghost use Rattle.std.specs.Option.{option_copied};
ghost use Rattle.class_model.specs.Pool.{entry_of, text_of, class_name_of, pair_name_of, pair_desc_of};

use class_model::{Const, Name};
use std::marker::Model;

/// A constant pool, and the entries that stand behind it. Contracts see the whole.
#[derive(Drop)]
pub struct LongPool<'a> {
    pool: &'a [Const],
    added: &'a [Const],
}

impl<'a> Model for LongPool<'a> {
    ghost use Rattle.std.specs.Prelude.{List, ◌++◌};
    ghost use Rattle.class_model.specs.declared.constant.Const.{Const};

    ghost Value = { List Const };

    ghost view = { λ p. p.pool.now ++ p.added.now };
}

/// The entry at a place of a pool with more entries behind it, counted from 0.
#[tactic(auto, using(crate::proofs::AppendedLaws::front_same, crate::proofs::AppendedLaws::behind_same))]
pub fn at_place<'a>(pool: &'a [Const], added: &'a [Const], place: usize) -> Option<&'a Const>
    ensures { option_copied result ≡ slice_get (pool.now ++ added.now) place }
{
    if place < pool.len() {
        pool.get(place)
    } else {
        added.get(place - pool.len())
    }
}

impl<'a> LongPool<'a> {
    /// A pool with these entries behind it.
    pub fn new(pool: &'a [Const], added: &'a [Const]) -> LongPool<'a>
        ensures { result ≡ pool.entry.now ++ added.entry.now }
    {
        LongPool { pool, added }
    }

    /// The entry of an index, if there is one.
    pub fn entry(&self, index: u16) -> Option<&Const>
        ensures { option_copied result ≡ entry_of self.now index }
    {
        if index == 0 {
            return None;
        }
        at_place(self.pool, self.added, index as usize - 1)
    }

    /// The text of an index, if there is one.
    pub fn text(&self, index: u16) -> Option<&Name>
        ensures { option_copied result ≡ text_of self.now index }
    {
        match self.entry(index)? {
            Const::Utf8(text) => Some(text),
            _ => None,
        }
    }

    /// The name of the class of an index, if there is one.
    pub fn class_name(&self, index: u16) -> Option<&Name>
        ensures { option_copied result ≡ class_name_of self.now index }
    {
        match self.entry(index)? {
            Const::Class(name) => self.text(*name),
            _ => None,
        }
    }

    /// The name and the descriptor of the pair of an index, each if there is one.
    pub fn pair(&self, index: u16) -> (Option<&Name>, Option<&Name>)
        ensures name { option_copied result.0 ≡ pair_name_of self.now index }
        ensures desc { option_copied result.1 ≡ pair_desc_of self.now index }
    {
        match self.entry(index) {
            Some(Const::Pair(name, desc)) => (self.text(*name), self.text(*desc)),
            _ => (None, None),
        }
    }
}
