//! The names that a reader has found, each once, by number.

ghost use Rattle.std.specs.Prelude.{◌≡◌, ◌<◌, ◌≤◌, ◌+◌, ◌^◌, ℕ, List, [], ◌∷◌, length, map, not, nat_eq, slice_get, is_some, None, Some, Ok, IsTrue, MatchResult};
ghost use Rattle.std.specs.List.{list_any};
ghost use Rattle.class_model.specs.Text.{units_of};
ghost use Rattle.codec_rules.specs.Meets.{Gives, Fails};
ghost use Rattle.history_rules.specs.declared.fault.HistoryFault.TheVariants.{Memory};
ghost use Rattle.history_rules.specs.Items.{name_or};
ghost use Rattle.history_file.specs.Rows.{name_of};
ghost use Rattle.history_file.specs.Texts.{AreTexts, texts_of, number_in, Grown, Marked, KeepsMarks};

use class_model::{Name, Seq, TextFault, read_text};
use history_rules::HistoryFault;
use std::alloc::Global;
use std::collections::BTreeMap;

/// The names that were found so far, in modified UTF-8, each with the stamp of the record that last
/// consulted it.
#[derive(Drop)]
pub struct Texts<'a> {
    numbers: BTreeMap<&'a [u8], u32>,
    texts: Seq<&'a [u8]>,
    marks: Vec<u32>,
}

/// The name that the bytes of a text spell. Where they spell none the fault is at their place.
pub fn decode(alloc: Global, text: &[u8], at: u64) -> Result<Name, HistoryFault>
    ensures { Gives Memory (λ name. name) (name_or at (units_of text.now)) result }
{
    match read_text(alloc, text) {
        Ok(name) => Ok(name),
        Err(TextFault::BadText { .. }) => Err(HistoryFault::HistoryBad { at }),
        Err(TextFault::Memory) => Err(HistoryFault::Memory),
    }
}

impl<'a> Texts<'a> {
    /// No names.
    pub fn new(alloc: Global) -> Texts<'a>
        ensures known { AreTexts result }
        ensures none { texts_of result ≡ [] }
    {
        Texts {
            numbers: BTreeMap::new(alloc),
            texts: Seq::new(alloc),
            marks: Vec::new(alloc),
        }
    }

    // The number of a text, if it is there.
    fn find(&self, text: &[u8]) -> Option<u32>
        requires { AreTexts self.now }
        ensures { result ≡ number_in (texts_of self.now) text.now }
    {
        self.numbers.get(text).copied()
    }

    /// The number of a name; a new one is the next. Bytes that spell none are told at their place.
    pub fn number(&mut self, alloc: Global, text: &'a [u8], at: u64) -> Result<u32, HistoryFault>
        requires known { AreTexts self.old }
        requires room { length (texts_of self.old) + 1 < 2 ^ 32 }
        ensures { MatchResult result
            (λ k. (name_or at (units_of text.now) ≡ Ok (name_of (texts_of self.new) k))
            × (k < length (texts_of self.new)) × Grown self.old self.new
            × KeepsMarks self.old self.new
            × (length (texts_of self.new) ≤ length (texts_of self.old) + 1))
            (λ fault. Fails Memory fault (name_or at (units_of text.now))) }
    {
        if let Some(number) = self.find(text) {
            return Ok(number);
        }
        let _name = decode(alloc, text, at)?;
        let number = self.add(text)?;
        Ok(number)
    }

    // One name more.
    fn add(&mut self, text: &'a [u8]) -> Result<u32, HistoryFault>
        requires known { AreTexts self.old }
        requires valid { IsTrue (is_some (units_of text.now)) }
        requires fresh { number_in (texts_of self.old) text.now ≡ None }
        requires room { length (texts_of self.old) + 1 < 2 ^ 32 }
        ensures { MatchResult result
            (λ k. (slice_get (texts_of self.new) k ≡ Some text.now)
            × (k < length (texts_of self.new)) × Grown self.old self.new
            × KeepsMarks self.old self.new
            × (length (texts_of self.new) ≤ length (texts_of self.old) + 1))
            (λ fault. fault ≡ Memory) }
    {
        let number = self.texts.len() as u32;
        self.numbers.insert(text, number)?;
        self.texts.push(text)?;
        self.marks.push(0)?;
        Ok(number)
    }

    /// Marks a name by a stamp, and tells whether it hadn't that mark.
    pub fn mark(&mut self, number: u32, stamp: u32) -> bool
        requires known { AreTexts self.old }
        requires there { number < length (texts_of self.old) }
        ensures known { AreTexts self.new }
        ensures texts { texts_of self.new ≡ texts_of self.old }
        ensures marked { (numbers : List ℕ) → Marked self.old stamp numbers →
            (result ≡ not (list_any (nat_eq number) numbers))
            × Marked self.new stamp (number ∷ numbers) }
    {
        let at = number as usize;
        let fresh = self.marks[at] != stamp;
        self.marks[at] = stamp;
        fresh
    }

    /// The names, in the order of their numbers.
    pub fn into_texts(self) -> Seq<&'a [u8]>
        ensures { map (λ s. s.now) result ≡ texts_of self.entry }
    {
        self.texts
    }
}
