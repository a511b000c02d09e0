//! Numbers that were used, each once.

ghost use Rattle.std.specs.Prelude.{◌≡◌, ℕ, ◌<◌, Ok, true, false, [], ◌∷◌, ◌++◌, length, OnOk, OnErr};
ghost use Rattle.std.proofs.Common.{get_or};
ghost use Rattle.jvm_marks.specs.Marks.{is_among, with_number, SetsMark};

use crate::slots::make_place;
use class_model::Memory;
use std::alloc::Global;
use std::marker::Model;

/// Numbers, each once, in order of first use, with a mark for each: a look takes the same time
/// however many there are. Contracts see the list.
#[derive(Drop)]
pub struct Marks {
    numbers: Vec<u32>,
    marks: Vec<bool>,
}

impl Model for Marks {
    ghost use Rattle.std.specs.Prelude.{List, ℕ};
    ghost use Rattle.jvm_marks.specs.Marks.{AreNumberMarksOf};

    ghost Value = { List ℕ };

    ghost view = { λ m. m.numbers.items };

    ghost invariant = { λ m. AreNumberMarksOf m.marks.items m.numbers.items };
}

impl Marks {
    /// No number was used.
    pub fn new(alloc: Global) -> Marks
        ensures { result ≡ [] }
    {
        Marks {
            numbers: Vec::new(alloc),
            marks: Vec::new(alloc),
        }
    }

    /// The numbers in order of first use.
    pub fn numbers(&self) -> &[u32]
        ensures { result.now ≡ self.now }
    {
        &self.numbers
    }

    /// Whether a number was used.
    pub fn has(&self, n: u32) -> bool
        ensures { result ≡ is_among n self.now }
    {
        is_marked(&self.marks, n as usize)
    }

    /// Counts a number among those that were used. It is true where it was new. Where memory runs
    /// out nothing changes.
    pub fn note(&mut self, n: u32) -> Result<bool, Memory>
        ensures noted { OnOk result (self.new ≡ with_number n self.old) }
        ensures new { result ≡ Ok true → self.new ≡ self.old ++ n ∷ [] }
        ensures known { result ≡ Ok false → self.new ≡ self.old }
        ensures err { OnErr result (self.new ≡ self.old) }
    {
        if is_marked(&self.marks, n as usize) {
            return Ok(false);
        }
        make_place(&mut self.marks, n as usize, false)?;
        self.numbers.push(n)?;
        mark(&mut self.marks, n as usize);
        Ok(true)
    }

    /// No number was used. It takes the time of those that were, and keeps the places of their
    /// marks.
    pub fn clear(&mut self)
        ensures { self.new ≡ [] }
    {
        unmark_all(&mut self.marks, &self.numbers);
        self.numbers.clear();
    }
}

// Whether there is a mark for a number.
fn is_marked(marks: &[bool], n: usize) -> bool
    ensures { result ≡ get_or marks.now n false }
{
    let Some(mark) = marks.get(n) else {
        return false;
    };
    *mark
}

// Marks a number.
fn mark(marks: &mut [bool], n: usize)
    requires { n < length marks.old }
    ensures { SetsMark marks.old n true marks.new }
{
    marks[n] = true;
}

// Takes the mark of a number away, if there is one.
fn unmark(marks: &mut [bool], n: usize)
    ensures { SetsMark marks.old n false marks.new }
{
    if n < marks.len() {
        marks[n] = false;
    }
}

// Takes the marks of these numbers away.
fn unmark_all(marks: &mut [bool], numbers: &[u32])
    requires { (k : ℕ) → get_or marks.old k false ≡ true → is_among k numbers.now ≡ true }
    ensures { (k : ℕ) → get_or marks.new k false ≡ false }
{
    for number in numbers {
        unmark(marks, *number as usize);
    }
}
