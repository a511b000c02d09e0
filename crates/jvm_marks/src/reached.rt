//! The lines that a run reaches.

ghost use Rattle.std.specs.Prelude.{◌≡◌, ℕ, map, Ok, true, false, ◌∷◌, ◌++◌, [], OnOk, OnErr, ◌<◌, length};
ghost use Rattle.std.proofs.Common.{get_or};
ghost use Rattle.jvm_marks.specs.Marks.{is_listed, is_marked, with_pair, SetsMark, SetsLine};

use crate::slots::make_place;
use class_model::{ClassId, Memory};
use std::alloc::Global;
use std::marker::Model;

/// The lines of a class that were reached, a mark for each line up to the last one.
#[derive(Drop)]
struct Lines {
    marks: Vec<bool>,
}

impl Model for Lines {
    ghost use Rattle.std.specs.Prelude.{List, Bool};

    ghost Value = { List Bool };

    ghost view = { λ l. l.marks.items };
}

/// The classes and lines that a run reached, each once, in order of first use. Contracts see the
/// list, classes by their numbers.
#[derive(Drop)]
pub struct Reached {
    pairs: Vec<(ClassId, u16)>,
    lines: Vec<Lines>,
}

impl Model for Reached {
    ghost use Rattle.std.specs.Prelude.{List, map, ℕ};
    ghost use Rattle.jvm_marks.specs.Marks.{AreMarksOf};

    ghost Value = { List (ℕ × ℕ) };

    ghost view = { λ r. map (λ x. (x.0.0, x.1)) r.pairs.items };

    ghost invariant = { λ r. AreMarksOf r.lines.items (map (λ x. (x.0.0, x.1)) r.pairs.items) };
}

impl Reached {
    /// Nothing was reached.
    pub fn new(alloc: Global) -> Reached
        ensures { result ≡ [] }
    {
        Reached {
            pairs: Vec::new(alloc),
            lines: Vec::new(alloc),
        }
    }

    /// The pairs in order of first use.
    pub fn pairs(&self) -> &[(ClassId, u16)]
        ensures { map (λ x. (x.0.0, x.1)) result.now ≡ self.now }
    {
        &self.pairs
    }

    /// Counts a line of a class among those that were reached. It is true where the line was new.
    /// Where memory runs out nothing changes.
    pub fn note(&mut self, class: ClassId, line: u16) -> Result<bool, Memory>
        ensures noted { OnOk result (self.new ≡ with_pair class.0 line self.old) }
        ensures new { result ≡ Ok true → self.new ≡ self.old ++ (class.0, line) ∷ [] }
        ensures known { result ≡ Ok false → self.new ≡ self.old }
        ensures err { OnErr result (self.new ≡ self.old) }
    {
        if is_reached(&self.lines, class.0 as usize, line as usize) {
            return Ok(false);
        }
        make_mark(&mut self.lines, class.0 as usize, line as usize)?;
        self.pairs.push((class, line))?;
        mark(&mut self.lines, class.0 as usize, line as usize);
        Ok(true)
    }

    /// Whether a line of a class was reached.
    pub fn has(&self, class: ClassId, line: u16) -> bool
        ensures { result ≡ is_listed class.0 line self.now }
    {
        is_reached(&self.lines, class.0 as usize, line as usize)
    }
}

// Whether a line of a class is marked.
fn is_reached(lines: &[Lines], class: usize, line: usize) -> bool
    ensures { result ≡ is_marked lines.now class line }
{
    let Some(lines) = lines.get(class) else {
        return false;
    };
    let Some(reached) = lines.marks.get(line) else {
        return false;
    };
    *reached
}

// Makes place for the mark of a line of a class.
fn make_mark(lines: &mut Vec<Lines>, class: usize, line: usize) -> Result<(), Memory>
    ensures same { (c l : ℕ) → is_marked lines.new.items c l ≡ is_marked lines.old.items c l }
    ensures class { OnOk result (class < length lines.new.items) }
    ensures line { OnOk result (line < length (get_or lines.new.items class [])) }
{
    let alloc = *lines.allocator();
    while lines.len() <= class {
        lines.push(Lines {
            marks: Vec::new(alloc),
        })?;
    }
    lines[class].make_place(line)
}

// Marks a line of a class.
fn mark(lines: &mut [Lines], class: usize, line: usize)
    requires class { class < length lines.old }
    requires line { line < length (get_or lines.old class []) }
    ensures { SetsLine lines.old class line lines.new }
{
    lines[class].mark(line);
}

impl Lines {
    // Makes place for the mark of a line.
    fn make_place(&mut self, line: usize) -> Result<(), Memory>
        ensures same { (l : ℕ) → get_or self.new l false ≡ get_or self.old l false }
        ensures place { OnOk result (line < length self.new) }
    {
        make_place(&mut self.marks, line, false)
    }

    // Marks a line.
    fn mark(&mut self, line: usize)
        requires { line < length self.old }
        ensures { SetsMark self.old line true self.new }
    {
        self.marks[line] = true;
    }
}
