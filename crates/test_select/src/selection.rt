//! The cells: each viable mutant with each test that reaches its class and line. They are counted
//! before one is made.

ghost use Rattle.std.specs.Prelude.{◌≡◌, ℕ, ◌<◌, ◌≤◌, ◌^◌, ◌++◌, map, length, IfOk, IfErr, OnOk};
ghost use Rattle.std.specs.Io.Iter.{u64_saturate};
ghost use Rattle.test_select.specs.Cells.{AddsCells, IsRefusal};
ghost use Rattle.test_select.specs.Cells.{cell, cells, cells_of, most_cells};

use crate::mutant::MutantPlace;
use class_model::{Memory, Seq};
use line_coverage::Coverage;
use std::alloc::Global;

const CELLS_LIMIT: u64 = 4_194_304;

/// A mutant and a test, by their numbers.
#[derive(Clone, Copy)]
pub struct Cell {
    pub mutant: u32,
    pub test: u32,
}

/// Why there are no cells.
#[derive(Drop)]
pub enum SelectFault {
    /// They are more than 4,194,304. The number is the first past that.
    TooMany { number: u64 },
    Memory,
}

// How many cells a mutant has, whatever its number. The count stays at 2^64 - 1.
fn count_of(place: MutantPlace, viable: bool, cover: &Coverage) -> u64
    ensures { (i : ℕ) → result ≡ u64_saturate (length (cells_of cover.now (i, (place, viable)))) }
{
    if viable {
        cover.count_at(place.class, place.line)
    } else {
        0
    }
}

/// How many cells there are. None is made. The count stays at 2^64 - 1.
pub fn count_cells(mutants: &[MutantPlace], viable: &[bool], cover: &Coverage) -> u64
    requires { length viable.now ≡ length mutants.now }
    ensures { result ≡ u64_saturate (length (cells mutants.now viable.now cover.now)) }
{
    let mut count = 0u64;
    for (i, place) in mutants.iter().enumerate() {
        count = count.saturating_add(count_of(*place, viable[i], cover));
    }
    count
}

// Adds a cell for each of these tests.
fn push_cells(mutant: u32, tests: &[u32], all: &mut Vec<Cell>) -> Result<(), Memory>
    ensures { OnOk result (all.new.items ≡ all.old.items ++ map (cell mutant) tests.now) }
{
    for test in tests {
        all.push(Cell {
            mutant,
            test: *test,
        })?;
    }
    Ok(())
}

// Adds the cells of a mutant. `tests` is only room for the tests that reach its place.
fn push_mutant(
    mutant: u32,
    place: MutantPlace,
    viable: bool,
    cover: &Coverage,
    tests: &mut Vec<u32>,
    all: &mut Vec<Cell>,
) -> Result<(), Memory>
    requires { cover.now.tests < 2 ^ 32 }
    ensures { OnOk result (AddsCells cover.now mutant place viable all.old.items all.new.items) }
{
    if !viable {
        return Ok(());
    }
    tests.clear();
    cover.push_tests(place.class, place.line, tests)?;
    push_cells(mutant, tests, all)
}

// The cells, however many they are.
fn make_cells(
    alloc: Global,
    mutants: &[MutantPlace],
    viable: &[bool],
    cover: &Coverage,
) -> Result<Vec<Cell>, Memory>
    requires viable { length viable.now ≡ length mutants.now }
    requires mutants { length mutants.now < 2 ^ 32 }
    requires tests { cover.now.tests < 2 ^ 32 }
    ensures { IfOk result (λ all. all.items ≡ cells mutants.now viable.now cover.now) }
{
    let mut all = Vec::new(alloc);
    let mut tests = Vec::new(alloc);
    for (i, place) in mutants.iter().enumerate() {
        push_mutant(i as u32, *place, viable[i], cover, &mut tests, &mut all)?;
    }
    Ok(all)
}

/// The cells by mutant and then by test, or that they are too many. None is made then.
pub fn cells(
    alloc: Global,
    mutants: &[MutantPlace],
    viable: &[bool],
    cover: &Coverage,
) -> Result<Seq<Cell>, SelectFault>
    requires viable { length viable.now ≡ length mutants.now }
    requires mutants { length mutants.now < 2 ^ 32 }
    requires tests { cover.now.tests < 2 ^ 32 }
    ensures cells { IfOk result (λ all. all ≡ cells mutants.now viable.now cover.now) }
    ensures few { IfOk result (λ all. length all ≤ most_cells) }
    ensures many { IfErr result (IsRefusal (cells mutants.now viable.now cover.now)) }
{
    if count_cells(mutants, viable, cover) > CELLS_LIMIT {
        return Err(SelectFault::TooMany {
            number: CELLS_LIMIT + 1,
        });
    }
    match make_cells(alloc, mutants, viable, cover) {
        Ok(all) => Ok(Seq::from_vec(all)),
        Err(Memory) => Err(SelectFault::Memory),
    }
}
