//! The order in which cells are drawn: first the first cell of every mutant, then the second one,
//! and so on, so that workers seldom draw two cells of one mutant at once.

ghost use Rattle.std.specs.Prelude.{◌≡◌, ◌<◌, Some, IfOk, length, slice_get};
ghost use Rattle.worker_gate.specs.Rounds.{AreFirsts, AreRounds, Grows, StandByMutant, goes_on, is_first};

use class_model::{Memory, Seq};
use std::alloc::Global;

// Whether the cell behind this one is of the same mutant.
fn goes_on(mutants: &[u64], cell: usize) -> bool
    requires { cell < length mutants.now }
    ensures { result ≡ goes_on mutants.now cell }
{
    match mutants.get(cell + 1) {
        None => false,
        Some(next) => mutants[cell] == *next,
    }
}

fn is_first(mutants: &[u64], cell: usize) -> bool
    requires { cell < length mutants.now }
    ensures { result ≡ is_first mutants.now cell }
{
    cell == 0 || !goes_on(mutants, cell - 1)
}

// The first cell of each mutant.
fn first_cells(alloc: Global, mutants: &[u64]) -> Result<Vec<u64>, Memory>
    ensures { IfOk result (λ order. AreFirsts mutants.now (length mutants.now) order.items) }
{
    let mut order = Vec::new(alloc);
    for cell in 0..mutants.len() {
        if is_first(mutants, cell) {
            order.push(cell as u64)?;
        }
    }
    Ok(order)
}

fn cell_at(order: &[u64], drawn: usize) -> u64
    requires { drawn < length order.now }
    ensures { slice_get order.now drawn ≡ Some result }
{
    order[drawn]
}

// Behind the cells that are drawn so far comes, for each of them, the next one of its mutant.
fn add_next(mutants: &[u64], mut order: Vec<u64>) -> Result<Vec<u64>, Memory>
    requires { Grows mutants.now 0 order.items }
    ensures { IfOk result (λ all. Grows mutants.now (length mutants.now) all.items) }
{
    for drawn in 0..mutants.len() {
        if drawn < order.len() {
            let cell = cell_at(order.as_slice(), drawn);
            if goes_on(mutants, cell as usize) {
                order.push(cell + 1)?;
            }
        }
    }
    Ok(order)
}

/// The numbers of all cells, whose mutants these are, in the order in which they are drawn. It
/// takes time by the number of cells.
pub fn rounds(alloc: Global, mutants: &[u64]) -> Result<Seq<u64>, Memory>
    requires { StandByMutant mutants.now }
    ensures { IfOk result (AreRounds mutants.now) }
{
    let order = first_cells(alloc, mutants)?;
    let order = add_next(mutants, order)?;
    Ok(Seq::from_vec(order))
}
