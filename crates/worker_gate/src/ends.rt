//! What workers begin with, and what they leave.

use class_model::Seq;
use mt_edge::{EdgeFault, MeterPart};
use mutant_table::ClaimSeat;

/// What a worker begins with: its hands, a part of the meter, its seat, and its number, which a
/// gate is told.
pub struct Job<C> {
    pub hands: C,
    pub part: MeterPart,
    pub seat: ClaimSeat,
    pub worker: u64,
}

/// How a cell ended.
#[derive(Drop)]
pub enum CellEnd<M, F> {
    /// It was executed.
    Ran(M),
    /// Old results had its run.
    Reused(F),
    /// A test at this place, below its own, was seen to detect the mutant.
    Skipped(u64),
}

/// What a worker leaves: its job, the cells that it did, by their numbers, and whether memory ran
/// out or a record wasn't kept.
pub struct WorkEnd<C, M, F> {
    pub job: Job<C>,
    pub cells: Vec<(u64, CellEnd<M, F>)>,
    pub fault: Option<EdgeFault>,
}

/// The cells of a job: the mutant and the test of each, by mutant and then test; how many mutants
/// there are; and whether all detecting tests are asked for.
#[derive(Drop)]
pub struct JobCells {
    pub mutants: Seq<u64>,
    pub tests: Seq<u64>,
    pub count: u64,
    pub all: bool,
}

/// What all workers are told: the mutant and the test of each cell, by mutant and then test; for
/// each number that is drawn that of its cell; and whether all detecting tests are asked for.
#[derive(Drop)]
pub struct Plan {
    pub mutants: Seq<u64>,
    pub tests: Seq<u64>,
    pub order: Seq<u64>,
    pub all: bool,
}

/// A cell that was drawn: its number, its mutant and its test.
#[derive(Clone, Copy)]
pub struct DrawnCell {
    pub number: u64,
    pub mutant: u64,
    pub test: u64,
}
