//! Runs that are looked up: the six mutants of a method that asks whether a number is below zero,
//! and two tests that cover each.

/// The record of a run: the state that it gives its mutant, if it detects it, and its steps.
#[derive(Clone, Copy)]
pub struct RowRecord {
    pub state: Option<u64>,
    pub steps: u32,
}

/// The runs of two tests on a mutant.
#[derive(Clone, Copy)]
pub struct Row {
    pub first: RowRecord,
    pub second: RowRecord,
}

/// Hands that look runs up in rows. Old results have all of the runs or none, and the runs on one
/// mutant may fail for want of memory.
#[derive(Clone, Copy)]
pub struct RowHands {
    pub rows: [Row; 6],
    pub found: bool,
    pub failing: Option<u64>,
}
