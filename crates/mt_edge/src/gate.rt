//! What workers are handed from outside: a gate, which is told what they do, and a recorder, which
//! keeps the records of their runs.

use crate::outside::EdgeFault;
use std::sync::Wait;

/// What a worker tells while it works. Nothing is said of a gate, but that its calls return. Cells
/// are told by the numbers that are drawn.
pub trait Gate {
    /// So many cells will be worked on.
    fn open(&self, _cells: u64) {}

    /// A worker begins a cell.
    fn begin(&self, worker: u64, cell: u64);

    /// Its cell detects a mutant of which the worker had seen no detection.
    fn detect(&self, _worker: u64, _cell: u64) {}

    /// It has ended it.
    fn end(&self, worker: u64, cell: u64);
}

/// The gate whose calls return at once.
pub struct OpenGate;

impl Gate for OpenGate {
    fn begin(&self, _worker: u64, _cell: u64) {}

    fn end(&self, _worker: u64, _cell: u64) {}
}

/// Keeps the records of runs as soon as they are made. Nothing is said of its answer, since it may
/// take a lock.
pub trait Recorder<M> {
    fn keep<W: Wait>(&self, rt: &W, made: &M) -> Result<(), EdgeFault>;
}

/// A recorder that keeps nothing.
pub struct NoJournal;

impl<M> Recorder<M> for NoJournal {
    fn keep<W: Wait>(&self, _rt: &W, _made: &M) -> Result<(), EdgeFault> {
        Ok(())
    }
}
