//! A gate that holds the first cell until all others have ended.

use mt_edge::Gate;
use std::sync::atomic::{AtomicBool, AtomicU64, Ordering};

const CELLS: u64 = 12;

const TURNS: u64 = 100_000_000;

/// Whoever draws the first cell waits until all others have ended. It passes in the end, and is told
/// as late, where nobody else ended them: so one worker is late.
#[derive(Drop)]
pub struct HeldGate {
    opened: AtomicU64,
    detected: AtomicU64,
    ended: AtomicU64,
    late: AtomicBool,
}

impl HeldGate {
    pub fn new() -> HeldGate {
        HeldGate {
            opened: AtomicU64::new(0),
            detected: AtomicU64::new(0),
            ended: AtomicU64::new(0),
            late: AtomicBool::new(false),
        }
    }

    /// The number of cells that it was told at first.
    pub fn opened(&self) -> u64 {
        self.opened.load(Ordering::SeqCst)
    }

    /// How many cells were told as the first that are seen to detect their mutant.
    pub fn detected(&self) -> u64 {
        self.detected.load(Ordering::SeqCst)
    }

    /// How many cells have ended.
    pub fn ended(&self) -> u64 {
        self.ended.load(Ordering::SeqCst)
    }

    pub fn is_late(&self) -> bool {
        self.late.load(Ordering::SeqCst)
    }

    fn wait(&self) {
        for _ in 0..TURNS {
            if self.ended.load(Ordering::SeqCst) == CELLS - 1 {
                return;
            }
        }
        self.late.store(true, Ordering::SeqCst);
    }
}

impl Gate for HeldGate {
    fn open(&self, cells: u64) {
        self.opened.store(cells, Ordering::SeqCst);
    }

    fn begin(&self, _worker: u64, cell: u64) {
        if cell == 0 {
            self.wait();
        }
    }

    fn detect(&self, _worker: u64, _cell: u64) {
        self.detected.fetch_add(1, Ordering::SeqCst);
    }

    fn end(&self, _worker: u64, _cell: u64) {
        self.ended.fetch_add(1, Ordering::SeqCst);
    }
}
