//! The rows of an exception table that cover an instruction, while instructions are gone over in
//! order: each row is opened once and closed once.

ghost use Rattle.std.specs.Prelude.{◌≡◌, ◌≤◌, ℕ, IfOk, OnOk};
ghost use Rattle.vframes.specs.Sweeps.{HasReached, KeepsReached, OpensAll, GoesTo};

use crate::handlers::Handler;
use class_model::Memory;
use std::alloc::Global;

/// The rows of an exception table by where they begin, how many were opened, and those that are
/// open.
#[derive(Drop)]
pub struct Sweep {
    pub rows: Vec<Handler>,
    pub next: usize,
    pub covering: Vec<Handler>,
}

impl Sweep {
    /// All rows, before the first instruction.
    pub fn new(alloc: Global, handlers: &[Handler]) -> Result<Sweep, Memory>
        ensures { IfOk result (λ w. HasReached handlers.now 0 w) }
    {
        let mut rows = Vec::from_slice(alloc, handlers)?;
        rows.sort_unstable_by_key(|handler| handler.start);
        Ok(Sweep {
            rows,
            next: 0,
            covering: Vec::new(alloc),
        })
    }

    // Closes the rows that end before an instruction or right there.
    fn close(&mut self, at: u32)
        ensures { KeepsReached at self.old self.new }
    {
        self.covering.retain(|handler| at < handler.end);
    }

    // Opens the rows that begin there or before.
    fn open_up(&mut self, at: u32) -> Result<(), Memory>
        ensures kept { OnOk result (KeepsReached at self.old self.new) }
        ensures all { OnOk result (OpensAll at self.old self.new) }
    {
        while self.next < self.rows.len() {
            let handler = self.rows[self.next];
            if handler.start > at {
                return Ok(());
            }
            self.covering.push(handler)?;
            self.next += 1;
        }
        Ok(())
    }

    /// Goes on to an instruction.
    pub fn go_to(&mut self, at: u32) -> Result<(), Memory>
        ensures { OnOk result (GoesTo at self.old self.new) }
    {
        self.close(at);
        self.open_up(at)?;
        Ok(())
    }
}
