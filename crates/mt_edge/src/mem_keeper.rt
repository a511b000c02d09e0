ghost use Rattle.std.specs.Prelude.{◌≡◌, ◌≤◌, ◌↔◌, length, IsErrOf, IsTrue, OnOk, OnErr};
ghost use Rattle.mt_edge.specs.Causes.{HasCause};
ghost use Rattle.mt_edge.specs.Held.{fails, first_call, after_call};
ghost use Rattle.mt_edge.specs.Keeping.{LoadsAll, IsAllDurable};
ghost use Rattle.mt_edge.specs.Pieces.{Grows, GrowsBy};
ghost use Rattle.mt_edge.specs.declared.outside.EdgeFault.TheVariants.{Failed};

use crate::outside::{EdgeFault, Keeper};
use crate::script::CallScript;
use class_model::Bytes;

/// A keeper in memory, which fails at the calls that it is told to.
#[derive(Drop)]
pub struct MemKeeper {
    bytes: Bytes,
    durable: u64,
    script: CallScript,
    reading: u64,
    writing: u64,
    ghost kept: { durable ≤ length bytes },
}

impl MemKeeper {
    ghost use Rattle.mt_edge.specs.Shown.{keeper_bytes, keeper_durable, keeper_script, keeper_reading, keeper_writing};

    /// A keeper of these bytes, none of which is durable yet. `failing` has the numbers of the
    /// calls, counted from 0, that are to fail.
    pub fn new(kept: Bytes, failing: Vec<u64>) -> MemKeeper
        ensures bytes { keeper_bytes result ≡ kept }
        ensures durable { keeper_durable result ≡ 0 }
        ensures script { keeper_script result ≡ first_call failing.items }
        ensures faults { (keeper_reading result ≡ 0) × (keeper_writing result ≡ 0) }
    {
        MemKeeper {
            bytes: kept,
            durable: 0,
            script: CallScript::new(failing),
            reading: 0,
            writing: 0,
        }
    }

    /// The bytes that are kept.
    pub fn bytes(&self) -> &[u8]
        ensures { result.now ≡ keeper_bytes self.now }
    {
        self.bytes.as_slice()
    }
}

impl Keeper for MemKeeper {
    ghost use Rattle.mt_edge.specs.Shown.{keeper_kept, keeper_durable, keeper_script, keeper_reading, keeper_writing};

    ghost kept = { λ k. keeper_kept k };

    ghost durable = { λ k. keeper_durable k };

    ghost reading = { λ k. keeper_reading k };

    ghost writing = { λ k. keeper_writing k };

    fn load(&mut self) -> Result<Bytes, EdgeFault>
        ensures bytes { LoadsAll (keeper_kept self.old) result }
        ensures same { keeper_kept self.new ≡ keeper_kept self.old }
        ensures durable { keeper_durable self.new ≡ keeper_durable self.old }
        ensures cause { HasCause (keeper_reading self.old) (keeper_reading self.new) result }
        ensures other { keeper_writing self.new ≡ keeper_writing self.old }
        ensures told { IsErrOf result Failed ↔ IsTrue (fails (keeper_script self.old)) }
        ensures counted { keeper_script self.new ≡ after_call (keeper_script self.old) }
    {
        if self.script.next_fails() {
            self.reading = self.reading.saturating_add(1);
            return Err(EdgeFault::Failed);
        }
        Ok(self.bytes.copy()?)
    }

    fn append(&mut self, piece: &[u8]) -> Result<(), EdgeFault>
        ensures ok { OnOk result (Grows (keeper_kept self.old) (keeper_kept self.new) piece.now) }
        ensures err { OnErr result
            (GrowsBy (keeper_kept self.old) (keeper_kept self.new) piece.now) }
        ensures durable { keeper_durable self.old ≤ keeper_durable self.new }
        ensures cause { HasCause (keeper_writing self.old) (keeper_writing self.new) result }
        ensures other { keeper_reading self.new ≡ keeper_reading self.old }
        ensures told { IsErrOf result Failed ↔ IsTrue (fails (keeper_script self.old)) }
        ensures counted { keeper_script self.new ≡ after_call (keeper_script self.old) }
    {
        if self.script.next_fails() {
            self.writing = self.writing.saturating_add(1);
            return Err(EdgeFault::Failed);
        }
        self.bytes.extend_from_slice(piece)?;
        Ok(())
    }

    fn sync(&mut self) -> Result<(), EdgeFault>
        ensures ok { OnOk result (IsAllDurable (keeper_kept self.new) (keeper_durable self.new)) }
        ensures same { keeper_kept self.new ≡ keeper_kept self.old }
        ensures durable { keeper_durable self.old ≤ keeper_durable self.new }
        ensures cause { HasCause (keeper_writing self.old) (keeper_writing self.new) result }
        ensures other { keeper_reading self.new ≡ keeper_reading self.old }
        ensures told { IsErrOf result Failed ↔ IsTrue (fails (keeper_script self.old)) }
        ensures counted { keeper_script self.new ≡ after_call (keeper_script self.old) }
    {
        if self.script.next_fails() {
            self.writing = self.writing.saturating_add(1);
            return Err(EdgeFault::Failed);
        }
        self.durable = self.bytes.len() as u64;
        Ok(())
    }
}
