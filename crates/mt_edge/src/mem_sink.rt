ghost use Rattle.std.specs.Prelude.{◌≡◌, ◌↔◌, [], IsErrOf, IsTrue, OnOk, OnErr};
ghost use Rattle.mt_edge.specs.Causes.{HasCause};
ghost use Rattle.mt_edge.specs.Held.{fails, first_call, after_call};
ghost use Rattle.mt_edge.specs.Pieces.{Grows, GrowsBy};
ghost use Rattle.mt_edge.specs.declared.outside.EdgeFault.TheVariants.{Failed};

use crate::outside::{EdgeFault, Sink};
use crate::script::CallScript;
use class_model::Bytes;
use std::alloc::Global;

/// A sink in memory, which fails at the calls that it is told to.
#[derive(Drop)]
pub struct MemSink {
    bytes: Bytes,
    script: CallScript,
    faults: u64,
}

impl MemSink {
    ghost use Rattle.mt_edge.specs.Shown.{sink_bytes, sink_script};

    /// An empty sink. `failing` has the numbers of the calls, counted from 0, that are to fail.
    pub fn new(alloc: Global, failing: Vec<u64>) -> MemSink
        ensures empty { sink_bytes result ≡ [] }
        ensures script { sink_script result ≡ first_call failing.items }
    {
        MemSink {
            bytes: Bytes::new(alloc),
            script: CallScript::new(failing),
            faults: 0,
        }
    }

    /// The bytes that were put.
    pub fn bytes(&self) -> &[u8]
        ensures { result.now ≡ sink_bytes self.now }
    {
        self.bytes.as_slice()
    }
}

impl Sink for MemSink {
    ghost use Rattle.mt_edge.specs.Shown.{sink_written, sink_script, sink_faults};

    ghost written = { λ s. sink_written s };

    ghost faults = { λ s. sink_faults s };

    fn put(&mut self, bytes: &[u8]) -> Result<(), EdgeFault>
        ensures ok { OnOk result (Grows (sink_written self.old) (sink_written self.new) bytes.now) }
        ensures err { OnErr result
            (GrowsBy (sink_written self.old) (sink_written self.new) bytes.now) }
        ensures cause { HasCause (sink_faults self.old) (sink_faults self.new) result }
        ensures told { IsErrOf result Failed ↔ IsTrue (fails (sink_script self.old)) }
        ensures counted { sink_script self.new ≡ after_call (sink_script self.old) }
    {
        if self.script.next_fails() {
            self.faults = self.faults.saturating_add(1);
            return Err(EdgeFault::Failed);
        }
        self.bytes.extend_from_slice(bytes)?;
        Ok(())
    }
}
