//! A call of the tool, and a class file with one byte changed.

use class_model::Bytes;
use mt_edge::{MemKeeper, MemSink, MemTree, Meter, OpenGate};
use mutest_engine::run;
use sample_classes::A;
use std::alloc::Global;
use std::sync::Wait;
use std::test::Fail;
use std::thread::Threads;

/// How a call ends: its exit status, what it puts, and how many steps it counts.
#[derive(Drop)]
pub struct Ended {
    pub status: i32,
    pub text: Bytes,
    pub steps: u64,
}

impl Ended {
    pub fn is(&self, status: i32, text: &str, steps: u64) -> bool {
        self.status == status && self.text.as_slice() == text.as_bytes() && self.steps == steps
    }
}

/// A call with these words, of whose puts some fail.
pub fn call(
    rt: &(impl Threads + Wait + Sync + AllocGlobal),
    words: &[&str],
    tree: &mut MemTree,
    sink_fails: &[u64],
) -> Result<Ended, Fail> {
    let alloc = rt.alloc();
    let mut all = Vec::new(alloc);
    for word in words {
        all.push(String::from_str(alloc, word)?)?;
    }
    let mut out = MemSink::new(alloc, sink_fails.to_vec(alloc)?);
    let mut meter = Meter::new();
    let keeper = MemKeeper::new(Bytes::new(alloc), Vec::new(alloc));
    let (status, _keeper) = run(
        rt, alloc, &all, tree, &mut out, &OpenGate, keeper, &mut meter,
    );
    Ok(Ended {
        status: i32::from(status.code()),
        text: Bytes::from_slice(alloc, out.bytes())?,
        steps: meter.count(),
    })
}

/// A with one byte put in the place of another.
pub fn damaged(alloc: Global, at: usize, byte: u8) -> Result<Vec<u8>, Fail> {
    let mut bytes = A.to_vec(alloc)?;
    if at < bytes.len() {
        bytes[at] = byte;
    }
    Ok(bytes)
}
