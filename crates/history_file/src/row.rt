//! A record in which names and classes are numbers.

use class_model::Seq;

/// How a run ended that wasn't stuck.
#[derive(Clone, Copy)]
pub enum End {
    Passed,
    /// The test failed: its method returned, though an exception was to leave it.
    Returned,
    /// The test failed: an exception of the class of this name left it.
    Thrown(u32),
    TimedOut,
    MemoryOut,
}

/// A name that was consulted, and its class file.
#[derive(Clone, Copy)]
pub struct Entry {
    /// The name's number, from 0.
    pub name: u32,
    /// The class's number, from 1; 0 where there was none.
    pub class: u32,
}

/// What is kept of a run that wasn't stuck. Names are numbers from 0.
#[derive(Drop)]
pub struct Row {
    pub test_class: u32,
    pub test_method: u32,
    /// Words of the heap, and frames at one time, that the run might use.
    pub heap: u32,
    pub depth: u32,
    /// Steps that it might take.
    pub limit: u64,
    pub end: End,
    pub steps: u64,
    /// The names that were consulted, in order of first use.
    pub consulted: Seq<Entry>,
    /// The lines that were reached, each behind the place of its class among the consulted names;
    /// in ascending order, each once.
    pub reached: Seq<(u32, u16)>,
}
