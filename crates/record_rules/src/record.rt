//! A record of a run.

use class_model::{Name, Outcome, Seq, SharedBytes};

/// What is kept of a run that wasn't stuck.
#[derive(Drop)]
pub struct RunRecord {
    pub test_class: Name,
    pub test_method: Name,
    /// Words of the heap, and frames at one time, that the run might use.
    pub heap: u32,
    pub depth: u32,
    /// Steps that it might take.
    pub limit: u64,
    pub outcome: Outcome,
    pub steps: u64,
    /// The names that were consulted, in order of first use, each with the bytes of its class
    /// file, if there was one.
    pub consulted: Seq<(Name, Option<SharedBytes>)>,
    /// The lines that were reached, each behind the place of its class among the consulted names;
    /// in ascending order, each once.
    pub reached: Seq<(u32, u16)>,
}
