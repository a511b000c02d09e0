//! How runs of tests end.

use crate::list::Name;

/// Why a test failed.
#[derive(Drop)]
pub enum Cause {
    /// Its method returned, though an exception was to leave it.
    Returned,
    /// An exception of this class left it, or another call of its script.
    Thrown(Name),
}

/// How a run of a test ended that wasn't stuck.
#[derive(Drop)]
pub enum Outcome {
    Passed,
    Failed(Cause),
    /// It had not ended after the steps that it was given.
    TimedOut,
    /// An allocation would have passed the heap's limit.
    MemoryOut,
}
