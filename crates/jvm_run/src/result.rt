//! What a run gives.

use crate::ending::Ending;
use class_model::{ClassId, Name, Seq};

/// What a run gives.
#[derive(Drop)]
pub struct RunResult {
    pub ending: Ending,
    pub steps: u64,
    /// The names that were consulted, in order of first use.
    pub consulted: Seq<Name>,
    /// The classes by number and the lines that were reached, in order of first use.
    pub reached: Seq<(ClassId, u16)>,
}
