//! What the good entries of a journal have said.

use class_model::{Seq, SharedBytes};
use record_rules::RunRecord;
use std::alloc::Global;

/// The class files of good entries, equal ones as often as they stand there, and the records.
#[derive(Drop)]
pub struct Runs {
    pub classes: Seq<SharedBytes>,
    pub records: Seq<RunRecord>,
}
