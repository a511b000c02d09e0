//! What is recorded of a run, its record as one that is true.

use crate::true_record::TrueRecord;
use class_model::Name;

/// What is recorded of a run.
#[derive(Drop)]
pub enum TrueRecorded {
    Run(TrueRecord),
    /// The record of the run doesn't fit the fields of a history.
    Unwritable,
    /// No row of the machine applies to an instruction, and there is no record: its class, its
    /// method by name and descriptor written together, and its number.
    Stuck {
        class: Name,
        method: Name,
        at: usize,
    },
}
