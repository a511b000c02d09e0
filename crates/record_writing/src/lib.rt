//! What a job leaves can be written: its new records have the form of a history, and differ.
//!
//! Each law is the contract of a function that does nothing but call the laws on which it stands.
#![tactic(auto)]

ghost use Rattle.std.specs.Prelude.{[], ◌∷◌};
ghost use Rattle.history_rules.specs.Laws.{AreWritable};
ghost use Rattle.record_tries.specs.Tries.{passed, timed_out};
ghost use Rattle.record_writing.specs.Writing.{FittingAreFormed, NewRecordsAreWritable};

use record_forms::records_have_form;

/// The record of a run whose texts, numbers and counts fit the fields of a history has the form of
/// one.
pub fn fitting_records_are_formed()
    ensures { FittingAreFormed }
{
    records_have_form();
}

/// The new records of a job can be written, where each has the form of a history.
pub fn new_records_are_writable()
    ensures { NewRecordsAreWritable }
{}

/// There are such records: of a run that passes, and of one that is timed out.
pub fn writing_laws_are_of_use()
    ensures { AreWritable (timed_out ∷ passed ∷ []) }
{}
