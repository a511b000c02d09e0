//! What class files are to records: the class that bytes spell, the library, the tests, and which
//! class files are a program.
//!
//! Each law is the contract of a function that does nothing but call the laws on which it stands.
#![tactic(auto)]

ghost use Rattle.class_records.specs.Laws.{ClassFilesAreAProfile, ConsultedFilesBuild};
ghost use Rattle.class_records.specs.Laws.{OrderedWalksAreClosed, RecordsOfFilesAreTrue};

use library_laws::library_is_closed;
use record_forms::own_programs_build;
use reuse_laws::{records_of_runs_are_true, runs_are_closed};

/// Class files, the library and the tests that annotations make are as the laws of records ask.
pub fn class_files_are_a_profile()
    ensures { ClassFilesAreAProfile }
{
    library_is_closed();
}

/// What stands above a class that stands above another stands above that one too, where no class
/// stands above itself.
pub fn ordered_walks_are_closed()
    ensures { OrderedWalksAreClosed }
{}

/// The class files that a run consulted are a program by themselves: no two have one name, none has
/// a name of the library, and none has a super that is missing, of a wrong kind or above itself.
pub fn consulted_files_build()
    ensures { ConsultedFilesBuild }
{
    class_files_are_a_profile();
    ordered_walks_are_closed();
    own_programs_build();
    runs_are_closed();
}

/// The record of a run on class files is true.
pub fn records_of_files_are_true()
    ensures { RecordsOfFilesAreTrue }
{
    class_files_are_a_profile();
    consulted_files_build();
    records_of_runs_are_true();
}
