//! Laws of edited class files, over the definitions of the crates below alone. Each law is the
//! contract of a function that does nothing but call the laws on which it stands.

ghost use Rattle.mutant_apply.specs.Spelled.{SpelledIsNamed, EditsAreSpelled, MutantsAreSpelled};
ghost use Rattle.mutant_apply.specs.Witness.{sample_file, HasMutant};

use crate::{applied_is_made, edit_keeps_form, mutants_fit};
use class_reader::files_are_read_as_spelled;
use class_writer::{what_is_spelled_is_written, what_is_written_is_spelled};

/// A class that a file spells is named as a class has to be that is written: its indices name what
/// they have to, and its numbers are in the ranges of their fields.
pub fn what_is_spelled_is_named()
    ensures { SpelledIsNamed }
{}

/// The bytes of an edited class file are a class file again: they spell the class that the edit
/// makes, where the edit fits the class.
pub fn edits_are_spelled()
    ensures { EditsAreSpelled }
{
    what_is_spelled_is_named();
    what_is_spelled_is_written();
    what_is_written_is_spelled();
    edit_keeps_form();
    applied_is_made();
}

/// The bytes of each mutant of a class file are a class file again: they spell the class that the
/// edit makes.
pub fn mutants_are_spelled()
    ensures { MutantsAreSpelled }
{
    edits_are_spelled();
    what_is_spelled_is_written();
    mutants_fit();
}

/// The premises of these laws are met: by the file of a class, and by a mutant of that class, whose
/// edit makes another class.
pub fn apply_laws_are_of_use()
    ensures { HasMutant sample_file }
{
    files_are_read_as_spelled();
}
