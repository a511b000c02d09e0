//! No class is named as an array.

ghost use Rattle.library_laws.specs.Facts.{HasArraysOfFiles, FilesAreNoArrays};

/// Where no class file is named as an array, no class is, and the supers of arrays are there.
#[tactic(auto, using(crate::proofs::ArrayNames::arrays))]
pub fn arrays_have_supers()
    ensures { HasArraysOfFiles }
{}

/// No class file that was read is named as an array.
pub fn files_are_no_arrays()
    ensures { FilesAreNoArrays }
{}
