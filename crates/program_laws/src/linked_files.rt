//! Laws of class files that are linked.

ghost use Rattle.program_laws.specs.Bounded.{LinkedFilesAreBounded};

/// Each code of a class file that has a spelling is, once it is linked, within the bounds of a
/// class file.
pub fn linked_files_are_bounded()
    ensures { LinkedFilesAreBounded }
{}
