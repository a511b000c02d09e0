//! The library's code is within the bounds of a class file.

ghost use Rattle.lib_table.specs.Library.{library_meant};
ghost use Rattle.library_laws.specs.Bounded.{AreBounded};

/// All codes of the library are within the bounds of a class file.
pub fn library_is_bounded()
    ensures { AreBounded library_meant }
{}
