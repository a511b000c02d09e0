//! Laws of accepted programs, and of those with an edited class.

ghost use Rattle.mutant_runs.specs.Judged.{EditsDifferInOne};
ghost use Rattle.mutant_runs.specs.Put.{EditsArePut, PutStayAlike};
ghost use Rattle.mutant_runs.specs.Kept.{KindsStayRight, PutKeepKinds, PutStayAccepted, PutKeepLibrary};
ghost use Rattle.mutant_runs.specs.Codes.{SpelledAreBounded, BoundedAreNumbered, PutStayNumbered, AcceptedHaveRoom, BoundedByName, SeenHaveRoom};

/// The class of an edit takes the place of the class that is edited: it has its name, flags,
/// superclass and interfaces.
pub fn edits_are_put()
    ensures { EditsArePut }
{}

/// Of the class that is edited it has all but the code of one method.
pub fn edits_differ_in_one()
    ensures { EditsDifferInOne }
{}

/// With such a class a program says the same of each class but its code, and the same of all
/// others.
pub fn put_classes_stay_alike()
    ensures { PutStayAlike }
{}

/// Supers stay of the right kinds.
pub fn kinds_stay_right()
    ensures alike { KindsStayRight }
    ensures put { PutKeepKinds }
{}

/// A program that is accepted stays so where the other class is, and its library stays so whether
/// or not that class is.
pub fn edited_programs_are_accepted()
    ensures accepted { PutStayAccepted }
    ensures library { PutKeepLibrary }
{}

/// Instructions have numbers in programs of class files and of the library, and with an edited
/// class.
pub fn instructions_have_numbers()
    ensures spelled { SpelledAreBounded }
    ensures numbered { BoundedAreNumbered }
    ensures put { PutStayNumbered }
{}

/// Each code of an accepted class has room for what it catches, or no exception rows.
pub fn accepted_classes_have_room()
    ensures classes { AcceptedHaveRoom }
    ensures named { BoundedByName }
    ensures seen { SeenHaveRoom }
{}
