//! Laws of the tests that are found among class files, over the definitions alone.
//!
//! Each law is the contract of a function that does nothing but call the laws on which it stands.
#![tactic(auto)]

ghost use Rattle.test_laws.specs.Laws.{EditKeepsTests, EditKeepsName, AcceptedDeclareOnce};
ghost use Rattle.test_laws.specs.Laws.{FoundAreTestsOf, RisingEnds};

use mutant_apply::applied_is_made;

/// An edit of a class file leaves the tests of each class as they are, and the class its name.
pub fn edits_keep_tests()
    ensures tests { EditKeepsTests }
    ensures name { EditKeepsName }
{
    applied_is_made();
}

/// No class file declares two methods of one name and descriptor, where the code of its program is
/// accepted.
pub fn accepted_declare_once()
    ensures { AcceptedDeclareOnce }
{}

/// Each test that is found is the test of its class and method, where no class file declares two
/// methods of one name and descriptor.
pub fn found_are_tests_of()
    ensures { FoundAreTestsOf }
{}

/// No more superclasses are found than there are names of class files, where no class stands above
/// itself.
pub fn rising_ends()
    ensures { RisingEnds }
{}
