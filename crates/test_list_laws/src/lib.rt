//! Laws of the list of tests, over its definition alone.
//!
//! Each law is the contract of a function that does nothing but call the laws on which it stands.
#![tactic(auto)]

ghost use Rattle.test_list_laws.specs.Laws.{AreMet, TestsAreListed, TestsStandOnce};

/// A test is listed exactly where its class is a test class and its method is one of the test
/// methods of that class.
pub fn tests_are_listed()
    ensures { TestsAreListed }
{}

/// No test is listed twice, where no class file declares a method twice.
pub fn tests_stand_once()
    ensures { TestsStandOnce }
{}

/// There are class files of which these laws speak, with a test.
pub fn a_test_is_met()
    ensures { AreMet }
{}
