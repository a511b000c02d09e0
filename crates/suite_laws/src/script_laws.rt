//! Laws of the scripts of tests that are found, over the definitions alone.

ghost use Rattle.suite_laws.specs.Found.{FoundScriptsFit, ProgramsHaveFiles, FoundInProgramsFit};

/// The calls of the script of each test that is found among class files find their methods, where
/// the code is accepted.
#[tactic(auto, using(crate::proofs::Scripts::scripts_fit))]
pub fn found_scripts_fit()
    ensures { FoundScriptsFit }
{}

/// A name that has a class file in a program means what that file says.
#[tactic(auto, using(crate::proofs::Programs::files_are))]
pub fn programs_have_files()
    ensures { ProgramsHaveFiles }
{}

/// The calls of the script of each test that is found among the class files of a program find their
/// methods, where its code is accepted.
#[tactic(auto, using(crate::proofs::Programs::programs_fit))]
pub fn found_in_programs_fit()
    ensures { FoundInProgramsFit }
{}
