//! The program of the classes of a suite, with the library: built, its code accepted, ready to be
//! run; or the first fault.
#![tactic(auto)]

mod accepting;
mod building;
mod fault;

pub use building::program_of;
pub use fault::{ProgramEnd, ProgramFault};
pub use mutant_runs::{
    ClassBytes, covering_tests, edited_are_ready, edited_class, edits_make, mutants_are_of,
    not_viable, ready_may_run, viable,
};
