//! The call of `test_discovery`, with the contract of the function that it calls. A body that such
//! a contract refuses here, it refuses there too.

ghost use Rattle.test_discovery.specs.Discovery.{program_tests, Finds};

use class_model::{ClassId, Seq};
use class_table::{Program, Test};
use std::alloc::Global;
use test_discovery::TestFault;

/// `test_discovery::tests`
pub fn tests(alloc: Global, program: &Program, from: &Seq<ClassId>) -> Result<Seq<Test>, TestFault>
    ensures { Finds (program_tests program.now from.now) result }
{
    match test_discovery::tests(alloc, program, from) {
        Ok(found) => Ok(found),
        Err(fault) => Err(fault),
    }
}
