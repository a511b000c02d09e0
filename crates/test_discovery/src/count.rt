//! How many tests classes have. None is made.

ghost use Rattle.std.specs.Prelude.{◌≡◌, count_by};
ghost use Rattle.test_discovery.specs.Discovery.{program_tests, Counts};
ghost use Rattle.test_discovery.specs.Searching.{behind, tests_named};
ghost use Rattle.test_discovery.specs.Searching.{CountsListed, CountsWith, CountsClass};

use crate::fault::TestFault;
use crate::listed::{Listed, downwards, listed_of, rising};
use crate::rules::{check_listed, is_test_class, uses_runner};
use crate::search::in_order;
use class_link::own_name;
use class_model::{Bytes, Class, ClassId, Name, Seq};
use class_table::Program;
use std::alloc::Global;
use std::collections::BTreeMap;

// How many of these methods are tests.
fn count_marked(listed: &[Listed]) -> usize
    ensures { result ≡ count_by (λ l. l.marks.test) listed.now }
{
    listed.iter().filter(|method| method.marks.test).count()
}

// How many tests a class has, by its listed methods.
fn count_listed(alloc: Global, class: &Class, listed: &[Listed]) -> Result<usize, TestFault>
    ensures { CountsListed class.now listed.now result }
{
    if !is_test_class(class, listed) {
        return Ok(0);
    }
    let name = own_name(alloc, class)?;
    check_listed(class, &name, listed)?;
    Ok(count_marked(listed))
}

// How many tests a class has, which stands before its superclasses.
fn count_with(alloc: Global, class: &Class, classes: &[&Class]) -> Result<usize, TestFault>
    ensures { CountsWith class.now (behind classes.now) result }
{
    if uses_runner(class) {
        return Err(TestFault::RunnerUsed {
            class: own_name(alloc, class)?,
        });
    }
    let by_class = listed_of(alloc, classes)?;
    let listed = downwards(alloc, by_class)?;
    count_listed(alloc, class, listed.as_slice())
}

// The same where the class stands first, if there is one.
fn count_class(alloc: Global, classes: &[&Class]) -> Result<usize, TestFault>
    ensures { CountsClass (behind classes.now) result }
{
    match classes {
        [] => Ok(0),
        [class, ..] => count_with(alloc, class, classes),
    }
}

// How many tests the classes of these names have. The count stays at 2^64 - 1.
fn count_named(
    alloc: Global,
    program: &Program,
    mut names: BTreeMap<Bytes, Name>,
) -> Result<u64, TestFault>
    ensures { Counts (tests_named program.now names.entries) result }
{
    let mut count = 0u64;
    while let Some((_, name)) = names.pop_first() {
        let classes = rising(alloc, program, &name)?;
        let more = count_class(alloc, classes.as_slice())?;
        count = count.saturating_add(more as u64);
    }
    Ok(count)
}

/// How many tests `tests` gives for these classes, or 2^64 - 1 where they are more; or its fault.
/// None is made.
pub fn count_tests(alloc: Global, program: &Program, from: &Seq<ClassId>) -> Result<u64, TestFault>
    ensures { Counts (program_tests program.now from.now) result }
{
    let names = in_order(alloc, program, from.as_slice())?;
    count_named(alloc, program, names)
}
