//! The search through the classes of the tests folder.

ghost use Rattle.std.specs.Prelude.{◌≡◌, IfOk};
ghost use Rattle.test_discovery.specs.Scripts.{fixture_with};
ghost use Rattle.test_discovery.specs.Discovery.{in_order, name_of, names_of, program_tests, Finds};
ghost use Rattle.test_discovery.specs.Searching.{behind, tests_named, AddsTests, AddsListed};
ghost use Rattle.test_discovery.specs.Searching.{AddsWith, AddsClass};

use crate::fault::TestFault;
use crate::listed::{Listed, downwards, listed_of, rising};
use crate::marks::Part;
use crate::rules::{check_listed, is_test_class, uses_runner};
use crate::script::{Fixture, calls_as, calls_by_class, push_tests};
use class_link::own_name;
use class_model::{Bytes, Class, ClassId, Memory, Name, Seq, write_text};
use class_table::{Call, Program, Test};
use std::alloc::Global;
use std::collections::BTreeMap;

// What stands around each test, where what runs behind it is there.
fn fixture_with(
    alloc: Global,
    listed: &[Listed],
    after: Seq<Call>,
    after_all: Seq<Call>,
) -> Result<Fixture, Memory>
    ensures { IfOk result (λ fixture. fixture ≡ fixture_with listed.now after after_all) }
{
    Ok(Fixture {
        before_all: calls_as(alloc, Part::BeforeAll, listed)?,
        before: calls_as(alloc, Part::Before, listed)?,
        after,
        after_all,
    })
}

// Adds the tests of a test class, by its listed methods and what runs behind its tests.
fn add_checked(
    alloc: Global,
    tests: &mut Seq<Test>,
    class: &Class,
    listed: &[Listed],
    fixture: Fixture,
) -> Result<(), TestFault>
    ensures { AddsTests class.now listed.now fixture tests.old tests.new result }
{
    let name = own_name(alloc, class)?;
    check_listed(class, &name, listed)?;
    push_tests(alloc, tests, &name, &fixture, listed)?;
    Ok(())
}

// Adds the tests of a class, by its listed methods.
fn add_listed(
    alloc: Global,
    tests: &mut Seq<Test>,
    class: &Class,
    by_class: Vec<Seq<Listed>>,
) -> Result<(), TestFault>
    ensures { AddsListed class.now by_class.items tests.old tests.new result }
{
    let after = calls_by_class(alloc, Part::After, by_class.as_slice())?;
    let after_all = calls_by_class(alloc, Part::AfterAll, by_class.as_slice())?;
    let listed = downwards(alloc, by_class)?;
    if !is_test_class(class, listed.as_slice()) {
        return Ok(());
    }
    let fixture = fixture_with(alloc, listed.as_slice(), after, after_all)?;
    add_checked(alloc, tests, class, listed.as_slice(), fixture)
}

// Adds the tests of a class, which stands before its superclasses.
fn add_with(
    alloc: Global,
    tests: &mut Seq<Test>,
    class: &Class,
    classes: &[&Class],
) -> Result<(), TestFault>
    ensures { AddsWith class.now (behind classes.now) tests.old tests.new result }
{
    if uses_runner(class) {
        return Err(TestFault::RunnerUsed {
            class: own_name(alloc, class)?,
        });
    }
    let by_class = listed_of(alloc, classes)?;
    add_listed(alloc, tests, class, by_class)
}

// The same where the class stands first, if there is one.
fn add_class(alloc: Global, tests: &mut Seq<Test>, classes: &[&Class]) -> Result<(), TestFault>
    ensures { AddsClass (behind classes.now) tests.old tests.new result }
{
    match classes {
        [] => Ok(()),
        [class, ..] => add_with(alloc, tests, class, classes),
    }
}

// The tests of the classes of these names, in their order.
fn tests_of(
    alloc: Global,
    program: &Program,
    mut names: BTreeMap<Bytes, Name>,
) -> Result<Seq<Test>, TestFault>
    ensures { Finds (tests_named program.now names.entries) result }
{
    let mut tests = Seq::new(alloc);
    while let Some((_, name)) = names.pop_first() {
        let classes = rising(alloc, program, &name)?;
        add_class(alloc, &mut tests, classes.as_slice())?;
    }
    Ok(tests)
}

// The name of the class of a number.
fn name_of(alloc: Global, program: &Program, id: ClassId) -> Result<Name, Memory>
    ensures { IfOk result (λ name. name ≡ name_of program.now id) }
{
    match program.get(id) {
        Some(info) => info.name().copy(),
        None => Ok(Name::new(alloc)),
    }
}

/// The names of classes in the byte order of modified UTF-8.
pub fn in_order(
    alloc: Global,
    program: &Program,
    from: &[ClassId],
) -> Result<BTreeMap<Bytes, Name>, Memory>
    ensures { IfOk result (λ names. names.entries ≡ in_order (names_of program.now from.now)) }
{
    let mut names = BTreeMap::new(alloc);
    for id in from {
        let name = name_of(alloc, program, *id)?;
        names.insert(write_text(alloc, &name)?, name)?;
    }
    Ok(names)
}

/// The tests of these classes of a program, in the byte order of their names in modified UTF-8. The
/// other classes of the program matter only where they are superclasses.
///
/// `RunnerUsed`: a class of these uses a runner. `BadTest`: a listed method of a test class of
/// these breaks a rule. The first fault is told: by classes in order, a runner first in each, then
/// by methods in list order, then by rules.
pub fn tests(alloc: Global, program: &Program, from: &Seq<ClassId>) -> Result<Seq<Test>, TestFault>
    ensures { Finds (program_tests program.now from.now) result }
{
    let names = in_order(alloc, program, from.as_slice())?;
    tests_of(alloc, program, names)
}
