//! What a run of a test calls.

ghost use Rattle.std.specs.Prelude.{◌≡◌, ◌++◌, IfOk, OnOk};
ghost use Rattle.std.specs.List.{flat_map};
ghost use Rattle.test_discovery.specs.Scripts.{call_of, call_as, calls_as, make_call};
ghost use Rattle.test_discovery.specs.Scripts.{script_of, test_in, test_at, tests_listed};

use crate::expected::expected_class;
use crate::listed::Listed;
use crate::marks::{Part, kind_of};
use crate::names::INITIALIZER;
use class_model::{Memory, Name, Seq};
use class_table::{Call, CallKind, Test};
use std::alloc::Global;

/// What stands around each test of a class.
#[derive(Drop)]
pub struct Fixture {
    pub before_all: Seq<Call>,
    pub before: Seq<Call>,
    pub after: Seq<Call>,
    pub after_all: Seq<Call>,
}

fn call_of(kind: CallKind, listed: &Listed) -> Result<Call, Memory>
    ensures { IfOk result (λ call. call ≡ call_of kind listed.now) }
{
    Ok(Call {
        class: listed.class.copy()?,
        method: listed.name.copy()?,
        kind,
    })
}

fn push_call_as(calls: &mut Seq<Call>, part: Part, listed: &Listed) -> Result<(), Memory>
    ensures { OnOk result (calls.new ≡ calls.old ++ call_as part listed.now) }
{
    if listed.marks.has_part(part) {
        calls.push(call_of(kind_of(part), listed)?)?;
    }
    Ok(())
}

fn push_calls_as(calls: &mut Seq<Call>, part: Part, listed: &[Listed]) -> Result<(), Memory>
    ensures { OnOk result (calls.new ≡ calls.old ++ calls_as part listed.now) }
{
    for method in listed {
        push_call_as(calls, part, method)?;
    }
    Ok(())
}

/// The calls of the methods that have this part.
pub fn calls_as(alloc: Global, part: Part, listed: &[Listed]) -> Result<Seq<Call>, Memory>
    ensures { IfOk result (λ calls. calls ≡ calls_as part listed.now) }
{
    let mut calls = Seq::new(alloc);
    push_calls_as(&mut calls, part, listed)?;
    Ok(calls)
}

/// The same class by class.
pub fn calls_by_class(
    alloc: Global,
    part: Part,
    by_class: &[Seq<Listed>],
) -> Result<Seq<Call>, Memory>
    ensures { IfOk result (λ calls. calls ≡ flat_map (calls_as part) by_class.now) }
{
    let mut calls = Seq::new(alloc);
    for listed in by_class {
        push_calls_as(&mut calls, part, listed.as_slice())?;
    }
    Ok(calls)
}

fn make_call(alloc: Global, class: &Name) -> Result<Call, Memory>
    ensures { IfOk result (λ call. call ≡ make_call class.now) }
{
    Ok(Call {
        class: class.copy()?,
        method: Name::from_slice(alloc, INITIALIZER.as_slice())?,
        kind: CallKind::Make,
    })
}

fn push_copies(script: &mut Seq<Call>, calls: &[Call]) -> Result<(), Memory>
    ensures { OnOk result (script.new ≡ script.old ++ calls.now) }
{
    for call in calls {
        script.push(call.copy()?)?;
    }
    Ok(())
}

fn script_of(
    alloc: Global,
    class: &Name,
    fixture: &Fixture,
    listed: &Listed,
) -> Result<Seq<Call>, Memory>
    ensures { IfOk result (λ script. script ≡ script_of class.now fixture.now listed.now) }
{
    let mut script = fixture.before_all.copy()?;
    script.push(make_call(alloc, class)?)?;
    push_copies(&mut script, fixture.before.as_slice())?;
    script.push(call_of(CallKind::TestMethod, listed)?)?;
    push_copies(&mut script, fixture.after.as_slice())?;
    push_copies(&mut script, fixture.after_all.as_slice())?;
    Ok(script)
}

fn test_in(alloc: Global, class: &Name, fixture: &Fixture, listed: &Listed) -> Result<Test, Memory>
    ensures { IfOk result (λ test. test ≡ test_in class.now fixture.now listed.now) }
{
    Ok(Test {
        class: class.copy()?,
        method: listed.name.copy()?,
        script: script_of(alloc, class, fixture, listed)?,
        expected: expected_class(&listed.marks.expected)?,
    })
}

fn push_test_at(
    alloc: Global,
    tests: &mut Seq<Test>,
    class: &Name,
    fixture: &Fixture,
    listed: &Listed,
) -> Result<(), Memory>
    ensures { OnOk result (tests.new ≡ tests.old ++ test_at class.now fixture.now listed.now) }
{
    if listed.marks.test {
        tests.push(test_in(alloc, class, fixture, listed)?)?;
    }
    Ok(())
}

/// Adds the tests among the listed methods of a class of this name.
pub fn push_tests(
    alloc: Global,
    tests: &mut Seq<Test>,
    class: &Name,
    fixture: &Fixture,
    listed: &[Listed],
) -> Result<(), Memory>
    ensures { OnOk result (tests.new ≡ tests.old ++ tests_listed class.now fixture.now listed.now) }
{
    for method in listed {
        push_test_at(alloc, tests, class, fixture, method)?;
    }
    Ok(())
}
