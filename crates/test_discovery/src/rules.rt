//! When a class of the tests folder is refused.

ghost use Rattle.std.specs.Prelude.{◌≡◌, IfOk};
ghost use Rattle.std.specs.List.{list_any};
ghost use Rattle.class_link.specs.Info.{own_name};
ghost use Rattle.test_discovery.specs.Rules.{is_special, is_no_class, is_plain_constructor};
ghost use Rattle.test_discovery.specs.Rules.{makes_instance, makes_instances};
ghost use Rattle.test_discovery.specs.Rules.{is_wrongly_static, breaks, rules};
ghost use Rattle.test_discovery.specs.Rules.{first_broken, has_runner, uses_runner, may_test};
ghost use Rattle.test_discovery.specs.Rules.{is_test_class, bad_test, method_fault, first_fault};
ghost use Rattle.test_discovery.specs.Rules.{methods_fault, Passes};

use crate::annotations::{has_runner as stands_among, is_ignored};
use crate::expected::Expected;
use crate::fault::{Rule, TestFault};
use crate::listed::Listed;
use crate::names::{is_plain_descriptor, names_initializer, names_plain_descriptor};
use class_model::flags::{is_abstract, is_interface, is_private, is_static};
use class_model::{Class, Const, Member, Memory, Name};
use std::alloc::Global;

fn is_special(name: &[u16]) -> bool
    ensures { result ≡ is_special name.now }
{
    match name {
        [first, ..] => *first == 60,
        [] => false,
    }
}

fn is_no_class(expected: &Option<Expected>) -> bool
    ensures { result ≡ is_no_class expected.now }
{
    match expected {
        Some(Expected::NoClass) => true,
        Some(Expected::Named(_)) => false,
        None => false,
    }
}

// The method is `<init>()V`.
fn is_plain_constructor(pool: &[Const], member: &Member) -> bool
    ensures { result ≡ is_plain_constructor pool.now member.now }
{
    names_initializer(pool, member.name) && names_plain_descriptor(pool, member.desc)
}

fn makes_instance(pool: &[Const], member: &Member) -> bool
    ensures { result ≡ makes_instance pool.now member.now }
{
    is_plain_constructor(pool, member) && !is_static(member.flags) && !is_abstract(member.flags)
}

fn any_makes_instances(pool: &[Const], members: &[Member]) -> bool
    ensures { result ≡ list_any (makes_instance pool.now) members.now }
{
    members.iter().any(|member| makes_instance(pool, member))
}

#[tactic(auto, unfolding(crate::specs::Rules::makes_instances))]
fn makes_instances(class: &Class) -> bool
    ensures { result ≡ makes_instances class.now }
{
    any_makes_instances(class.pool.as_slice(), class.methods.as_slice())
}

fn is_wrongly_static(listed: &Listed) -> bool
    ensures { result ≡ is_wrongly_static listed.now }
{
    if is_static(listed.flags) {
        listed.marks.is_of_instance()
    } else {
        listed.marks.is_of_class()
    }
}

#[tactic(auto, unfolding(crate::specs::Rules::breaks))]
fn breaks(makes: bool, rule: Rule, listed: &Listed) -> bool
    ensures { result ≡ breaks makes rule listed.now }
{
    match rule {
        Rule::B1 => !is_plain_descriptor(listed.desc.as_slice()),
        Rule::B2 => is_wrongly_static(listed),
        Rule::B3 => {
            is_abstract(listed.flags)
                || is_private(listed.flags)
                || is_special(listed.name.as_slice())
        }
        Rule::B4 => !makes,
        Rule::B5 => listed.marks.test && is_no_class(&listed.marks.expected),
    }
}

// The first rule that a method breaks.
fn first_broken(makes: bool, listed: &Listed) -> Option<Rule>
    ensures { result ≡ first_broken makes rules listed.now }
{
    if breaks(makes, Rule::B1, listed) {
        return Some(Rule::B1);
    }
    if breaks(makes, Rule::B2, listed) {
        return Some(Rule::B2);
    }
    if breaks(makes, Rule::B3, listed) {
        return Some(Rule::B3);
    }
    if breaks(makes, Rule::B4, listed) {
        return Some(Rule::B4);
    }
    if breaks(makes, Rule::B5, listed) {
        return Some(Rule::B5);
    }
    None
}

fn bad_test(class: &Name, listed: &Listed, rule: Rule) -> Result<TestFault, Memory>
    ensures { IfOk result (λ fault. fault ≡ bad_test class.now listed.now rule) }
{
    let mut method = listed.name.copy()?;
    method.extend_from_slice(listed.desc.as_slice())?;
    Ok(TestFault::BadTest {
        class: class.copy()?,
        method,
        rule,
    })
}

fn check_method(class: &Name, makes: bool, listed: &Listed) -> Result<(), TestFault>
    ensures { Passes (method_fault class.now makes listed.now) result }
{
    match first_broken(makes, listed) {
        Some(rule) => Err(bad_test(class, listed, rule)?),
        None => Ok(()),
    }
}

fn check_methods(class: &Name, makes: bool, listed: &[Listed]) -> Result<(), TestFault>
    ensures { Passes (first_fault (method_fault class.now makes) listed.now) result }
{
    for method in listed {
        check_method(class, makes, method)?;
    }
    Ok(())
}

fn has_runner(pool: &[Const], member: &Member) -> bool
    ensures { result ≡ has_runner pool.now member.now }
{
    stands_among(pool, member.attrs.as_slice())
}

fn any_has_runner(pool: &[Const], members: &[Member]) -> bool
    ensures { result ≡ list_any (has_runner pool.now) members.now }
{
    members.iter().any(|member| has_runner(pool, member))
}

/// An annotation of a runner stands on the class, a field or a method.
#[tactic(auto, unfolding(crate::specs::Rules::uses_runner))]
pub fn uses_runner(class: &Class) -> bool
    ensures { result ≡ uses_runner class.now }
{
    let pool = class.pool.as_slice();
    stands_among(pool, class.attrs.as_slice())
        || any_has_runner(pool, class.fields.as_slice())
        || any_has_runner(pool, class.methods.as_slice())
}

/// The class is neither abstract nor an interface, and isn't ignored.
fn may_test(class: &Class) -> bool
    ensures { result ≡ may_test class.now }
{
    !is_abstract(class.flags)
        && !is_interface(class.flags)
        && !is_ignored(class.pool.as_slice(), class.attrs.as_slice())
}

fn any_is_test(listed: &[Listed]) -> bool
    ensures { result ≡ list_any (λ l. l.marks.test) listed.now }
{
    listed.iter().any(|method| method.marks.test)
}

/// It is a test class, by its listed methods.
#[tactic(auto, unfolding(crate::specs::Rules::is_test_class))]
pub fn is_test_class(class: &Class, listed: &[Listed]) -> bool
    ensures { result ≡ is_test_class class.now listed.now }
{
    may_test(class) && any_is_test(listed)
}

/// The listed methods of a test class keep to the rules.
pub fn check_listed(class: &Class, name: &Name, listed: &[Listed]) -> Result<(), TestFault>
    requires { name.now ≡ own_name class.now }
    ensures { Passes (methods_fault class.now listed.now) result }
{
    check_methods(name, makes_instances(class), listed)
}
