//! What the annotations of a method make of it.

ghost use Rattle.std.specs.Prelude.{◌≡◌};
ghost use Rattle.test_discovery.specs.Annotations.{is_of_instance, is_of_class, is_marked};
ghost use Rattle.test_discovery.specs.Scripts.{has_part, kind_of};

use crate::expected::Expected;
use class_table::CallKind;

/// The parts that a method plays in a test, and the exception that is to leave it.
#[derive(Drop)]
pub struct Marks {
    /// A test method that isn't ignored.
    pub test: bool,
    pub before: bool,
    pub after: bool,
    pub before_all: bool,
    pub after_all: bool,
    pub expected: Option<Expected>,
}

/// A part around a test or around all tests of a class.
#[derive(Clone, Copy)]
pub enum Part {
    Before,
    After,
    BeforeAll,
    AfterAll,
}

impl Marks {
    /// It runs with the instance of a test.
    pub fn is_of_instance(&self) -> bool
        ensures { result ≡ is_of_instance self.now }
    {
        self.test || self.before || self.after
    }

    /// It runs around the tests of the class, without an instance.
    pub fn is_of_class(&self) -> bool
        ensures { result ≡ is_of_class self.now }
    {
        self.before_all || self.after_all
    }

    /// It plays a part in a test.
    pub fn is_marked(&self) -> bool
        ensures { result ≡ is_marked self.now }
    {
        self.is_of_instance() || self.is_of_class()
    }

    /// The annotations give the method this part.
    pub fn has_part(&self, part: Part) -> bool
        ensures { result ≡ has_part part self.now }
    {
        match part {
            Part::Before => self.before,
            Part::After => self.after,
            Part::BeforeAll => self.before_all,
            Part::AfterAll => self.after_all,
        }
    }
}

/// How a method of this part is called.
pub fn kind_of(part: Part) -> CallKind
    ensures { result ≡ kind_of part }
{
    match part {
        Part::Before | Part::After => CallKind::Around,
        Part::BeforeAll | Part::AfterAll => CallKind::ClassWide,
    }
}
