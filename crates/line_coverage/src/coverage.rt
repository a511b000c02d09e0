//! Which tests reach a line of a class.

ghost use Rattle.std.specs.Prelude.{◌≡◌, ◌<◌, ◌+◌, ◌^◌, [], length, OnOk, OnErr};
ghost use Rattle.std.specs.Io.Iter.{u64_saturate};
ghost use Rattle.line_coverage.specs.Coverage.{AddsRun, AddsTestsAt, Covers, KeepsRuns};
ghost use Rattle.line_coverage.specs.Coverage.{reaches, tests_at};

use crate::lines::{Lines, add_lines, words_at};
use crate::tests::{count_tests, push_tests};
use crate::words::has_test;
use class_model::{ClassId, Memory};
use std::alloc::Global;
use std::collections::HashMap;
use std::marker::Model;

/// Which tests reach a line of a class, by the runs of the tests. Contracts see how many tests
/// there are, and the words of each line.
#[derive(Drop)]
pub struct Coverage {
    tests: usize,
    lines: Lines,
}

impl Model for Coverage {
    ghost use Rattle.line_coverage.specs.Coverage.{Covered, HasNoMore, covered};

    ghost Value = { Covered };

    ghost view = { λ c. covered c.tests c.lines };

    ghost invariant = { λ c. HasNoMore (covered c.tests c.lines) };
}

impl Coverage {
    /// No test was run.
    pub fn new(alloc: Global) -> Coverage
        ensures { Covers [] result }
    {
        Coverage {
            tests: 0,
            lines: HashMap::new(alloc),
        }
    }

    /// Adds the run of the next test, by the lines that it reached. Where memory runs out the run
    /// counts, with some of its lines.
    pub fn add_run(&mut self, reached: &[(ClassId, u16)]) -> Result<(), Memory>
        requires { self.old.tests + 1 < 2 ^ 64 }
        ensures ok { OnOk result (AddsRun reached.now self.old self.new) }
        ensures err { OnErr result (KeepsRuns self.old self.new) }
    {
        let test = self.tests;
        self.tests += 1;
        add_lines(&mut self.lines, reached, test)?;
        Ok(())
    }

    /// Whether a test reaches a line of a class.
    pub fn reaches(&self, class: ClassId, line: u16, test: usize) -> bool
        ensures { result ≡ reaches self.now class.0 line test }
    {
        has_test(words_at(&self.lines, (class.0, line)), test)
    }

    /// How many tests reach a line of a class. The count stays at 2^64 - 1.
    pub fn count_at(&self, class: ClassId, line: u16) -> u64
        ensures { result ≡ u64_saturate (length (tests_at self.now class.0 line)) }
    {
        count_tests(words_at(&self.lines, (class.0, line)))
    }

    /// Adds the tests that reach a line of a class, in their order.
    pub fn push_tests(&self, class: ClassId, line: u16, tests: &mut Vec<u32>) -> Result<(), Memory>
        requires { self.now.tests < 2 ^ 32 }
        ensures { OnOk result (AddsTestsAt self.now class.0 line tests.old.items tests.new.items) }
    {
        push_tests(words_at(&self.lines, (class.0, line)), tests)
    }
}
