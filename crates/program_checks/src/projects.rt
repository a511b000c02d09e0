use crate::classes::{FIVE_BASE, FIVE_OLD, FIVE_TEST, FOUR_BASE, FOUR_OLD, FOUR_TEST};
use crate::printed::{program, tests_text};
use class_table::Program;
use std::alloc::Global;
use std::test::Fail;

// What stands around each test of both projects, as JUnit runs it.
const STARTS: &'static str = "shop/CartTest.starts
  class shop/CartBase.open
  make shop/CartTest.<init>
  around shop/CartBase.fill
  around shop/CartTest.add
  test shop/CartBase.starts
  around shop/CartTest.clear
  around shop/CartBase.empty
  class shop/CartTest.close
";

const REFUSES: &'static str = "shop/CartTest.refuses expects java/lang/IllegalStateException
  class shop/CartBase.open
  make shop/CartTest.<init>
  around shop/CartBase.fill
  around shop/CartTest.add
  test shop/CartTest.refuses
  around shop/CartTest.clear
  around shop/CartBase.empty
  class shop/CartTest.close
";

const TOTAL: &'static str = "shop/CartTest.total
  class shop/CartBase.open
  make shop/CartTest.<init>
  around shop/CartBase.fill
  around shop/CartTest.add
  test shop/CartTest.total
  around shop/CartTest.clear
  around shop/CartBase.empty
  class shop/CartTest.close
";

const REDECLARED: &'static str = "shop/CartTest.redeclared
  class shop/CartBase.open
  make shop/CartTest.<init>
  around shop/CartBase.fill
  around shop/CartTest.add
  test shop/CartTest.redeclared
  around shop/CartTest.clear
  around shop/CartBase.empty
  class shop/CartTest.close
";

fn are(text: &[u8], pieces: &[&str]) -> bool {
    let mut rest = text;
    for piece in pieces {
        match rest.strip_prefix(piece.as_bytes()) {
            Some(more) => rest = more,
            None => return false,
        }
    }
    rest.is_empty()
}

fn four(alloc: Global) -> Result<Program, Fail> {
    program(
        alloc,
        &[
            FOUR_OLD.as_slice(),
            FOUR_TEST.as_slice(),
            FOUR_BASE.as_slice(),
        ],
    )
}

fn are_of_four(text: &[u8]) -> bool {
    are(text, &[STARTS, REFUSES, TOTAL, REDECLARED])
}

fn five(alloc: Global) -> Result<Program, Fail> {
    program(
        alloc,
        &[
            FIVE_OLD.as_slice(),
            FIVE_TEST.as_slice(),
            FIVE_BASE.as_slice(),
        ],
    )
}

fn are_of_five(text: &[u8]) -> bool {
    are(text, &[STARTS, TOTAL])
}

#[test]
fn tests_of_a_project_are_those_that_junit_runs(rt: HostRuntime) -> Result<(), Fail> {
    let four = four(rt.alloc())?;
    let found = tests_text(rt.alloc(), &four, &[0, 1, 2])?;
    assert!(rt; are_of_four(found.as_slice()));
    let five = five(rt.alloc())?;
    let found = tests_text(rt.alloc(), &five, &[2, 1, 0, 1])?;
    assert!(rt; are_of_five(found.as_slice()));
    // the superclass is no test class, and without it in the search nothing changes
    assert!(rt; tests_text(rt.alloc(), &four, &[0, 2])?.is_empty());
    assert!(rt; are_of_five(tests_text(rt.alloc(), &five, &[1])?.as_slice()));
    Ok(())
}
