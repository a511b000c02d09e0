//! The class files of the suite.

ghost use Rattle.std.specs.Prelude.{◌≡◌, ◌<◌, ◌≤◌, IfOk};
ghost use Rattle.class_asm.specs.Assembled.{IsAssembled};
ghost use Rattle.suite_generator.specs.Stated.{StatesClass, TextsStateClasses};
ghost use Rattle.suite_generator.specs.Texts.{class_text, test_text};
ghost use Rattle.suite_generator.specs.Suite.{IsSuite};

use crate::texts::{class_text, test_text};
use class_asm::{AsmFault, assemble};
use class_model::{Bytes, Memory};
use std::alloc::Global;

/// The class files of a suite: those of the classes, and those of their tests.
#[derive(Drop)]
pub struct Suite {
    pub classes: Vec<Bytes>,
    pub tests: Vec<Bytes>,
}

/// Each of the texts of a suite states a class.
pub fn texts_state_classes()
    ensures { TextsStateClasses }
{}

// The class file of a text that states a class.
fn assembled(alloc: Global, text: &str) -> Result<Bytes, Memory>
    requires { StatesClass text.now }
    ensures { IfOk result (IsAssembled text.now) }
{
    match assemble(alloc, text.as_bytes()) {
        Ok(bytes) => Ok(bytes),
        Err(AsmFault::Memory) => Err(Memory),
        Err(AsmFault::Line { line: _ }) => unreachable!(),
    }
}

fn class_file(alloc: Global, number: u32) -> Result<Bytes, Memory>
    requires { number < 200 }
    ensures { IfOk result (IsAssembled (class_text number)) }
{
    texts_state_classes();
    let text = class_text(alloc, number)?;
    assembled(alloc, text.as_str())
}

fn test_file(alloc: Global, number: u32) -> Result<Bytes, Memory>
    requires { number < 200 }
    ensures { IfOk result (IsAssembled (test_text number)) }
{
    texts_state_classes();
    let text = test_text(alloc, number)?;
    assembled(alloc, text.as_str())
}

/// The suite of so many classes, each with its test.
pub fn made_suite(alloc: Global, count: u32) -> Result<Suite, Memory>
    requires { count ≤ 200 }
    ensures { IfOk result (IsSuite count) }
{
    let mut classes = Vec::new(alloc);
    let mut tests = Vec::new(alloc);
    for number in 0..count {
        let class = class_file(alloc, number)?;
        classes.push(class)?;
        let test = test_file(alloc, number)?;
        tests.push(test)?;
    }
    Ok(Suite { classes, tests })
}
