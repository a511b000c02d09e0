//! Tests, by the calls that they make.

ghost use Rattle.std.specs.Prelude.{◌≡◌, IfOk};

use class_model::{Copied, Memory, Name, Seq};
use program_rules::CallKind;

/// A call of a test's script: a method without arguments and without a result.
#[derive(Drop)]
pub struct Call {
    pub class: Name,
    pub method: Name,
    pub kind: CallKind,
}

/// A test: its class and method, the calls that a run of it makes, and the class of the exception
/// that is to leave it, if one is.
#[derive(Drop)]
pub struct Test {
    pub class: Name,
    pub method: Name,
    pub script: Seq<Call>,
    pub expected: Option<Name>,
}

impl Call {
    /// An equal value.
    pub fn copy(&self) -> Result<Call, Memory>
        ensures { IfOk result (λ c. c ≡ self.now) }
    {
        Ok(Call {
            class: self.class.copy()?,
            method: self.method.copy()?,
            kind: self.kind,
        })
    }
}

impl Copied for Call {
    fn copied(&self) -> Result<Call, Memory> {
        self.copy()
    }
}
