ghost use Rattle.std.specs.Prelude.{◌≡◌, IfOk};

use crate::memory::Memory;
use std::alloc::Global;
use std::marker::Model;

/// A value that takes one word where it stands, for what few of many have: so an instruction that
/// is no switch isn't as large as one that is. Contracts see it as the value.
#[derive(Drop)]
pub struct Boxed<T> {
    value: Box<T>,
}

impl<T> Model for Boxed<T> {
    ghost Value = { T };

    ghost coded = { T.code };

    ghost view = { λ b. b.value.value };
}

impl<T> Boxed<T> {
    pub fn new(alloc: Global, value: T) -> Result<Boxed<T>, Memory>
    where
        T: Drop,
        ensures { IfOk result (λ b. b ≡ value) }
    {
        let value = Box::new(alloc, value)?;
        Ok(Boxed { value })
    }

    pub fn get(&self) -> &T
        ensures { result.now ≡ self.now }
    {
        &self.value
    }
}
