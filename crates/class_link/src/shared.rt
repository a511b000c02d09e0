//! A value that is kept once and named from many places.

ghost use Rattle.std.specs.Prelude.{◌≡◌, IfOk};

use class_model::{Copied, Memory};
use std::alloc::Global;
use std::marker::Model;
use std::ops::Deref;
use std::sync::Arc;

/// A value that is kept once, however many places name it. Contracts see the value.
#[derive(Drop)]
pub struct Shared<T> {
    kept: Arc<T, Global>,
}

impl<T> Model for Shared<T> {
    ghost Value = { T };

    ghost coded = { T.code };

    ghost view = { λ s. s.kept.value };
}

impl<T: Drop> Shared<T> {
    pub fn new(alloc: Global, value: T) -> Result<Shared<T>, Memory>
        ensures { IfOk result (λ s. s ≡ value) }
    {
        Ok(Shared {
            kept: Arc::new(alloc, value)?,
        })
    }

    /// The same value. It takes no memory, which no clause says.
    pub fn share(&self) -> Result<Shared<T>, Memory>
        ensures { IfOk result (λ s. s ≡ self.now) }
    {
        Ok(Shared {
            kept: self.kept.clone()?,
        })
    }
}

impl<T> Deref for Shared<T> {
    type Target = T;

    ghost deref_gives = { λ s v. v ≡ s };

    fn deref(&self) -> &T {
        &self.kept
    }
}

impl<T: Drop> Copied for Shared<T> {
    fn copied(&self) -> Result<Shared<T>, Memory> {
        self.share()
    }
}
