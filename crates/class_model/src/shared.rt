ghost use Rattle.std.specs.Prelude.{◌≡◌, IfOk};

use crate::copies::Copied;
use crate::list::Bytes;
use crate::memory::Memory;
use std::alloc::Global;
use std::marker::Model;
use std::sync::Arc;

/// Bytes that many records may name, such as one class file. Contracts see them as the list.
#[derive(Drop)]
pub struct SharedBytes {
    bytes: Arc<Bytes, Global>,
}

impl Model for SharedBytes {
    ghost use Rattle.std.specs.Prelude.{List, ℕ};

    ghost Value = { List ℕ };

    ghost view = { λ s. s.bytes.value };
}

impl SharedBytes {
    pub fn new(alloc: Global, bytes: Bytes) -> Result<SharedBytes, Memory>
        ensures { IfOk result (λ s. s ≡ bytes) }
    {
        Ok(SharedBytes {
            bytes: Arc::new(alloc, bytes)?,
        })
    }

    /// The same bytes. No clause says that memory is shared, though it is.
    pub fn copy(&self) -> Result<SharedBytes, Memory>
        ensures { IfOk result (λ s. s ≡ self.now) }
    {
        Ok(SharedBytes {
            bytes: self.bytes.clone()?,
        })
    }

    pub fn as_slice(&self) -> &[u8]
        ensures { result.now ≡ self.now }
    {
        self.bytes.as_slice()
    }
}

impl Copied for SharedBytes {
    fn copied(&self) -> Result<SharedBytes, Memory> {
        self.copy()
    }
}
