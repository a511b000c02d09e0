//! The traits of what holds bytes outside. A call that fails says so only where a count of faults rose, so that
//! a caller can tell a real fault from an answer that was made up.
ghost use Rattle.std.specs.Prelude.{◌≡◌, ◌≤◌, List, ℕ, OnOk, OnErr, Option};
ghost use Rattle.mt_edge.specs.Answered.{ListsBelow, TellsLength, ReadsAt, IsReplaced, OldOrReplaced};
ghost use Rattle.mt_edge.specs.Causes.{HasCause};
ghost use Rattle.mt_edge.specs.Files.{Files};
ghost use Rattle.mt_edge.specs.Keeping.{LoadsAll, IsAllDurable};
ghost use Rattle.mt_edge.specs.Pieces.{Grows, GrowsBy};
ghost use Rattle.mt_edge.specs.declared.outside.EdgeFault.TheVariants.{Memory as NoMemory};

use class_model::{Bytes, Memory};
use std::alloc::{AllocError, AllocFailed};
use thiserror::Error;

/// Why a call to the outside gave nothing.
#[derive(Clone, Copy, Debug, Error)]
pub enum EdgeFault {
    /// The object failed, and its count of faults of this kind rose.
    #[error("the call failed")]
    Failed,
    /// Memory has run out.
    #[error("out of memory")]
    Memory,
}

impl From<Memory> for EdgeFault {
    ghost from_gives = { λ _ e. e ≡ NoMemory };

    fn from(_: Memory) -> Self {
        EdgeFault::Memory
    }
}

impl From<AllocError> for EdgeFault {
    ghost from_gives = { λ _ e. e ≡ NoMemory };

    fn from(_: AllocError) -> Self {
        EdgeFault::Memory
    }
}

impl<T: Drop> From<AllocFailed<T>> for EdgeFault {
    ghost from_gives = { λ _ e. e ≡ NoMemory };

    fn from(_: AllocFailed<T>) -> Self {
        EdgeFault::Memory
    }
}

/// A tree of files. Only `replace` changes what it holds.
pub trait Tree {
    /// The files by path, where the tree tells them.
    ghost holds: { Self → Option Files };

    /// How many calls of `list`, `length` and `read` have failed; it stays at 2^64 - 1.
    ghost reading: { Self → ℕ };

    /// How many calls of `replace` have failed; it stays at 2^64 - 1.
    ghost writing: { Self → ℕ };

    /// The paths of all files below the folder, in byte order, each beginning with the folder and
    /// `/`.
    fn list(&mut self, folder: &str) -> Result<Vec<String>, EdgeFault>
        ensures names { ListsBelow folder.now (holds self.old) result }
        ensures same { holds self.new ≡ holds self.old }
        ensures cause { HasCause (reading self.old) (reading self.new) result }
        ensures other { writing self.new ≡ writing self.old };

    /// How many bytes the path holds, or None where nothing is held there.
    fn length(&mut self, path: &str) -> Result<Option<u64>, EdgeFault>
        ensures length { TellsLength path.now (holds self.old) result }
        ensures same { holds self.new ≡ holds self.old }
        ensures cause { HasCause (reading self.old) (reading self.new) result }
        ensures other { writing self.new ≡ writing self.old };

    /// The bytes at the path, or None where nothing is held there.
    fn read(&mut self, path: &str) -> Result<Option<Bytes>, EdgeFault>
        ensures bytes { ReadsAt path.now (holds self.old) result }
        ensures same { holds self.new ≡ holds self.old }
        ensures cause { HasCause (reading self.old) (reading self.new) result }
        ensures other { writing self.new ≡ writing self.old };

    /// Puts the bytes in the place of what the path held; after an error the path holds the old or
    /// the new bytes.
    fn replace(&mut self, path: &str, bytes: &[u8]) -> Result<(), EdgeFault>
        ensures ok { OnOk result (IsReplaced path.now bytes.now (holds self.old) (holds self.new)) }
        ensures err { OnErr result
            (OldOrReplaced path.now bytes.now (holds self.old) (holds self.new)) }
        ensures cause { HasCause (writing self.old) (writing self.new) result }
        ensures other { reading self.new ≡ reading self.old };
}

/// A sink of bytes.
pub trait Sink {
    /// The bytes that were put, where the sink tells them.
    ghost written: { Self → Option (List ℕ) };

    /// How many calls of `put` have failed; it stays at 2^64 - 1.
    ghost faults: { Self → ℕ };

    /// Appends the piece; after an error a beginning of it was appended.
    fn put(&mut self, bytes: &[u8]) -> Result<(), EdgeFault>
        ensures ok { OnOk result (Grows (written self.old) (written self.new) bytes.now) }
        ensures err { OnErr result (GrowsBy (written self.old) (written self.new) bytes.now) }
        ensures cause { HasCause (faults self.old) (faults self.new) result };
}

/// A keeper of bytes, which only grow. A stop of the program at any moment leaves a beginning of
/// what was kept and appended, at least as long as what is durable.
pub trait Keeper {
    /// The bytes that are kept, where the keeper tells them.
    ghost kept: { Self → Option (List ℕ) };

    /// How many of them a stop leaves.
    ghost durable: { Self → ℕ };

    /// How many calls of `load` have failed; it stays at 2^64 - 1.
    ghost reading: { Self → ℕ };

    /// How many calls of `append` and `sync` have failed; it stays at 2^64 - 1.
    ghost writing: { Self → ℕ };

    /// All bytes that are kept.
    fn load(&mut self) -> Result<Bytes, EdgeFault>
        ensures bytes { LoadsAll (kept self.old) result }
        ensures same { kept self.new ≡ kept self.old }
        ensures durable { durable self.new ≡ durable self.old }
        ensures cause { HasCause (reading self.old) (reading self.new) result }
        ensures other { writing self.new ≡ writing self.old };

    /// Keeps the piece behind all others; after an error a beginning of it was appended.
    fn append(&mut self, piece: &[u8]) -> Result<(), EdgeFault>
        ensures ok { OnOk result (Grows (kept self.old) (kept self.new) piece.now) }
        ensures err { OnErr result (GrowsBy (kept self.old) (kept self.new) piece.now) }
        ensures durable { durable self.old ≤ durable self.new }
        ensures cause { HasCause (writing self.old) (writing self.new) result }
        ensures other { reading self.new ≡ reading self.old };

    /// Makes durable all that is kept.
    fn sync(&mut self) -> Result<(), EdgeFault>
        ensures ok { OnOk result (IsAllDurable (kept self.new) (durable self.new)) }
        ensures same { kept self.new ≡ kept self.old }
        ensures durable { durable self.old ≤ durable self.new }
        ensures cause { HasCause (writing self.old) (writing self.new) result }
        ensures other { reading self.new ≡ reading self.old };
}
