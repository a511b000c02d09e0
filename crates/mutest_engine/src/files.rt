//! A class file that is held: its bytes within the limit, and the class that they spell.

ghost use Rattle.std.specs.Prelude.{◌≡◌, ℕ, List, IfOk, IfErr};
ghost use Rattle.class_reader.specs.Spells.{Spells};
ghost use Rattle.mutest_engine.specs.Answers.{refuse_long_file, within_limit as within, file_of, spelled_class};
ghost use Rattle.mutest_engine.specs.Refusals.{IsClassFault, IsLoading, IsOfFile, IsUnheld};
ghost use Rattle.mutest_engine.specs.SuiteFiles.{IsSpelled};
ghost use Rattle.mutest_engine.specs.Steps.{Asks, Gives, ReadsHeld, HaltsHeld, Refuses, RefusesReading};
ghost use Rattle.mutest_engine.specs.declared.refusal.Refusal.TheVariants.{NotFound, BadClass};
ghost use Rattle.mutest_engine.specs.declared.stop.Halt.TheVariants.{ReadFault};

use crate::refusal::{Limit, Refusal};
use crate::stop::{Halt, Stop};
use class_model::{Bytes, Class, ClassFault};
use class_reader::read_class;
use class_writer::what_is_spelled_is_written;
use mt_edge::{EdgeFault, Tree};
use std::alloc::Global;

const CLASS_LIMIT: u64 = 4_194_304;

// Refuses a file of so many bytes where they are past the limit.
fn refuse_long_file(length: u64) -> Result<(), Refusal>
    ensures value { result ≡ refuse_long_file length }
    ensures refusal { IfErr result (λ r. (path : List ℕ) → IsUnheld path r) }
{
    if length > CLASS_LIMIT {
        return Err(Refusal::TooMany {
            limit: Limit::Class,
            number: length,
        });
    }
    Ok(())
}

// A file within the limit.
fn within_limit(bytes: Bytes) -> Result<Bytes, Refusal>
    ensures value { result ≡ within bytes }
    ensures refusal { IfErr result (λ r. (path : List ℕ) → IsUnheld path r) }
{
    match refuse_long_file(bytes.len() as u64) {
        Ok(()) => Ok(bytes),
        Err(refusal) => Err(refusal),
    }
}

/// Nothing is held at a path, or below it.
pub fn not_found(alloc: Global, path: &str) -> Halt
    ensures refusal { RefusesReading (λ r. r ≡ NotFound path.now) result }
    ensures unread { (faults : ℕ) → result ≡ ReadFault faults → ⊥ }
{
    match Bytes::from_slice(alloc, path.as_bytes()) {
        Ok(path) => Halt::Refused(Refusal::NotFound { path }),
        Err(_) => Halt::WantOfMemory,
    }
}

// A file that isn't held or is past the limit is refused by its length, and not read.
fn check_length<T: Tree>(alloc: Global, tree: &mut T, path: &str) -> Result<(), Halt>
    ensures refused { IfErr result (HaltsHeld (T.holds tree.old) (file_of path.now)) }
    ensures tree { Asks T.holds T.writing T.reading (IsUnheld path.now) tree.old tree.new result }
{
    match tree.length(path) {
        Ok(Some(length)) => Ok(refuse_long_file(length)?),
        Ok(None) => Err(not_found(alloc, path)),
        Err(EdgeFault::Failed) => Err(Halt::ReadFault { faults: 1 }),
        Err(EdgeFault::Memory) => Err(Halt::WantOfMemory),
    }
}

// The bytes of a file, which are refused past the limit.
fn read_whole<T: Tree>(alloc: Global, tree: &mut T, path: &str) -> Result<Bytes, Halt>
    ensures value { ReadsHeld (T.holds tree.old) (file_of path.now) result }
    ensures tree { Asks T.holds T.writing T.reading (IsUnheld path.now) tree.old tree.new result }
{
    match tree.read(path) {
        Ok(Some(bytes)) => Ok(within_limit(bytes)?),
        Ok(None) => Err(not_found(alloc, path)),
        Err(EdgeFault::Failed) => Err(Halt::ReadFault { faults: 1 }),
        Err(EdgeFault::Memory) => Err(Halt::WantOfMemory),
    }
}

/// The bytes of a file. Its length is asked first, so that none is read whole that is past the
/// limit.
pub fn read_file<T: Tree>(alloc: Global, tree: &mut T, path: &str) -> Result<Bytes, Halt>
    ensures value { ReadsHeld (T.holds tree.old) (file_of path.now) result }
    ensures tree { Asks T.holds T.writing T.reading (IsUnheld path.now) tree.old tree.new result }
{
    match check_length(alloc, tree, path) {
        Ok(()) => read_whole(alloc, tree, path),
        Err(halt) => Err(halt),
    }
}

// How a fault of a file is refused.
fn bad_class(alloc: Global, path: &[u8], fault: ClassFault) -> Stop
    ensures { Refuses (λ r. (r ≡ BadClass path.now fault) × IsClassFault fault) result }
{
    let Ok(path) = Bytes::from_slice(alloc, path) else {
        return Stop::WantOfMemory;
    };
    match fault {
        ClassFault::Memory => Stop::WantOfMemory,
        fault => Stop::Refused(Refusal::BadClass { path, fault }),
    }
}

/// The class of a file.
pub fn spelled_class(alloc: Global, path: &[u8], bytes: &[u8]) -> Result<Class, Stop>
    ensures value { Gives (spelled_class path.now bytes.now) result }
    ensures text { IfOk result (Spells bytes.now) }
    ensures form { IfOk result IsSpelled }
    ensures refusal { IfErr result (Refuses (λ r. IsOfFile path.now r × IsLoading r)) }
{
    what_is_spelled_is_written();
    match read_class(alloc, bytes) {
        Ok(class) => Ok(class),
        Err(fault) => Err(bad_class(alloc, path, fault)),
    }
}
