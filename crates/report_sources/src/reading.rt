//! The sources of a report's files, read from a folder.

ghost use Rattle.std.specs.Prelude.{◌≡◌, ◌+◌, ◌≤◌, length, map, ℕ, IfOk, IfErr};
ghost use Rattle.std.specs.Io.Iter.{u64_saturate};
ghost use Rattle.report_schema.specs.Report.{text_or_empty};
ghost use Rattle.report_sources.specs.declared.fault.SourceFault.TheVariants.{TooMany};
ghost use Rattle.report_sources.specs.Sources.{path_below, source_at, sources_of, Sums, IsHeld, Refuses, ReadsBy, Asks, Names, IsKnown};

use crate::fault::SourceFault;
use crate::listed::{path_below, set_of};
use class_model::{Bytes, Seq};
use mt_edge::{EdgeFault, Tree};
use report_pieces::{Group, text_or_empty};
use std::alloc::Global;
use std::collections::BTreeSet;

const SOURCES_LIMIT: u64 = 67_108_864;

// So many bytes and so many more, if they aren't too many.
fn sum_with(sum: u64, more: u64) -> Result<u64, SourceFault>
    ensures { Sums (u64_saturate (sum + more)) result }
{
    let total = sum.saturating_add(more);
    if total > SOURCES_LIMIT {
        return Err(SourceFault::TooMany { bytes: total });
    }
    Ok(total)
}

// A source that would be too much is refused by its length, and not read.
fn check_length<T: Tree>(tree: &mut T, sum: u64, path: &str) -> Result<(), SourceFault>
    ensures refused { IfErr result (Refuses (T.holds tree.old) (source_at sum path.now)) }
    ensures tree { Asks T.holds T.writing T.reading tree.old tree.new result }
{
    match tree.length(path) {
        Ok(Some(length)) => {
            sum_with(sum, length)?;
            Ok(())
        }
        Ok(None) => Ok(()),
        Err(EdgeFault::Failed) => Err(SourceFault::Failed),
        Err(EdgeFault::Memory) => Err(SourceFault::Memory),
    }
}

// What a path holds, nothing where it isn't held.
fn read_whole<T: Tree>(alloc: Global, tree: &mut T, path: &str) -> Result<Bytes, SourceFault>
    ensures value { IfOk result (IsHeld (T.holds tree.old) path.now) }
    ensures refused { IfErr result (λ fault. (sum : ℕ) → fault ≡ TooMany sum → ⊥) }
    ensures tree { Asks T.holds T.writing T.reading tree.old tree.new result }
{
    match tree.read(path) {
        Ok(Some(source)) => Ok(source),
        Ok(None) => Ok(Bytes::new(alloc)),
        Err(EdgeFault::Failed) => Err(SourceFault::Failed),
        Err(EdgeFault::Memory) => Err(SourceFault::Memory),
    }
}

// A source, where so many bytes were read before. One that is too much is refused by its length,
// and tested once more as it was read.
fn read_held<T: Tree>(
    alloc: Global,
    tree: &mut T,
    sum: u64,
    path: &str,
) -> Result<Bytes, SourceFault>
    ensures value { ReadsBy (T.holds tree.old) (source_at sum path.now) result }
    ensures few { IfOk result (λ source. sum + length source ≤ 67108864) }
    ensures tree { Asks T.holds T.writing T.reading tree.old tree.new result }
{
    check_length(tree, sum, path)?;
    let source = read_whole(alloc, tree, path)?;
    sum_with(sum, source.len() as u64)?;
    Ok(source)
}

// The same of a path that is read only where it is listed.
fn read_listed<T: Tree>(
    alloc: Global,
    tree: &mut T,
    sum: u64,
    listed: &BTreeSet<String>,
    path: &str,
) -> Result<Bytes, SourceFault>
    requires few { sum ≤ 67108864 }
    requires known { IsKnown (T.holds tree.old) listed.now path.now }
    ensures value { ReadsBy (T.holds tree.old) (source_at sum path.now) result }
    ensures few { IfOk result (λ source. sum + length source ≤ 67108864) }
    ensures tree { Asks T.holds T.writing T.reading tree.old tree.new result }
{
    if listed.contains(path) {
        read_held(alloc, tree, sum, path)
    } else {
        Ok(Bytes::new(alloc))
    }
}

// The source of a key.
fn read_source<T: Tree>(
    alloc: Global,
    tree: &mut T,
    sum: u64,
    listed: &BTreeSet<String>,
    folder: &str,
    key: &str,
) -> Result<Bytes, SourceFault>
    requires few { sum ≤ 67108864 }
    requires names { Names (T.holds tree.old) folder.now listed.now }
    ensures value { ReadsBy (T.holds tree.old)
        (source_at sum (path_below folder.now key.now)) result }
    ensures few { IfOk result (λ source. sum + length source ≤ 67108864) }
    ensures tree { Asks T.holds T.writing T.reading tree.old tree.new result }
{
    let path = path_below(alloc, folder, key)?;
    read_listed(alloc, tree, sum, listed, path.as_str())
}

// The sources of files.
fn read_all<T: Tree>(
    alloc: Global,
    tree: &mut T,
    listed: &BTreeSet<String>,
    folder: &str,
    groups: &[Group],
) -> Result<Seq<Bytes>, SourceFault>
    requires { Names (T.holds tree.old) folder.now listed.now }
    ensures value { ReadsBy (T.holds tree.old) (sources_of folder.now groups.now) result }
    ensures tree { Asks T.holds T.writing T.reading tree.old tree.new result }
{
    let mut sum = 0u64;
    let mut sources = Seq::new(alloc);
    for group in groups {
        let key = text_or_empty(group.key.as_slice());
        let source = read_source(alloc, tree, sum, listed, folder, key)?;
        sum += source.len() as u64;
        sources.push(source)?;
    }
    Ok(sources)
}

// The paths below a folder, as a set.
fn list_folder<T: Tree>(
    alloc: Global,
    tree: &mut T,
    folder: &str,
) -> Result<BTreeSet<String>, SourceFault>
    ensures names { IfOk result (Names (T.holds tree.old) folder.now) }
    ensures refused { IfErr result (λ fault. (sum : ℕ) → fault ≡ TooMany sum → ⊥) }
    ensures tree { Asks T.holds T.writing T.reading tree.old tree.new result }
{
    match tree.list(folder) {
        Ok(paths) => Ok(set_of(alloc, paths)?),
        Err(EdgeFault::Failed) => Err(SourceFault::Failed),
        Err(EdgeFault::Memory) => Err(SourceFault::Memory),
    }
}

/// The source of each file of a report, read from a folder: what the folder holds at the file's
/// key, and nothing where the folder's listing doesn't name it, so that nothing outside of the
/// folder is read, whatever a key says. They are refused as `TooMany` exactly where they have more
/// than 67,108,864 bytes.
pub fn read_sources<T: Tree>(
    alloc: Global,
    tree: &mut T,
    folder: &str,
    groups: &[Group],
) -> Result<Seq<Bytes>, SourceFault>
    ensures value { ReadsBy (T.holds tree.old) (sources_of folder.now groups.now) result }
    ensures tree { Asks T.holds T.writing T.reading tree.old tree.new result }
{
    let listed = list_folder(alloc, tree, folder)?;
    read_all(alloc, tree, &listed, folder, groups)
}
