//! The paths that a listing of a folder names.

ghost use Rattle.std.specs.Prelude.{◌≡◌, ◌||◌, ℕ, List, map, IfOk, OnOk, string_bytes};
ghost use Rattle.std.specs.BTreeSet.{contains_text};
ghost use Rattle.std.specs.List.{list_any};
ghost use Rattle.std.specs.Str.{bytes_eq};
ghost use Rattle.report_sources.specs.Sources.{path_below};

use class_model::Memory;
use std::alloc::Global;
use std::collections::BTreeSet;

// Adds a path.
fn insert_path(set: &mut BTreeSet<String>, path: String) -> Result<(), Memory>
    ensures { OnOk result (
        (q : List ℕ) →
        contains_text set.new q ≡ (contains_text set.old q || bytes_eq q (string_bytes path))) }
{
    set.insert(path)?;
    Ok(())
}

/// Paths as a set.
pub fn set_of(alloc: Global, paths: Vec<String>) -> Result<BTreeSet<String>, Memory>
    ensures { IfOk result (λ set.
        (q : List ℕ) →
        contains_text set q ≡ list_any (bytes_eq q) (map string_bytes paths.items)) }
{
    let mut set = BTreeSet::new(alloc);
    for path in paths {
        insert_path(&mut set, path)?;
    }
    Ok(set)
}

/// The path of a key below a folder.
pub fn path_below(alloc: Global, folder: &str, key: &str) -> Result<String, Memory>
    ensures { IfOk result (λ path. string_bytes path ≡ path_below folder.now key.now) }
{
    let mut path = String::from_str(alloc, folder)?;
    path.push_str("/")?;
    path.push_str(key)?;
    Ok(path)
}
