//! Whether slices of a file differ.

ghost use Rattle.std.specs.Prelude.{◌≡◌, ℕ, List, [], ◌∷◌, not, IfOk};
ghost use Rattle.program_rules.specs.Names.{is_listed};
ghost use Rattle.history_file.specs.Texts.{HasSlices};

use class_model::Memory;
use std::alloc::Global;
use std::collections::BTreeMap;

/// Slices of a file, each once. A question costs the logarithm of their number times the length of
/// the slice that is asked about, whatever the others are.
#[derive(Drop)]
pub struct Slices<'a> {
    seen: BTreeMap<&'a [u8], ()>,
}

impl<'a> Slices<'a> {
    /// None is there yet.
    pub fn new(alloc: Global) -> Slices<'a>
        ensures { HasSlices result [] }
    {
        Slices {
            seen: BTreeMap::new(alloc),
        }
    }

    /// Adds a slice, and tells whether it is new.
    pub fn insert(&mut self, slice: &'a [u8]) -> Result<bool, Memory>
        ensures { IfOk result (λ fresh. (xs : List (List ℕ)) → HasSlices self.old xs
            → (fresh ≡ not (is_listed slice.now xs)) × HasSlices self.new (slice.now ∷ xs)) }
    {
        let old = self.seen.insert(slice, ())?;
        Ok(old.is_none())
    }
}
