//! The files that a tree has read or replaced, by what they really are: one file may have several
//! paths.

use std::alloc::{AllocError, Global};
use std::collections::{BTreeMap, BTreeSet};
use std::fs::Metadata;
use std::os::unix::fs::MetadataExt;

// A file's device, and its number there.
type Number = (u64, u64);

/// The class files that were read, and the path by which each file was replaced.
#[derive(Drop)]
pub struct KnownFiles {
    alloc: Global,
    classes: BTreeSet<Number>,
    replaced: BTreeMap<Number, String>,
}

fn number_of(about: &Metadata) -> Number {
    (about.dev(), about.ino())
}

/// Whether both tell of one file.
pub fn is_same(one: &Metadata, other: &Metadata) -> bool {
    number_of(one) == number_of(other)
}

impl KnownFiles {
    /// No file was read or replaced yet.
    pub fn new(alloc: Global) -> KnownFiles {
        KnownFiles {
            alloc,
            classes: BTreeSet::new(alloc),
            replaced: BTreeMap::new(alloc),
        }
    }

    /// A file is read, as a class where its name is that of a class file.
    pub fn note_read(&mut self, path: &str, about: &Metadata) -> Result<(), AllocError> {
        if path.ends_with(".class") {
            self.classes.insert(number_of(about))?;
        }
        Ok(())
    }

    /// Whether what stands at the path may be replaced: it was not read as a class, nor replaced by
    /// another path.
    pub fn may_replace(&self, path: &str, about: &Metadata) -> bool {
        let number = number_of(about);
        let is_free = match self.replaced.get(&number) {
            Some(earlier) => earlier.as_str() == path,
            None => true,
        };
        is_free && !self.classes.contains(&number)
    }

    /// A file is in the place of what stood at the path.
    pub fn note_replaced(
        &mut self,
        path: &str,
        old: &Option<Metadata>,
        new: &Metadata,
    ) -> Result<(), AllocError> {
        if let Some(old) = old {
            self.replaced.remove(&number_of(old));
        }
        let path = String::from_str(self.alloc, path)?;
        self.replaced.insert(number_of(new), path)?;
        Ok(())
    }
}
