//! What is kept of a journal to add records to it.

ghost use Rattle.std.specs.Prelude.{◌≡◌, [], IfOk};
ghost use Rattle.history_rules.specs.Laws.{IsFormed};

use crate::adding::{put_classes, record_content};
use crate::numbers::ClassNumbers;
use class_model::{Bytes, Memory};
use record_rules::RunRecord;
use run_journal::put_entry;
use std::alloc::Global;
use std::collections::BTreeMap;

/// The numbers of a journal's classes, and the contents of the entries of the records that were added
/// to it.
#[derive(Drop)]
pub struct Tables {
    pub numbers: ClassNumbers,
    pub contents: BTreeMap<Vec<u8>, ()>,
}

impl Tables {
    ghost use Rattle.job_journal.specs.Tables.{IsTables, Adds};

    /// Those of a journal with these classes, to which no record was added.
    pub fn new(alloc: Global, numbers: ClassNumbers) -> Tables
        ensures tables { IsTables result [] }
        ensures numbers { result.numbers ≡ numbers }
    {
        Tables {
            numbers,
            contents: BTreeMap::new(alloc),
        }
    }

    /// What a journal gains where a record is added to it; nothing where it was added before. On want
    /// of memory the tables may not be used again.
    pub fn add(&mut self, alloc: Global, r: &RunRecord) -> Result<Option<Bytes>, Memory>
        requires { IsFormed r.now }
        ensures { IfOk result (Adds r.now self.old self.new) }
    {
        let mut piece = Bytes::new(alloc);
        let entries = r.consulted.as_slice();
        put_classes(alloc, &mut self.numbers, entries, &mut piece)?;
        // what their number is, for the prover alone
        let _count = self.numbers.len();
        let content = record_content(alloc, &self.numbers, r)?;
        let bytes = content.as_slice();
        if self.contents.contains_key(bytes) {
            return Ok(None);
        }
        put_entry(bytes, &mut piece)?;
        let key = content.into_vec();
        self.contents.insert(key, ())?;
        Ok(Some(piece))
    }
}
