ghost use Rattle.std.specs.Prelude.{◌≡◌, ◌↔◌, ◌++◌, ◌∷◌, [], IfOk, OnOk, OnErr, IsErr, IsErrOf, IsTrue, string_bytes};
ghost use Rattle.std.specs.FinMap.{get};
ghost use Rattle.mt_edge.specs.Answered.{ListsBelow, TellsLength, ReadsAt, IsReplaced, OldOrReplaced, NamesWith, LendsAt};
ghost use Rattle.mt_edge.specs.Causes.{HasCause};
ghost use Rattle.mt_edge.specs.Files.{length_at, slash};
ghost use Rattle.mt_edge.specs.Held.{files_of, files_in, fails, first_call, after_call};
ghost use Rattle.mt_edge.specs.declared.outside.EdgeFault.TheVariants.{Failed};

use crate::outside::{EdgeFault, Tree};
use crate::script::CallScript;
use class_model::{Bytes, Memory};
use std::alloc::Global;
use std::collections::BTreeMap;

/// A tree in memory, which fails at the calls that it is told to.
#[derive(Drop)]
pub struct MemTree {
    alloc: Global,
    files: BTreeMap<String, Bytes>,
    script: CallScript,
    reading: u64,
    writing: u64,
}

// The keys that begin with the prefix.
fn names(
    alloc: Global,
    files: &BTreeMap<String, Bytes>,
    prefix: &[u8],
) -> Result<Vec<String>, Memory>
    ensures { IfOk result (NamesWith prefix.now (files_of files.now)) }
{
    let mut found = Vec::new(alloc);
    for key in files.keys() {
        if key.as_bytes().starts_with(prefix) {
            found.push(key.clone()?)?;
        }
    }
    Ok(found)
}

// The folder with a slash behind it.
fn with_slash(alloc: Global, folder: &str) -> Result<String, Memory>
    ensures { IfOk result (λ s. string_bytes s ≡ folder.now ++ slash ∷ []) }
{
    let mut prefix = String::from_str(alloc, folder)?;
    prefix.push('/')?;
    Ok(prefix)
}

fn length_at(files: &BTreeMap<String, Bytes>, path: &str) -> Option<u64>
    ensures { result ≡ length_at path.now (files_of files.now) }
{
    match files.get(path) {
        Some(bytes) => Some(bytes.len() as u64),
        None => None,
    }
}

fn found(files: &BTreeMap<String, Bytes>, path: &str) -> Result<Option<Bytes>, Memory>
    ensures { IfOk result (λ found. found ≡ get (files_of files.now) path.now) }
{
    match files.get(path) {
        Some(bytes) => Ok(Some(bytes.copy()?)),
        None => Ok(None),
    }
}

fn copied(alloc: Global, bytes: &[u8]) -> Result<Bytes, Memory>
    ensures { IfOk result (λ copy. copy ≡ bytes.now) }
{
    let mut copy = Bytes::new(alloc);
    copy.extend_from_slice(bytes)?;
    Ok(copy)
}

impl MemTree {
    ghost use Rattle.mt_edge.specs.Shown.{tree_files, tree_script};

    /// A tree of these files; of two at one path the later counts. `failing` has the numbers of the
    /// calls of `list`, `read` and `replace`, counted from 0, that are to fail.
    pub fn new(
        alloc: Global,
        files: Vec<(String, Bytes)>,
        failing: Vec<u64>,
    ) -> Result<MemTree, EdgeFault>
        ensures holds { IfOk result (λ t. tree_files t ≡ files_in files.items) }
        ensures script { IfOk result (λ t. tree_script t ≡ first_call failing.items) }
        ensures memory { ¬ IsErrOf result Failed }
    {
        let mut held = BTreeMap::new(alloc);
        for (path, bytes) in files {
            held.insert(path, bytes)?;
        }
        Ok(MemTree {
            alloc,
            files: held,
            script: CallScript::new(failing),
            reading: 0,
            writing: 0,
        })
    }

    /// The bytes that the path holds.
    pub fn held(&self, path: &str) -> Option<&[u8]>
        ensures { LendsAt path.now (tree_files self.now) result }
    {
        match self.files.get(path) {
            Some(bytes) => Some(bytes.as_slice()),
            None => None,
        }
    }
}

impl Tree for MemTree {
    ghost use Rattle.mt_edge.specs.Shown.{tree_holds, tree_script, tree_reading, tree_writing};

    ghost holds = { λ t. tree_holds t };

    ghost reading = { λ t. tree_reading t };

    ghost writing = { λ t. tree_writing t };

    fn list(&mut self, folder: &str) -> Result<Vec<String>, EdgeFault>
        ensures names { ListsBelow folder.now (tree_holds self.old) result }
        ensures same { tree_holds self.new ≡ tree_holds self.old }
        ensures cause { HasCause (tree_reading self.old) (tree_reading self.new) result }
        ensures other { tree_writing self.new ≡ tree_writing self.old }
        ensures told { IsErrOf result Failed ↔ IsTrue (fails (tree_script self.old)) }
        ensures counted { tree_script self.new ≡ after_call (tree_script self.old) }
    {
        if self.script.next_fails() {
            self.reading = self.reading.saturating_add(1);
            return Err(EdgeFault::Failed);
        }
        let prefix = with_slash(self.alloc, folder)?;
        Ok(names(self.alloc, &self.files, prefix.as_bytes())?)
    }

    /// It never fails, and is no call that the script counts.
    fn length(&mut self, path: &str) -> Result<Option<u64>, EdgeFault>
        ensures length { TellsLength path.now (tree_holds self.old) result }
        ensures same { tree_holds self.new ≡ tree_holds self.old }
        ensures cause { HasCause (tree_reading self.old) (tree_reading self.new) result }
        ensures other { tree_writing self.new ≡ tree_writing self.old }
        ensures told { ¬ IsErr result }
        ensures uncounted { tree_script self.new ≡ tree_script self.old }
    {
        Ok(length_at(&self.files, path))
    }

    fn read(&mut self, path: &str) -> Result<Option<Bytes>, EdgeFault>
        ensures bytes { ReadsAt path.now (tree_holds self.old) result }
        ensures same { tree_holds self.new ≡ tree_holds self.old }
        ensures cause { HasCause (tree_reading self.old) (tree_reading self.new) result }
        ensures other { tree_writing self.new ≡ tree_writing self.old }
        ensures told { IsErrOf result Failed ↔ IsTrue (fails (tree_script self.old)) }
        ensures counted { tree_script self.new ≡ after_call (tree_script self.old) }
    {
        if self.script.next_fails() {
            self.reading = self.reading.saturating_add(1);
            return Err(EdgeFault::Failed);
        }
        Ok(found(&self.files, path)?)
    }

    fn replace(&mut self, path: &str, bytes: &[u8]) -> Result<(), EdgeFault>
        ensures ok { OnOk result
            (IsReplaced path.now bytes.now (tree_holds self.old) (tree_holds self.new)) }
        ensures err { OnErr result
            (OldOrReplaced path.now bytes.now (tree_holds self.old) (tree_holds self.new)) }
        ensures cause { HasCause (tree_writing self.old) (tree_writing self.new) result }
        ensures other { tree_reading self.new ≡ tree_reading self.old }
        ensures told { IsErrOf result Failed ↔ IsTrue (fails (tree_script self.old)) }
        ensures counted { tree_script self.new ≡ after_call (tree_script self.old) }
    {
        if self.script.next_fails() {
            self.writing = self.writing.saturating_add(1);
            return Err(EdgeFault::Failed);
        }
        let key = String::from_str(self.alloc, path)?;
        let value = copied(self.alloc, bytes)?;
        self.files.insert(key, value)?;
        Ok(())
    }
}
