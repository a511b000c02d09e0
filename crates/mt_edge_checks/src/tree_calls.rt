//! Calls of trees of files, as rows of tables, and what a tree answers.

use class_model::Bytes;
use mt_edge::{EdgeFault, Tree};
use std::alloc::Global;
use std::test::Fail;

/// What is asked of a tree.
#[derive(Clone, Copy)]
pub enum Call {
    List,
    Length,
    Read,
    Replace,
}

/// A call, where below the folder, the bytes that a file gets, and what the call answers: the paths
/// below the folder, the file's length, the bytes that are read, or what became of it.
pub type CallRow = (Call, &'static str, &'static str, &'static str);

fn joined(alloc: Global, folder: &str, paths: &[String]) -> Result<String, Fail> {
    let mut text = String::new(alloc);
    for path in paths {
        text.push_str(path.as_str().strip_prefix(folder).unwrap_or("elsewhere"))?;
        text.push(' ')?;
    }
    Ok(text)
}

fn found(read: &Result<Option<Bytes>, EdgeFault>) -> &str {
    match read {
        Ok(Some(bytes)) => str::from_utf8(bytes.as_slice()).unwrap_or("no text"),
        Ok(None) => "nothing",
        Err(_) => "failed",
    }
}

/// What a tree answers a call, in words.
pub fn answer<T: Tree>(
    alloc: Global,
    tree: &mut T,
    call: Call,
    path: &str,
    bytes: &str,
) -> Result<String, Fail> {
    match call {
        Call::List => match tree.list(path) {
            Ok(paths) => joined(alloc, path, paths.as_slice()),
            Err(_) => Ok(String::from_str(alloc, "failed")?),
        },
        Call::Length => match tree.length(path) {
            Ok(Some(length)) => Ok(format!(in alloc; "{length}")?),
            Ok(None) => Ok(String::from_str(alloc, "nothing")?),
            Err(_) => Ok(String::from_str(alloc, "failed")?),
        },
        Call::Read => {
            let read = tree.read(path);
            Ok(String::from_str(alloc, found(&read))?)
        }
        Call::Replace => {
            let is_done = tree.replace(path, bytes.as_bytes()).is_ok();
            Ok(String::from_str(alloc, if is_done { "done" } else { "failed" })?)
        }
    }
}

/// Whether a tree answers a call in a folder so.
pub fn answers<T: Tree>(
    alloc: Global,
    tree: &mut T,
    folder: &str,
    row: &CallRow,
) -> Result<bool, Fail> {
    let (call, name, bytes, wanted) = *row;
    let path = format!(in alloc; "{folder}{name}")?;
    let said = answer(alloc, tree, call, path.as_str(), bytes)?;
    Ok(said.as_str() == wanted)
}
