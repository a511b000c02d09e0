//! The real files and the real output. They are the trusted edge: they tell nothing of what they
//! hold, and count their faults.
ghost use Rattle.std.specs.Prelude.{◌≡◌, None};
ghost use Rattle.mt_edge.specs.Causes.{HasCause};

use crate::known::KnownFiles;
use crate::listing::files_below;
use crate::outside::{EdgeFault, Sink, Tree};
use crate::replacing::replace_file;
use crate::standing::if_held;
use class_model::Bytes;
use std::fs::File;
use std::io::{ErrorKind, Read};
use std::rt::Files;
use std::{fs, io};

/// The files of the system. What isn't there, or stands below a file, holds nothing, nor does a
/// folder. A file that was read as a class is not replaced, nor one by two paths.
#[derive(Drop)]
pub struct HostTree<'a, R: Files<File = File> + AllocGlobal> {
    rt: &'a R,
    known: KnownFiles,
    reading: u64,
    writing: u64,
}

impl<'a, R: Files<File = File> + AllocGlobal> HostTree<'a, R> {
    /// The files that the runtime reaches, with no fault counted yet.
    pub fn new(rt: &'a R) -> HostTree<'a, R>
        ensures { (result.reading ≡ 0) × (result.writing ≡ 0) }
    {
        HostTree {
            rt,
            known: KnownFiles::new(rt.alloc()),
            reading: 0,
            writing: 0,
        }
    }
}

/// What a call of the outside answers, with its fault counted. Want of memory is none.
pub fn counted<T: Drop>(count: &mut u64, outcome: io::Result<T>) -> Result<T, EdgeFault>
    ensures { HasCause count.old count.new result }
{
    match outcome {
        Ok(value) => Ok(value),
        Err(error) => {
            if error.kind() == ErrorKind::OutOfMemory {
                return Err(EdgeFault::Memory);
            }
            *count = count.saturating_add(1);
            Err(EdgeFault::Failed)
        }
    }
}

// What is no regular file, as a pipe, tells no length: it is read as it comes.
fn length_if_there<R: Files + AllocGlobal>(rt: &R, path: &str) -> io::Result<Option<u64>> {
    match if_held(path, fs::metadata(rt, path))? {
        Some(about) if about.is_dir() => Ok(None),
        Some(about) if about.is_file() => Ok(Some(about.len())),
        Some(_) => Ok(Some(0)),
        None => Ok(None),
    }
}

// The bytes that are held at the path. A class file is remembered.
fn read_if_there<R: Files<File = File> + AllocGlobal>(
    rt: &R,
    path: &str,
    known: &mut KnownFiles,
) -> io::Result<Option<Bytes>> {
    let Some(mut file) = if_held(path, File::open(rt, path))? else {
        return Ok(None);
    };
    let about = file.metadata()?;
    if about.is_dir() {
        return Ok(None);
    }
    known.note_read(path, &about)?;
    let mut items = Vec::new(rt.alloc());
    file.read_to_end(&mut items)?;
    Ok(Some(Bytes::from_vec(items)))
}

impl<'a, R: Files<File = File> + AllocGlobal> Tree for HostTree<'a, R> {
    ghost holds = { λ _. None };

    ghost reading = { λ t. t.reading };

    ghost writing = { λ t. t.writing };

    fn list(&mut self, folder: &str) -> Result<Vec<String>, EdgeFault> {
        let listed = files_below(self.rt, folder);
        counted(&mut self.reading, listed)
    }

    fn length(&mut self, path: &str) -> Result<Option<u64>, EdgeFault> {
        let length = length_if_there(self.rt, path);
        counted(&mut self.reading, length)
    }

    fn read(&mut self, path: &str) -> Result<Option<Bytes>, EdgeFault> {
        let read = read_if_there(self.rt, path, &mut self.known);
        counted(&mut self.reading, read)
    }

    fn replace(&mut self, path: &str, bytes: &[u8]) -> Result<(), EdgeFault> {
        let replaced = replace_file(self.rt, path, bytes, &mut self.known);
        counted(&mut self.writing, replaced)
    }
}

/// The standard output.
#[derive(Drop)]
pub struct HostSink<'a, R: Print> {
    rt: &'a R,
    faults: u64,
}

impl<'a, R: Print> HostSink<'a, R> {
    /// The output that the runtime reaches, with no fault counted yet.
    pub fn new(rt: &'a R) -> HostSink<'a, R>
        ensures { result.faults ≡ 0 }
    {
        HostSink { rt, faults: 0 }
    }
}

impl<'a, R: Print> Sink for HostSink<'a, R> {
    ghost written = { λ _. None };

    ghost faults = { λ s. s.faults };

    fn put(&mut self, bytes: &[u8]) -> Result<(), EdgeFault> {
        let written = self.rt.write_all(bytes);
        counted(&mut self.faults, written)
    }
}
