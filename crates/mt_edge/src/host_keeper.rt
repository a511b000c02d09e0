//! A real file that only grows. It is of the trusted edge, and tells nothing of what it holds.
ghost use Rattle.std.specs.Prelude.{◌≡◌, None};

use crate::host::counted;
use crate::outside::{EdgeFault, Keeper};
use crate::replacing::sync_folder_of;
use crate::standing::real_path;
use class_model::Bytes;
use std::alloc::Global;
use std::fs::{File, OpenOptions, TryLockError};
use std::io::{Error, ErrorKind, Read, Write};
use std::os::unix::fs::MetadataExt;
use std::rt::Files;
use std::{fs, io};

/// The file at a path, opened and locked by `load`. After a call of `append` or `sync` that failed
/// each later one fails: nobody knows what the file then holds.
#[derive(Drop)]
pub struct HostKeeper<'a, R: Files<File = File> + AllocGlobal> {
    rt: &'a R,
    path: String,
    file: Option<File>,
    length: u64,
    durable: u64,
    reading: u64,
    writing: u64,
}

impl<'a, R: Files<File = File> + AllocGlobal> HostKeeper<'a, R> {
    /// The keeper of the file at the path, with no fault counted and nothing opened yet.
    pub fn new(rt: &'a R, path: String) -> HostKeeper<'a, R>
        ensures faults { (result.reading ≡ 0) × (result.writing ≡ 0) }
        ensures durable { result.durable ≡ 0 }
    {
        HostKeeper {
            rt,
            path,
            file: None,
            length: 0,
            durable: 0,
            reading: 0,
            writing: 0,
        }
    }
}

// The regular file at the path, made where nothing is. A link that leads nowhere is refused.
fn open_or_make<R: Files<File = File>>(rt: &R, path: &str) -> io::Result<File> {
    match fs::metadata(rt, path) {
        Ok(about) if about.is_file() => OpenOptions::new().read(true).append(true).open(rt, path),
        Ok(_) => Err(Error::from(ErrorKind::InvalidInput)),
        Err(error) if error.kind() == ErrorKind::NotFound => OpenOptions::new()
            .read(true)
            .append(true)
            .create_new(true)
            .open(rt, path),
        Err(error) => Err(error),
    }
}

// Locks the file against another run. Where no lock is to be had, there is none.
fn take_lock(file: &File) -> io::Result<()> {
    match file.try_lock() {
        Ok(()) => Ok(()),
        Err(TryLockError::WouldBlock) => Err(Error::from(ErrorKind::WouldBlock)),
        Err(TryLockError::Error(_)) => Ok(()),
    }
}

// The file that this run alone appends to. That it is there is made durable, too, since a run that
// made it may have been stopped before that.
fn own_file_at<R: Files<File = File> + AllocGlobal>(rt: &R, path: &str) -> io::Result<File> {
    let file = open_or_make(rt, path)?;
    if !file.metadata()?.is_file() {
        return Err(Error::from(ErrorKind::InvalidInput));
    }
    take_lock(&file)?;
    let real = real_path(rt, path)?;
    sync_folder_of(rt, real.as_str())?;
    Ok(file)
}

fn bytes_of(alloc: Global, file: &mut File) -> io::Result<Bytes> {
    let mut items = Vec::new(alloc);
    file.read_to_end(&mut items)?;
    Ok(Bytes::from_vec(items))
}

// Nobody else has changed the file's length, or removed it.
fn check_untouched(file: &File, length: u64) -> io::Result<()> {
    let about = file.metadata()?;
    if about.len() == length && about.nlink() != 0 {
        Ok(())
    } else {
        Err(Error::from(ErrorKind::InvalidData))
    }
}

fn append_piece(file: &mut Option<File>, length: u64, piece: &[u8]) -> io::Result<()> {
    let Some(file) = file else {
        return Err(Error::from(ErrorKind::NotFound));
    };
    check_untouched(file, length)?;
    file.write_all(piece)
}

fn sync_file(file: &Option<File>, length: u64) -> io::Result<()> {
    let Some(file) = file else {
        return Err(Error::from(ErrorKind::NotFound));
    };
    check_untouched(file, length)?;
    file.sync_all()
}

impl<'a, R: Files<File = File> + AllocGlobal> HostKeeper<'a, R> {
    fn load_file(&mut self) -> io::Result<Bytes>
        ensures writing { self.new.writing ≡ self.old.writing }
        ensures durable { self.new.durable ≡ self.old.durable }
        ensures count { self.new.reading ≡ self.old.reading }
    {
        self.file = None;
        let mut file = own_file_at(self.rt, self.path.as_str())?;
        let bytes = bytes_of(self.rt.alloc(), &mut file)?;
        let length = bytes.len() as u64;
        if length < self.durable {
            return Err(Error::from(ErrorKind::InvalidData));
        }
        self.file = Some(file);
        self.length = length;
        Ok(bytes)
    }
}

impl<'a, R: Files<File = File> + AllocGlobal> Keeper for HostKeeper<'a, R> {
    ghost kept = { λ _. None };

    ghost durable = { λ k. k.durable };

    ghost reading = { λ k. k.reading };

    ghost writing = { λ k. k.writing };

    fn load(&mut self) -> Result<Bytes, EdgeFault> {
        let loaded = self.load_file();
        counted(&mut self.reading, loaded)
    }

    fn append(&mut self, piece: &[u8]) -> Result<(), EdgeFault> {
        let appended = append_piece(&mut self.file, self.length, piece);
        match &appended {
            Ok(()) => self.length = self.length.saturating_add(piece.len() as u64),
            Err(_) => self.file = None,
        }
        counted(&mut self.writing, appended)
    }

    fn sync(&mut self) -> Result<(), EdgeFault> {
        let synced = sync_file(&self.file, self.length);
        match &synced {
            Ok(()) => self.durable = self.durable.max(self.length),
            Err(_) => self.file = None,
        }
        counted(&mut self.writing, synced)
    }
}
