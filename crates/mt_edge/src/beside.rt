//! A file beside a path that one run alone writes, to put it in the path's place. It is locked while
//! it is written, so that what an earlier run left is told from what another run is writing.

use crate::known::is_same;
use std::fs::{File, Metadata, TryLockError};
use std::io::{Error, ErrorKind};
use std::os::unix::fs::MetadataExt;
use std::rt::Files;
use std::{fs, io};

// How many names for a file of its own are tried.
const TRIES: u32 = 1000;

// Whether the open file is the one by this name.
fn is_at<R: Files>(rt: &R, name: &str, file: &File) -> bool {
    match (fs::symlink_metadata(rt, name), file.metadata()) {
        (Ok(named), Ok(about)) => is_same(&named, &about),
        _ => false,
    }
}

// Whether no other run has taken a file that was just made. Where no lock is to be had, none does.
fn is_held<R: Files>(rt: &R, name: &str, file: &File) -> bool {
    match file.try_lock() {
        Ok(()) => is_at(rt, name, file),
        Err(TryLockError::WouldBlock) => false,
        Err(TryLockError::Error(_)) => true,
    }
}

// Whether it is a regular file of the user who runs this.
fn is_of_this_user<R: Files>(rt: &R, about: &Metadata) -> bool {
    match fs::metadata(rt, "/proc/self") {
        Ok(process) => about.is_file() && about.uid() == process.uid(),
        Err(_) => false,
    }
}

// Removes the regular file of this user by this name that no run holds: an earlier one left it.
fn remove_left<R: Files<File = File>>(rt: &R, name: &str) -> io::Result<()> {
    let about = fs::symlink_metadata(rt, name)?;
    if !is_of_this_user(rt, &about) {
        return Err(Error::from(ErrorKind::AlreadyExists));
    }
    let file = File::open(rt, name)?;
    file.try_lock()?;
    if !is_at(rt, name, &file) {
        return Err(Error::from(ErrorKind::AlreadyExists));
    }
    fs::remove_file(rt, name)
}

fn make<R: Files<File = File>>(rt: &R, name: &str) -> io::Result<File> {
    match File::create_new(rt, name) {
        Err(error) if error.kind() == ErrorKind::AlreadyExists => {
            if remove_left(rt, name).is_err() {
                return Err(error);
            }
            File::create_new(rt, name)
        }
        made => made,
    }
}

/// A new file beside the path, and its name: the first number at which nothing stands but what an
/// earlier run left. No other run takes it while it is open.
pub fn own_file_beside<R: Files<File = File> + AllocGlobal>(
    rt: &R,
    path: &str,
) -> io::Result<(String, File)> {
    for number in 0..TRIES {
        let name = format!(in rt.alloc(); "{path}.mutest-{number}")?;
        match make(rt, name.as_str()) {
            Ok(file) if is_held(rt, name.as_str(), &file) => return Ok((name, file)),
            Ok(_) => (),
            Err(error) if error.kind() == ErrorKind::AlreadyExists => (),
            Err(error) => return Err(error),
        }
    }
    Err(Error::from(ErrorKind::AlreadyExists))
}
