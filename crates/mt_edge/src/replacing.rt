//! A real file that gets new bytes.

use crate::beside::own_file_beside;
use crate::known::KnownFiles;
use crate::standing::{is_absent, real_path};
use std::fs::{File, Metadata, OpenOptions, Permissions};
use std::io::{Error, ErrorKind, Write};
use std::rt::Files;
use std::{fs, io};

// Whether bytes for the path go straight to what stands there.
fn is_passed_on(path: &str) -> bool {
    matches!(path, "/dev/stdout" | "/dev/stderr" | "/dev/null")
}

fn pass_on<R: Files>(rt: &R, path: &str, bytes: &[u8]) -> io::Result<()> {
    let mut file = OpenOptions::new().append(true).open(rt, path)?;
    file.write_all(bytes)
}

// The path behind all links. A link that leads nowhere is refused.
fn place_of<R: Files + AllocGlobal>(rt: &R, path: &str) -> io::Result<String> {
    match real_path(rt, path) {
        Err(error) if is_absent(&error) && fs::symlink_metadata(rt, path).is_err() => {
            Ok(String::from_str(rt.alloc(), path)?)
        }
        place => place,
    }
}

// What is told of the regular file at a path, none where nothing is there.
fn file_at<R: Files>(rt: &R, path: &str) -> io::Result<Option<Metadata>> {
    match fs::metadata(rt, path) {
        Ok(about) if about.is_file() => Ok(Some(about)),
        Ok(_) => Err(Error::from(ErrorKind::InvalidInput)),
        Err(error) if error.kind() == ErrorKind::NotFound => Ok(None),
        Err(error) => Err(error),
    }
}

// The permissions come first, so that nobody reads the bytes who may not.
fn fill(file: &mut File, bytes: &[u8], permissions: Option<Permissions>) -> io::Result<Metadata> {
    if let Some(permissions) = permissions {
        file.set_permissions(permissions)?;
    }
    file.write_all(bytes)?;
    file.flush()?;
    file.sync_all()?;
    file.metadata()
}

/// Makes durable what stands in the folder of a path. One that may be written and not read can't be
/// opened, and isn't synced.
pub fn sync_folder_of<R: Files<File = File>>(rt: &R, path: &str) -> io::Result<()> {
    let folder = match path.rsplit_once('/') {
        Some(("", _)) => "/",
        Some((folder, _)) => folder,
        None => ".",
    };
    match File::open(rt, folder) {
        Ok(folder) => folder.sync_all(),
        Err(error) if error.kind() == ErrorKind::PermissionDenied => Ok(()),
        Err(error) => Err(error),
    }
}

// A file of its own takes the place of what stood there. It is held until it has.
fn put_in_place<R: Files<File = File> + AllocGlobal>(
    rt: &R,
    place: &str,
    bytes: &[u8],
    permissions: Option<Permissions>,
) -> io::Result<Metadata> {
    let (beside, mut file) = own_file_beside(rt, place)?;
    let replaced = match fill(&mut file, bytes, permissions) {
        Ok(about) => fs::rename(rt, beside.as_str(), place).map(|()| about),
        Err(error) => Err(error),
    };
    if replaced.is_err() {
        let _ = fs::remove_file(rt, beside.as_str());
    }
    replaced
}

/// Puts the bytes in the place of what the file at the path held, by a file of its own that then
/// takes its place, so that the path never holds a part of them. It stays what it was for all but
/// its bytes: a link stays a link, and a file keeps its permissions. A file that is known by
/// another path isn't replaced.
pub fn replace_file<R: Files<File = File> + AllocGlobal>(
    rt: &R,
    path: &str,
    bytes: &[u8],
    known: &mut KnownFiles,
) -> io::Result<()> {
    if is_passed_on(path) {
        return pass_on(rt, path, bytes);
    }
    let place = place_of(rt, path)?;
    if is_passed_on(place.as_str()) {
        return pass_on(rt, place.as_str(), bytes);
    }
    let old = file_at(rt, place.as_str())?;
    let permissions = match &old {
        Some(about) if known.may_replace(path, about) => Some(about.permissions()),
        Some(_) => return Err(Error::from(ErrorKind::InvalidInput)),
        None => None,
    };
    let new = put_in_place(rt, place.as_str(), bytes, permissions)?;
    known.note_replaced(path, &old, &new)?;
    sync_folder_of(rt, place.as_str())
}
