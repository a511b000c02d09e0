//! The files below a real folder.

use crate::standing::{if_held, is_absent, real_path};
use std::collections::BTreeSet;
use std::fs::Metadata;
use std::io::{Error, ErrorKind, Read};
use std::rt::Files;
use std::{fs, io};

// How many names may stand below a folder, of files, folders and what else there is.
const MOST_NAMES: u32 = 200_000;

// What may still be found and how much of it: the front of all real paths below the folder, and
// how many names are left to its limit; the files that were found, the folders that are still to
// be entered, and the real paths of those that were.
#[derive(Drop)]
struct Walk {
    below: String,
    left: u32,
    files: Vec<String>,
    folders: BTreeSet<String>,
    entered: BTreeSet<String>,
}

// What stands at a path, be it by a link that stays below the folder; none where a link leads
// elsewhere or nowhere.
fn standing_at<R: Files + AllocGlobal>(
    rt: &R,
    path: &str,
    below: &str,
) -> io::Result<Option<Metadata>> {
    match fs::symlink_metadata(rt, path) {
        Ok(about) if about.is_symlink() => linked_at(rt, path, below),
        Ok(about) => Ok(Some(about)),
        Err(error) if is_absent(&error) => Ok(None),
        Err(error) => Err(error),
    }
}

fn linked_at<R: Files + AllocGlobal>(
    rt: &R,
    link: &str,
    below: &str,
) -> io::Result<Option<Metadata>> {
    let Some(about) = if_held(link, fs::metadata(rt, link))? else {
        return Ok(None);
    };
    let real = real_path(rt, link)?;
    Ok(if real.starts_with(below) {
        Some(about)
    } else {
        None
    })
}

// A regular file is listed, and a folder is to be entered. What else stands there is let be.
fn note_path<R: Files + AllocGlobal>(rt: &R, path: String, walk: &mut Walk) -> io::Result<()> {
    match standing_at(rt, path.as_str(), walk.below.as_str())? {
        Some(about) if about.is_dir() => {
            walk.folders.insert(path)?;
        }
        Some(about) if about.is_file() => walk.files.push(path)?,
        _ => (),
    }
    Ok(())
}

// A name that isn't text is let be, unless it is a class file's.
fn note<R: Files + AllocGlobal>(
    rt: &R,
    folder: &str,
    name: &[u8],
    walk: &mut Walk,
) -> io::Result<()> {
    let Some(left) = walk.left.checked_sub(1) else {
        return Err(Error::from(ErrorKind::QuotaExceeded));
    };
    walk.left = left;
    match str::from_utf8(name) {
        Ok(name) => note_path(rt, format!(in rt.alloc(); "{folder}/{name}")?, walk),
        Err(_) if name.ends_with(b".class") => Err(Error::from(ErrorKind::InvalidFilename)),
        Err(_) => Ok(()),
    }
}

// Names with a zero byte behind each.
fn note_all<R: Files + AllocGlobal>(
    rt: &R,
    folder: &str,
    names: &[u8],
    walk: &mut Walk,
) -> io::Result<()> {
    for name in names.split(|byte| *byte == 0) {
        if !matches!(name, b"" | b"." | b"..") {
            note(rt, folder, name, walk)?;
        }
    }
    Ok(())
}

// The names are read as bytes, since a name need not be text. No read ends inside a name.
fn enter<R: Files + AllocGlobal>(rt: &R, folder: &str, walk: &mut Walk) -> io::Result<()> {
    let named = format!(in rt.alloc(); "{folder}/")?;
    let mut listing = rt.open_dir(named.as_str())?;
    let mut piece = [0u8; 4096];
    for _ in 0..u64::MAX {
        let length = listing.read(&mut piece)?;
        if length == 0 {
            break;
        }
        note_all(rt, folder, &piece[..length], walk)?;
    }
    Ok(())
}

// Whether the folder wasn't entered by another path.
fn is_new<R: Files + AllocGlobal>(rt: &R, folder: &str, walk: &mut Walk) -> io::Result<bool> {
    let real = real_path(rt, folder)?;
    Ok(walk.entered.insert(real)?)
}

// Only the root folder's path ends with a slash.
fn front_below<R: Files + AllocGlobal>(rt: &R, folder: &str) -> io::Result<String> {
    let mut front = real_path(rt, folder)?;
    if !front.ends_with('/') {
        front.push('/')?;
    }
    Ok(front)
}

fn walked<R: Files + AllocGlobal>(rt: &R, folder: &str) -> io::Result<Vec<String>> {
    let mut walk = Walk {
        below: front_below(rt, folder)?,
        left: MOST_NAMES,
        files: Vec::new(rt.alloc()),
        folders: BTreeSet::new(rt.alloc()),
        entered: BTreeSet::new(rt.alloc()),
    };
    walk.folders.insert(String::from_str(rt.alloc(), folder)?)?;
    for _ in 0..u64::MAX {
        let Some(next) = walk.folders.pop_first() else {
            break;
        };
        if is_new(rt, next.as_str(), &mut walk)? {
            enter(rt, next.as_str(), &mut walk)?;
        }
    }
    let mut files = walk.files;
    files.sort()?;
    Ok(files)
}

/// The regular files below the folder, in byte order of their paths. A link is followed where it
/// stays below the folder, and each real folder is entered once, by the least of its paths that
/// were found, so that it doesn't matter in which order the system lists them. More names than a
/// limit are an error.
pub fn files_below<R: Files + AllocGlobal>(rt: &R, folder: &str) -> io::Result<Vec<String>> {
    match if_held(folder, fs::metadata(rt, folder))? {
        Some(about) if about.is_dir() => walked(rt, folder),
        _ => Ok(Vec::new(rt.alloc())),
    }
}
