//! What stands at a real path.

use std::io::{Error, ErrorKind};
use std::rt::Files;
use std::{fs, io};

/// Whether there is nothing at a path, or it goes on below a file or round in links.
pub fn is_absent(error: &Error) -> bool {
    matches!(
        error.kind(),
        ErrorKind::NotFound | ErrorKind::NotADirectory | ErrorKind::FilesystemLoop
    )
}

// Nor is anything held where no file can be: at a name that is too long, or that has a zero byte.
fn is_unheld(path: &str, error: &Error) -> bool {
    match error.kind() {
        ErrorKind::InvalidFilename => true,
        ErrorKind::InvalidInput => path.as_bytes().contains(&0),
        _ => is_absent(error),
    }
}

/// What the system answered of a path, none where nothing is held there.
pub fn if_held<T: Drop>(path: &str, answer: io::Result<T>) -> io::Result<Option<T>> {
    match answer {
        Ok(value) => Ok(Some(value)),
        Err(error) if is_unheld(path, &error) => Ok(None),
        Err(error) => Err(error),
    }
}

/// The path behind all links.
pub fn real_path<R: Files + AllocGlobal>(rt: &R, path: &str) -> io::Result<String> {
    let real = fs::canonicalize(rt, path)?;
    Ok(String::from_str(rt.alloc(), real.as_path().as_str())?)
}
