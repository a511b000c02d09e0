//! The file of a class, from the class's name alone.

ghost use Rattle.std.specs.Prelude.{◌≡◌, ◌≤◌, ◌<◌, length, position, IfOk, IfSome};
ghost use Rattle.std.specs.List.{before_first};
ghost use Rattle.report_schema.specs.FileKey.{is_dollar, package_len, outermost, file_key};

use class_model::{Memory, Name};
use std::alloc::Global;

const SLASH: u16 = b'/' as u16;

const DOLLAR: u16 = b'$' as u16;

const JAVA: [u16; 5] = [46, 106, 97, 118, 97];

/// How long the package is, with the `/` behind it.
pub fn package_len(name: &[u16]) -> usize
    ensures len { result ≡ package_len name.now }
    ensures within { result ≤ length name.now }
{
    let mut end = name.len();
    while end > 0 && name[end - 1] != SLASH {
        end -= 1;
    }
    end
}

fn dollar_place(name: &[u16]) -> Option<usize>
    ensures first { result ≡ position is_dollar name.now }
    ensures within { IfSome result (λ place. place < length name.now) }
{
    name.iter().position(|unit| *unit == DOLLAR)
}

// What stands before the first `$`, or the whole where there is none.
fn before_dollar(name: &[u16]) -> &[u16]
    ensures { result.now ≡ before_first is_dollar name.now }
{
    match dollar_place(name) {
        Some(end) => &name[..end],
        None => name,
    }
}

// The simple name of the outermost class: what stands before the first `$`, or the whole where that
// is nothing.
fn outermost(name: &[u16]) -> &[u16]
    ensures { result.now ≡ outermost name.now }
{
    match before_dollar(name) {
        [] => name,
        outer => outer,
    }
}

/// The file of a class: its package with `/`, the simple name of its outermost class, and `.java`.
pub fn file_key(alloc: Global, class: &Name) -> Result<Name, Memory>
    ensures { IfOk result (λ key. key ≡ file_key class.now) }
{
    let (package, simple) = class.as_slice().split_at(package_len(class.as_slice()));
    let mut key = Name::from_slice(alloc, package)?;
    key.extend_from_slice(outermost(simple))?;
    key.extend_from_slice(JAVA.as_slice())?;
    Ok(key)
}
