//! The key of a class file: the path of its source, as far as the class file states it.

ghost use Rattle.std.specs.Prelude.{◌≡◌, Some, None, IfOk, option_map, string_bytes};
ghost use Rattle.std.specs.Option.{option_copied};
ghost use Rattle.report_pieces.specs.FileKey.{stated_at, stated_among, stated_file, stated_text, key_by, key_with};

use class_model::{Attr, Body, Class, Const, Memory, Name};
use mt_pool::text_of;
use report_schema::{file_key, package_len};
use std::alloc::Global;

// ---- the file that a class file states

// The name that an attribute states, where it is SourceFile.
fn stated_at<'a>(pool: &'a [Const], attr: &Attr) -> Option<&'a Name>
    ensures { option_copied result ≡ stated_at pool.now attr.now }
{
    match &attr.body {
        Body::Source(index) => text_of(pool, *index),
        _ => None,
    }
}

// The first name that attributes state.
fn stated_among<'a>(pool: &'a [Const], attrs: &[Attr]) -> Option<&'a Name>
    ensures { option_copied result ≡ stated_among pool.now attrs.now }
{
    for attr in attrs {
        match stated_at(pool, attr) {
            Some(name) => return Some(name),
            None => (),
        }
    }
    None
}

/// The file that a class file states as its source.
pub fn stated_file(class: &Class) -> Option<&Name>
    ensures { option_copied result ≡ stated_file class.now }
{
    stated_among(class.pool.as_slice(), class.attrs.as_slice())
}

// It as a text; a name with a lone surrogate is none.
fn stated_text(alloc: Global, stated: Option<&Name>) -> Result<Option<String>, Memory>
    ensures { IfOk result (λ text.
        option_map string_bytes text ≡ stated_text (option_copied stated.entry)) }
{
    let Some(name) = stated else {
        return Ok(None);
    };
    match String::from_utf16(alloc, name.as_slice())? {
        Ok(text) => Ok(Some(text)),
        Err(_) => Ok(None),
    }
}

// ---- the key

// The package, with `/`, and a file of it.
fn file_in_package(alloc: Global, name: &[u16], file: &str) -> Result<String, Memory>
    ensures { IfOk result (λ key. string_bytes key ≡ key_by name.now (Some file.now)) }
{
    let mut key = String::from_utf16_lossy(alloc, &name[..package_len(name)])?;
    key.push_str(file)?;
    Ok(key)
}

// The file of a class whose class file states none.
fn file_by_name(alloc: Global, name: &Name) -> Result<String, Memory>
    ensures { IfOk result (λ key. string_bytes key ≡ key_by name.now None) }
{
    let key = file_key(alloc, name)?;
    Ok(String::from_utf16_lossy(alloc, key.as_slice())?)
}

/// The key of a class, by its name and the file that its class file states: the package with `/`,
/// and that file; without one the simple name of its outermost class, and `.java`.
pub fn key_with(alloc: Global, name: &Name, stated: Option<&Name>) -> Result<String, Memory>
    ensures { IfOk result (λ key.
        string_bytes key ≡ key_with name.now (option_copied stated.entry)) }
{
    match stated_text(alloc, stated)? {
        Some(file) => Ok(file_in_package(alloc, name.as_slice(), file.as_str())?),
        None => Ok(file_by_name(alloc, name)?),
    }
}
