//! Libraries of classes without members, of tables.

use class_link::LibClass;
use class_model::{Seq, read_text};
use std::alloc::Global;
use std::test::Fail;

/// A class: its name, its superclass, an interface and its flags.
pub type ClassRow = (
    &'static str,
    Option<&'static str>,
    Option<&'static str>,
    u16,
);

fn class(alloc: Global, row: &ClassRow) -> Result<LibClass, Fail> {
    let (name, parent, interface, flags) = *row;
    let mut interfaces = Seq::new(alloc);
    if let Some(name) = interface {
        interfaces.push(read_text(alloc, name.as_bytes())?)?;
    }
    let parent = match parent {
        Some(name) => Some(read_text(alloc, name.as_bytes())?),
        None => None,
    };
    Ok(LibClass {
        name: read_text(alloc, name.as_bytes())?,
        parent,
        interfaces,
        flags,
        pool: Seq::new(alloc),
        fields: Seq::new(alloc),
        methods: Seq::new(alloc),
    })
}

/// The library of these classes.
pub fn library_of(alloc: Global, rows: &[ClassRow]) -> Result<Seq<LibClass>, Fail> {
    let mut library = Seq::new(alloc);
    for row in rows {
        let class = class(alloc, row)?;
        library.push(class)?;
    }
    Ok(library)
}
