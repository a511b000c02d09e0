//! The classes on which class files stand: what a program says of each is only its flags, what
//! stands above it, and which methods it is told to have.

use class_link::{LibBody, LibClass, LibMethod};
use class_model::{Name, Seq, read_text};
use std::alloc::Global;
use std::collections::HashSet;

// The methods of these words, each with its flags, its name and its descriptor. They are native.
fn methods_of(alloc: Global, text: &str) -> anyhow::Result<Seq<LibMethod>> {
    let mut methods = Seq::new(alloc);
    for word in text.split(' ') {
        let mut parts = word.split(':');
        let (Some(flags), Some(name), Some(desc)) = (parts.next(), parts.next(), parts.next())
        else {
            anyhow::bail!("a method without a descriptor");
        };
        methods.push(LibMethod {
            name: read_text(alloc, name.as_bytes())?,
            desc: read_text(alloc, desc.as_bytes())?,
            flags: flags.parse::<u16>()?,
            body: LibBody::Native(0),
        })?;
    }
    Ok(methods)
}

// The class of these words, with these methods: its name, its flags, its superclass unless it has
// none, and its interfaces.
fn class_with(alloc: Global, text: &str, methods: Seq<LibMethod>) -> anyhow::Result<LibClass> {
    let mut words = text.split(' ');
    let (Some(name), Some(flags)) = (words.next(), words.next()) else {
        anyhow::bail!("a line without flags");
    };
    let parent = match words.next() {
        Some(word) => Some(read_text(alloc, word.as_bytes())?),
        None => None,
    };
    let mut interfaces = Seq::new(alloc);
    for word in words {
        interfaces.push(read_text(alloc, word.as_bytes())?)?;
    }
    Ok(LibClass {
        name: read_text(alloc, name.as_bytes())?,
        parent,
        interfaces,
        flags: flags.parse::<u16>()?,
        pool: Seq::new(alloc),
        fields: Seq::new(alloc),
        methods,
    })
}

// The class of a line, which states its methods behind `with`, if it does.
fn class_of(alloc: Global, line: &str) -> anyhow::Result<LibClass> {
    match line.split_once(" with ") {
        Some((text, methods)) => class_with(alloc, text, methods_of(alloc, methods)?),
        None => class_with(alloc, line, Seq::new(alloc)),
    }
}

/// The classes of these lines, but for those with one of the names, as classes without fields.
pub fn library_of(alloc: Global, text: &str, but: &HashSet<Name>) -> anyhow::Result<Seq<LibClass>> {
    let mut library = Seq::new(alloc);
    for line in text.lines() {
        let class = class_of(alloc, line)?;
        if !but.contains(&class.name) {
            library.push(class)?;
        }
    }
    Ok(library)
}
