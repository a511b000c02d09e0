//! Class files that are read.

use class_model::{Bytes, Class, ClassFault, Memory, Name, Seq, SharedBytes};
use class_reader::read_class;
use class_table::Loaded;
use mt_pool::class_name_of;
use std::alloc::Global;
use std::collections::HashSet;

/// The classes that were read, with their names, and how many weren't: those outside of the
/// profile, and those that are no class files.
#[derive(Drop)]
pub struct Read {
    pub classes: Seq<Loaded>,
    pub names: HashSet<Name>,
    pub outside: u64,
    pub wrong: u64,
}

fn count(counter: &mut u64) {
    *counter = counter.saturating_add(1);
}

fn add(alloc: Global, read: &mut Read, bytes: Bytes, class: Class) -> Result<(), Memory> {
    if let Some(name) = class_name_of(class.pool.as_slice(), class.this) {
        read.names.insert(name.copy()?)?;
    }
    let bytes = SharedBytes::new(alloc, bytes)?;
    read.classes.push(Loaded { bytes, class })?;
    Ok(())
}

/// Reads these class files.
pub fn read_all(alloc: Global, files: Vec<Bytes>) -> Result<Read, Memory> {
    let mut read = Read {
        classes: Seq::new(alloc),
        names: HashSet::new(alloc),
        outside: 0,
        wrong: 0,
    };
    for bytes in files {
        match read_class(alloc, bytes.as_slice()) {
            Ok(class) => add(alloc, &mut read, bytes, class)?,
            Err(ClassFault::Memory) => return Err(Memory),
            Err(
                ClassFault::FloatUsed { .. }
                | ClassFault::DynamicUsed { .. }
                | ClassFault::BadVersion { .. },
            ) => count(&mut read.outside),
            Err(_) => count(&mut read.wrong),
        }
    }
    Ok(read)
}
