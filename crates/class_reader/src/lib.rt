//! A class file (JVMS 4.1), read.
//!
//! What a class file is stands in `specs/Spells.antt`, apart from how one is read;
//! `specs/Reading.antt` says which fault is the first.
#![tactic(auto)]

mod indices;
mod laws;
mod members;
mod read;

pub use laws::files_are_read_as_spelled;
pub use read::read_class;
