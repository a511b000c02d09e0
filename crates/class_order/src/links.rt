//! What a class names as its supers, by number.

use std::alloc::Global;

/// The superclass of a class, if it has one, and its interfaces in order, by the numbers of their
/// classes.
#[derive(Drop)]
pub struct Links {
    pub parent: Option<u32>,
    pub interfaces: Vec<u32, Global>,
}
