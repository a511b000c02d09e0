//! The classes that a walk has found, and those that are closed.

use jvm_marks::Marks;

/// The classes that were found, in order, and those that were left: all above these was found.
#[derive(Drop)]
pub struct Seen {
    pub found: Marks,
    pub closed: Marks,
}
