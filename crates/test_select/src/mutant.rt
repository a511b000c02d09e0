//! Where a mutant is.

use class_model::ClassId;

/// The class of a mutant by its number in the program, and the line of its instruction.
#[derive(Clone, Copy)]
pub struct MutantPlace {
    pub class: ClassId,
    pub line: u16,
}
