//! Where a field or a method stands.

use class_model::ClassId;

/// A member of a class, by its place among the fields or the methods that the class declares.
#[derive(Clone, Copy)]
pub struct Site {
    pub class: ClassId,
    pub place: usize,
}

/// A method that was found. An array has its own `clone`, which no class declares (JLS 10.7).
#[derive(Clone, Copy)]
pub enum Callee {
    Method(Site),
    ArrayClone,
}
