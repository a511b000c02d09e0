//! What is found of a class.

/// What is found of a class. At the end of the walk it is one of the last two.
#[derive(Clone, Copy)]
pub enum Standing {
    /// The walk hasn't come to the class.
    New,
    /// It is open, at this place among the open classes.
    Open(usize),
    /// It doesn't stand above itself. The ranks of its supers are lower, or they do.
    Ranked(u32),
    /// It stands above itself.
    Cyclic,
}
