//! What a row comes to.

/// What a row comes to.
#[derive(Clone, Copy)]
pub enum Effect {
    /// No row applies, and all is as it was.
    NoRow,
    /// The frame has gone on, or the run is over.
    Goes,
    /// The frames are as they were, and the object of this number is thrown.
    Throws(u32),
}
