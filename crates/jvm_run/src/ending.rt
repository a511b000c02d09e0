//! How a run came to its end.

use class_model::{Name, Outcome};

/// How a run came to its end.
#[derive(Drop)]
pub enum Ending {
    With(Outcome),
    /// No row of the machine applies to an instruction: its class, its method by name and
    /// descriptor written together, and its number.
    Stuck {
        class: Name,
        method: Name,
        at: usize,
    },
}

/// How a run came to its end, but for the place where it is stuck.
#[derive(Drop)]
pub enum End {
    With(Outcome),
    Stuck,
}
