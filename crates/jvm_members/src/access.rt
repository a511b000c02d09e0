//! How a field is used.

/// What an instruction does with a field.
#[derive(Clone, Copy)]
pub enum Access {
    Get,
    Put,
}
