//! A class file (JVMS 4.1), written.
#![tactic(auto)]

mod laws;
mod write;

pub use laws::{what_is_spelled_is_written, what_is_written_is_spelled};
pub use write::{put_indices, write_class};
