//! Records of runs: what one says, when it is true, which run it matches, and which records a job
//! leaves behind it.
//!
//! The definitions are in `specs/` and stand on those of programs and of the machine alone. What
//! class files mean, the library and which methods are tests are given to them as a `Profile`. The
//! plain type that they name stands here, and the number under which a history is written.
#![tactic(auto)]

mod profile_number;
mod record;

pub use profile_number::PROFILE_NUMBER;
pub use record::RunRecord;
