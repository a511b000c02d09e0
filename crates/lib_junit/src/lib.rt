//! The native methods of `org/junit/Assert` and of `org/junit/jupiter/api/Assertions`.
#![tactic(auto)]

mod natives;

pub use natives::junit_deed;
