//! The suite that `generate` makes: so many classes, each with its test.
#![tactic(auto)]

mod suite;
mod texts;

pub use suite::{Suite, made_suite};
pub use texts::{class_text, test_text};
