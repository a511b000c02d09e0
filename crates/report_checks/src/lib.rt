//! What the wrong bodies of the report, its sources and its summary are tried on, and their tests.
//!
//! Each function outside the tests is a call of a crate below with the same contract. A wrong body
//! in its place that is refused would be refused there too.
#![tactic(auto)]

mod calls;
#[cfg(test)]
mod report_tests;
#[cfg(test)]
mod source_tests;

pub use calls::{grouped, read_sources, report_text, summary_text};
