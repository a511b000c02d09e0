//! Workers over six mutants and two tests, and tests of how they share the cells.
#![tactic(auto)]

mod calls;
mod claims;
#[cfg(test)]
mod claims_tests;
#[cfg(test)]
mod gates;
mod hands;
mod jobs;
mod rows;
mod samples;
#[cfg(test)]
mod tests;

pub use calls::{draw, share, work};
pub use claims::eight_events_are_a_whole_run;
pub use jobs::{RowEnds, do_rows};
pub use rows::{Row, RowHands, RowRecord};
