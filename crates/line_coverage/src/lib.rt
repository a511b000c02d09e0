//! Which tests reach a line of a class: for each line that some run reached, a bit for each test.
#![tactic(auto)]

mod coverage;
mod lines;
mod tests;
mod words;

pub use coverage::Coverage;
