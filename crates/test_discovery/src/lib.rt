//! The tests of a program, in the manner of JUnit 4 and JUnit 5: which methods are tests, what a
//! run of one calls, and which classes are refused.
//!
//! A further annotation is a text in one list of `specs/Annotations.antt` and of
//! `src/annotations.rt`; the README says what else one may owe.
#![tactic(auto)]

mod annotations;
mod count;
mod expected;
mod fault;
mod listed;
mod marks;
mod names;
mod rules;
mod script;
mod search;

pub use count::count_tests;
pub use fault::{Rule, TestFault};
pub use search::tests;
