//! What the wrong bodies of the class table, of resolution, of the type checker and of the search for
//! tests are tried on, and tests of these.
//!
//! Each function outside the tests is a call of a crate below with the same contract. A wrong body in
//! its place that is refused would be refused there too.
#![tactic(auto)]

#[cfg(test)]
mod accepted;
#[cfg(test)]
mod assignability;
#[cfg(test)]
mod classes;
pub mod discovery_calls;
pub mod families;
#[cfg(test)]
mod libraries;
pub mod methods;
pub mod passes;
#[cfg(test)]
mod printed;
#[cfg(test)]
mod projects;
#[cfg(test)]
mod refused;
#[cfg(test)]
mod refused_further;
#[cfg(test)]
mod refused_tests;
#[cfg(test)]
mod small_methods;
pub mod table_calls;
pub mod verdicts;
pub mod verifier_calls;
