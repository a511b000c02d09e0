//! Tests and wrong bodies of the lowest crates beside the class files: the outside of the tool
//! (`mt_edge`) and the arithmetic of ints and longs (`jvm_arith`).
//!
//! Each function here has the contract of the public call that its body makes, word for word. An
//! edit in `must-fail/` puts a wrong body in its place: what the contract refuses here, it refuses
//! of the call itself.
#![tactic(auto)]

mod arith;
#[cfg(test)]
mod arith_tests;
mod edge;
#[cfg(test)]
mod edge_tests;
#[cfg(test)]
mod keeper_calls;
#[cfg(test)]
mod keeper_tests;
#[cfg(test)]
mod tree_calls;

pub use arith::{an_operation_has_one_result, int_op};
pub use edge::{append, list, put, read, replace, sync, tick};
