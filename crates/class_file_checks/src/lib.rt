//! The calls of the assembler's crates under their own contracts, and the tests of these crates.
//! Wrong bodies of the calls stand in `must-fail`: a contract that refuses one here refuses it in
//! the crate that has the call, since the texts of both contracts are the same and the body that is
//! proved here is that call.
#![tactic(auto)]

mod asm_instructions;
#[cfg(test)]
mod asm_tests;
mod assembling;
pub mod attributes;
pub mod files;
pub mod instructions;
pub mod items;
pub mod laws;
pub mod pools;
mod stating;
#[cfg(test)]
mod tests;
pub mod texts;
mod words;

pub use asm_instructions::{class_in, insn_of};
pub use assembling::assemble;
pub use stating::stated_by;
pub use words::{lines_of, start_in};
