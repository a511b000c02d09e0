//! The mutants of a class.
#![tactic(auto)]

mod asked;
mod change;
mod counting;
mod laws;
mod listing;
mod mutant;
mod parts;
mod place;
mod pool;
mod printing;
mod program;
mod table;

pub use asked::Asked;
pub use change::{Callee, Change, Value};
pub use counting::count_mutants;
pub use laws::{
    among_exactly, among_in_order, among_once, listed_exactly, listed_in_order, listed_once,
};
pub use listing::class_mutants;
pub use mutant::{CellTable, Mutant, State, Verdict};
pub use parts::code_of;
pub use pool::Pool;
pub use printing::{id_lines, id_text};
pub use program::{count_all, mutants};
pub use table::{mutators, row};
