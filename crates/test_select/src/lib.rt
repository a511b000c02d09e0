//! Which tests a mutant needs: those that reach its class and line.
#![tactic(auto)]

mod laws;
mod mutant;
mod selection;

pub use laws::cells_ascend;
pub use mutant::MutantPlace;
pub use selection::{Cell, SelectFault, cells, count_cells};
