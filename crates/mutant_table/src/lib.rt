//! The claims under real threads: workers draw cells from one atomic word, and keep each mutant's
//! least detected place in another.
#![tactic(auto)]

mod claiming;
mod closing;
mod making;
mod rule;
mod seat;
mod table;

pub use seat::ClaimSeat;
pub use table::{ClaimEnd, ClaimTable};
