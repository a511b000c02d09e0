//! What a run has used, by numbers: a mark for each number beside a list in order of first use.
#![tactic(auto)]

mod begun;
mod marks;
mod reached;
mod slots;

pub use begun::Begun;
pub use marks::Marks;
pub use reached::Reached;
pub use slots::make_place;
