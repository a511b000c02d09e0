//! `multianewarray` over frames and a world: its counts, the words that its arrays take, and the
//! arrays.
#![tactic(auto)]

mod arrays;
mod building;
mod counts;
mod dimensions;
mod room;

pub use arrays::make_arrays;
pub use room::has_room_in;
