//! What the instances of a class hold at first, and the words that they take.
#![tactic(auto)]

mod fields;
mod layout;
mod native;
mod slots;

pub use layout::{Layout, layout_of};
pub use slots::slot_of;
