//! The supers of a program's classes, by number: which classes stand above themselves, and in which
//! order classes stand above one another.
#![tactic(auto)]

mod above;
mod links;
mod search;
mod standing;
mod walk;

pub use above::{Above, all_above, is_over};
pub use links::Links;
pub use standing::Standing;
pub use walk::standings;
