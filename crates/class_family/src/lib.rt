//! What a search over a class and all above it goes over, by number: each class once.
#![tactic(auto)]

mod behind;
pub mod laws;
mod rising;
mod seen;
mod steps;
mod tasks;
mod walker;

pub use behind::{class_behind, element_of, object_name};
pub use rising::superclass;
pub use walker::{Walker, class_at};
