//! What is left of a call is done (JVMS 6.5): native methods, the begin of a class before a static
//! method, and the `clone` of an array.
#![tactic(auto)]

mod arguments;
mod calling;
mod cloning;
mod completing;
mod deeds;
mod ending;
mod giving;
mod natives;
mod performing;
mod readying;
mod sites;

pub use completing::complete;
pub use natives::Natives;
