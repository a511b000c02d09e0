//! The native methods of `java/util` and of `mt`: lists, maps, sets and their iterators.
#![tactic(auto)]

mod entries;
mod iterators;
mod list;
mod making;
mod natives;

pub use natives::util_deed;
