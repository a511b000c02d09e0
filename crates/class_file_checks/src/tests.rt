//! The tests of the layer, each family as one table. They name what no clause says: that the
//! definitions are the standard's, by its own vectors and by what `javac` wrote, and that each call
//! succeeds.

mod attributes;
mod code;
mod descriptors;
mod files;
mod items;
mod lists;
mod names;
mod pools;
mod texts;
