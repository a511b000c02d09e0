//! Records of a history by number: which is the first that matches a run.
//!
//! Names, classes and tests have numbers in a history. `Standings` say once for a program which of
//! its classes are the history's, a `Lookout` which records match its runs, or would if one class
//! were another. A look-up for an edited program is then three questions of numbers at most.
#![tactic(auto)]

mod firsts;
mod groups;
mod index;
mod lists;
mod lookout;
mod matching;
mod numbers;
mod pairs;
mod runs;
mod standings;

pub use index::HistoryIndex;
pub use lookout::Lookout;
pub use standings::{Standings, Swap};
