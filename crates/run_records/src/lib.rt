//! Records of runs: made of them, matched with them, found among old ones.
#![tactic(auto)]

mod class_files;
mod consulted;
mod fitting;
mod looked_up;
mod matching;
mod reached;
mod recorded;
mod recording;

pub use fitting::fits_fields;
pub use jvm_run::Tables;
pub use looked_up::Lookup;
pub use matching::{holds_all, matches};
pub use recorded::Recorded;
pub use recording::{make_record, record};
