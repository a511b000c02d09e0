//! The sources of a report: which of its keys a folder holds, and what they hold. Its tests and
//! wrong bodies stand in `report_checks`.
#![tactic(auto)]

mod fault;
mod listed;
mod reading;

pub use fault::SourceFault;
pub use reading::read_sources;
