//! The report in the mutation testing report schema, piece by piece, and the files in which mutants
//! and tests stand.
#![tactic(auto)]

mod class_file;
mod files;
mod groups;
mod identifiers;
mod input;
mod keys;
mod mutants;
mod pieces;
mod report;
mod text;

pub use class_file::key_with;
pub use files::text_or_empty;
pub use groups::grouped;
pub use input::{Group, ReportInput};
pub use keys::{mutant_files, test_files};
pub use report::report_text;
