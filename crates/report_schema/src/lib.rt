//! What the report is made of, in the words of its definitions; the file of a class, and the summary
//! line. Its text is `report_pieces`, the tests and wrong bodies are `report_checks`.
#![tactic(auto)]

mod class_file;
mod summary;

pub use class_file::{file_key, package_len};
pub use summary::summary_text;
