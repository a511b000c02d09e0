//! The number of what records mean.

/// Under it a history is written. Records of another number are passed over, since they were made
/// by another machine, library, link or discovery of tests. `PROFILE_SUMS` beside `src/` has the sum
/// of their definitions.
pub const PROFILE_NUMBER: u16 = 1;
