//! A run that shard files lack.

/// A run that no record of the shard that owns it matches: the shard's index, the number of the
/// test, and that of the mutant; none for a run on the program as it is. These numbers count from 0.
#[derive(Clone, Copy)]
pub struct Lack {
    pub index: u16,
    pub test: u32,
    pub mutant: Option<u32>,
}
