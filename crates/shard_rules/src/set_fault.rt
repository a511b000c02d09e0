//! Why shard files aren't a whole set.

/// Why the heads of shard files, whose places count from 0, aren't those of all shards.
#[derive(Clone, Copy)]
pub enum SetFault {
    /// The first head of another number of shards than that of the first head.
    Count { place: u32, of: u16, first: u16 },
    /// The first head with the index of an earlier one.
    Doubled { index: u16, place: u32 },
    /// The least index that no head has.
    Missing { index: u16 },
}
