//! Why a shard file can't be read.

ghost use Rattle.std.specs.Prelude.{◌≡◌};
ghost use Rattle.shard_merge.specs.Files.{fault_of};

use shard_rules::HeadFault;

/// Why a shard file can't be read.
#[derive(Clone, Copy)]
pub enum ShardFault {
    /// No spelling has this byte's item here. A place is a byte offset in the file, from 0.
    Bad { at: u64 },
    /// Memory has run out.
    Memory,
}

impl From<HeadFault> for ShardFault {
    ghost from_gives = { λ bad e. e ≡ fault_of bad };

    fn from(bad: HeadFault) -> ShardFault {
        match bad {
            HeadFault::Bad { at } => ShardFault::Bad { at },
        }
    }
}
