//! The first bytes of a shard file.

ghost use Rattle.std.specs.Prelude.{◌≡◌};
ghost use Rattle.shard_rules.specs.declared.head.HeadFault.TheVariants as fault;

use mt_bytes::Truncated;

/// Of which shard a file is: its index, from 1, and how many shards there are.
#[derive(Clone, Copy)]
pub struct Head {
    pub index: u16,
    pub of: u16,
}

/// Why bytes are no shard file.
#[derive(Clone, Copy)]
pub enum HeadFault {
    /// No spelling has this byte's item here. A place is a byte offset in the file, from 0.
    Bad { at: u64 },
}

impl From<Truncated> for HeadFault {
    ghost from_gives = { λ cut e. e ≡ fault.Bad cut.at };

    fn from(cut: Truncated) -> HeadFault {
        HeadFault::Bad { at: cut.at }
    }
}
