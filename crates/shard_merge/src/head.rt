//! The first bytes of a shard file.

ghost use Rattle.std.specs.Prelude.{◌≡◌, None, Some, MatchResult};
ghost use Rattle.codec_rules.specs.Input.{IsBytes};
ghost use Rattle.shard_rules.specs.Files.{second_at};
ghost use Rattle.shard_rules.specs.Heads.{head_at, head_in, number_fault};
ghost use Rattle.shard_merge.specs.Files.{ReadsFront, SplitsFront};

use mt_bytes::Cursor;
use shard_rules::{Head, HeadFault};

const SHARDS_LIMIT: u16 = 64;

// The bytes of a head.
const HEAD_LENGTH: usize = 10;

// Refuses an index past the number of shards, and a number past the limit.
fn check_number(index_at: u64, of_at: u64, index: u16, of: u16) -> Result<(), HeadFault>
    ensures { MatchResult result (λ _. number_fault index_at of_at index of ≡ None)
        (λ fault. number_fault index_at of_at index of ≡ Some fault) }
{
    if index > of {
        return Err(HeadFault::Bad { at: index_at });
    }
    if of > SHARDS_LIMIT {
        return Err(HeadFault::Bad { at: of_at });
    }
    Ok(())
}

// The head at the front of a shard file.
#[tactic(auto, unfolding(shard_rules::specs::Heads::head_at))]
fn head_at(cur: &mut Cursor) -> Result<Head, HeadFault>
    ensures { ReadsFront head_at cur.old cur.new result }
{
    let at = cur.at();
    let magic = cur.u4()?;
    if magic != 0x4d54_5348 {
        return Err(HeadFault::Bad { at });
    }
    let at = cur.at();
    let version = cur.u2()?;
    if version != 1 {
        return Err(HeadFault::Bad { at });
    }
    let index_at = cur.at();
    let index = cur.u2()?;
    if index == 0 {
        return Err(HeadFault::Bad { at: index_at });
    }
    let of_at = cur.at();
    let of = cur.u2()?;
    check_number(index_at, of_at, index, of)?;
    Ok(Head { index, of })
}

/// Of which shard a file is, by its first bytes; or the first fault among them.
pub fn read_head(bytes: &[u8]) -> Result<Head, HeadFault>
    ensures { result ≡ head_in bytes.now }
{
    let mut cur = Cursor::new(bytes, 0);
    match head_at(&mut cur) {
        Ok(head) => Ok(head),
        Err(fault) => Err(fault),
    }
}

// The version of the history behind a head, which is the one that is written.
#[tactic(auto, unfolding(shard_rules::specs::Files::second_at))]
fn second_at(cur: &mut Cursor) -> Result<u16, HeadFault>
    ensures { ReadsFront second_at cur.old cur.new result }
{
    let at = cur.at();
    let magic = cur.u4()?;
    if magic != 0x4d54_4849 {
        return Err(HeadFault::Bad { at });
    }
    let at = cur.at();
    let version = cur.u2()?;
    if version != 2 {
        return Err(HeadFault::Bad { at });
    }
    Ok(version)
}

// Bytes are below 256. Only the prover reads this.
fn are_bytes(bytes: &[u8])
    ensures { IsBytes bytes.now }
{
    let _bytes = bytes;
}

/// The head, and behind it what begins as a history of the version that is written does.
pub fn split_front<'a>(bytes: &'a [u8]) -> Result<(Head, &'a [u8]), HeadFault>
    ensures { SplitsFront bytes.entry.now result }
{
    are_bytes(bytes);
    let mut cur = Cursor::new(bytes, 0);
    let head = head_at(&mut cur)?;
    let (_front, rest) = bytes.split_at(HEAD_LENGTH);
    let mut behind = Cursor::new(rest, 10);
    let _version = second_at(&mut behind)?;
    Ok((head, rest))
}
