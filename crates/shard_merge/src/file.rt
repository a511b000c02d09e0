//! A shard file, read.

ghost use Rattle.std.specs.Prelude.{◌≡◌, ◌≤◌, IfErr, IfOk, length, nat_lt};
ghost use Rattle.codec_rules.specs.Spelling.{input_at};
ghost use Rattle.history_rules.specs.Laws.{AreWritable};
ghost use Rattle.history_file.specs.Rows.{records_of};
ghost use Rattle.shard_rules.specs.Files.{bad_from, most};
ghost use Rattle.shard_merge.specs.Files.{GivesRecords, GivesShard, MayBeTold, TellsFault};

use crate::fault::ShardFault;
use crate::head::split_front;
use history_file::{History, read_history};
use history_rules::HistoryFault;
use shard_rules::{Head, faults_are_placed};
use std::alloc::Global;

// The most bytes that a shard file has: a head's, and those of a history.
const MOST: usize = 536_870_922;

/// What was read of a shard file: of which shard it is, and its records by number, as slices of its
/// bytes.
#[derive(Drop)]
pub struct ShardFile<'a> {
    pub head: Head,
    pub history: History<'a>,
}

fn is_too_long(bytes: &[u8]) -> bool
    ensures { result ≡ nat_lt most (length bytes.now) }
{
    bytes.len() > MOST
}

// Why the history behind a head, which has ten bytes, is none.
fn fault_behind(fault: HistoryFault) -> ShardFault
    requires { MayBeTold fault }
    ensures { TellsFault 10 fault result }
{
    match fault {
        HistoryFault::HistoryBad { at } => ShardFault::Bad { at: at + 10 },
        HistoryFault::TooLong { len } => ShardFault::Bad { at: len },
        HistoryFault::Memory => ShardFault::Memory,
    }
}

// The records of the history behind a head.
fn history_behind<'a>(
    alloc: Global,
    profile: u16,
    rest: &'a [u8],
) -> Result<History<'a>, ShardFault>
    ensures read { GivesRecords profile (input_at 10 rest.entry.now) result }
    ensures form { IfOk result (λ h. AreWritable (records_of h)) }
{
    faults_are_placed();
    match read_history(alloc, profile, rest) {
        Ok(history) => Ok(history),
        Err(fault) => Err(fault_behind(fault)),
    }
}

/// The shard that a file is for a tool of this profile number, or the first fault. Its records can
/// be written. It takes time by the bytes, times the logarithm of how many things there are.
pub fn read_shard<'a>(
    alloc: Global,
    profile: u16,
    bytes: &'a [u8],
) -> Result<ShardFile<'a>, ShardFault>
    ensures read { GivesShard profile bytes.entry.now result }
    ensures form { IfOk result (λ f. AreWritable (records_of f.history)) }
{
    if is_too_long(bytes) {
        return Err(ShardFault::Bad { at: MOST as u64 });
    }
    let (head, rest) = split_front(bytes)?;
    let history = history_behind(alloc, profile, rest)?;
    Ok(ShardFile { head, history })
}
