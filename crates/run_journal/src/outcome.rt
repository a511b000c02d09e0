//! How a run ended, as a record in a journal has it.

ghost use Rattle.std.specs.Prelude.{◌≡◌};
ghost use Rattle.history_rules.specs.Items.{ReadsFile, text_at, text_where};
ghost use Rattle.history_rules.specs.Reading.{is_paired, told_cause_at, cause_at, outcome_at, are_steps};

use class_model::{Cause, Name, Outcome};
use history_file::{decode, is_paired};
use history_rules::HistoryFault;
use mt_bytes::Cursor;
use std::alloc::Global;

/// A name, as a text.
#[tactic(auto, unfolding(history_rules::specs::Items::text_at))]
pub fn read_name(alloc: Global, cur: &mut Cursor) -> Result<Name, HistoryFault>
    ensures { ReadsFile text_at cur.old cur.new result }
{
    let len = cur.u2()?;
    let at = cur.at();
    let bytes = cur.take(u32::from(len))?;
    let name = decode(alloc, bytes, at)?;
    Ok(name)
}

// The name of a class that was thrown. A lone surrogate in it is told where its bytes begin.
#[tactic(auto, unfolding(history_rules::specs::Items::text_at))]
fn read_thrown(alloc: Global, cur: &mut Cursor) -> Result<Name, HistoryFault>
    ensures { ReadsFile (text_where is_paired) cur.old cur.new result }
{
    let len = cur.u2()?;
    let at = cur.at();
    let bytes = cur.take(u32::from(len))?;
    let name = decode(alloc, bytes, at)?;
    if !is_paired(name.as_slice()) {
        return Err(HistoryFault::HistoryBad { at });
    }
    Ok(name)
}

// Why a test failed, as the second version tells it.
#[tactic(auto, unfolding(history_rules::specs::Reading::told_cause_at))]
fn read_told_cause(alloc: Global, cur: &mut Cursor) -> Result<Cause, HistoryFault>
    ensures { ReadsFile told_cause_at cur.old cur.new result }
{
    let at = cur.at();
    let tag = cur.u1()?;
    if tag > 1 {
        return Err(HistoryFault::HistoryBad { at });
    }
    if tag == 0 {
        return Ok(Cause::Returned);
    }
    let name = read_thrown(alloc, cur)?;
    Ok(Cause::Thrown(name))
}

// Why a test failed. The first version doesn't tell it.
#[tactic(auto, unfolding(history_rules::specs::Reading::cause_at))]
fn read_cause(alloc: Global, version: u16, cur: &mut Cursor) -> Result<Cause, HistoryFault>
    ensures { ReadsFile (cause_at version) cur.old cur.new result }
{
    if version == 1 {
        return Ok(Cause::Returned);
    }
    let cause = read_told_cause(alloc, cur)?;
    Ok(cause)
}

/// How a run ended.
#[tactic(auto, unfolding(history_rules::specs::Reading::outcome_at, history_rules::specs::Reading::failed_at))]
pub fn read_outcome(alloc: Global, version: u16, cur: &mut Cursor) -> Result<Outcome, HistoryFault>
    ensures { ReadsFile (outcome_at version) cur.old cur.new result }
{
    let at = cur.at();
    let tag = cur.u1()?;
    if tag > 3 {
        return Err(HistoryFault::HistoryBad { at });
    }
    if tag == 0 {
        return Ok(Outcome::Passed);
    }
    if tag == 1 {
        let cause = read_cause(alloc, version, cur)?;
        return Ok(Outcome::Failed(cause));
    }
    if tag == 2 {
        return Ok(Outcome::TimedOut);
    }
    Ok(Outcome::MemoryOut)
}

/// Whether a run of so many steps can have ended so under its limit.
pub fn are_steps(limit: u64, outcome: &Outcome, steps: u64) -> bool
    ensures { result ≡ are_steps limit outcome.now steps }
{
    match outcome {
        Outcome::TimedOut => steps == limit,
        Outcome::Passed => steps <= limit,
        Outcome::Failed(_) => steps <= limit,
        Outcome::MemoryOut => steps <= limit,
    }
}
