//! How a run ended.

ghost use Rattle.std.specs.Prelude.{◌≡◌, ◌<◌, ℕ, List, IfOk, IfSome};
ghost use Rattle.history_rules.specs.Items.{text_where};
ghost use Rattle.history_rules.specs.Reading.{is_paired_from, is_paired, is_high, is_low, told_cause_at, cause_at, failed_at, outcome_at, are_steps};
ghost use Rattle.history_rules.specs.Histories.{is_failed};
ghost use Rattle.history_file.specs.Rows.{name_of, outcome_of, IsEnd};
ghost use Rattle.history_file.specs.Texts.{AreTexts, HasRoom};
ghost use Rattle.history_file.specs.Reading.{IsFailedBy, ReadsUnder, Told, ToldCause, cause_of};

use crate::row::End;
use crate::texts::{Texts, decode};
use history_rules::HistoryFault;
use mt_bytes::Cursor;
use std::alloc::Global;

fn is_high(unit: u16) -> bool
    ensures { result ≡ is_high unit }
{
    0xD800 <= unit && unit < 0xDC00
}

fn is_low(unit: u16) -> bool
    ensures { result ≡ is_low unit }
{
    0xDC00 <= unit && unit < 0xE000
}

// Whether the units behind a high surrogate, or behind none, are paired.
fn is_paired_from(high: bool, units: &[u16]) -> bool
    ensures { result ≡ is_paired_from high units.now }
{
    let mut open = high;
    let mut rest = units;
    while let [unit, behind @ ..] = rest {
        if open {
            if !is_low(*unit) {
                return false;
            }
            open = false;
        } else {
            if is_low(*unit) {
                return false;
            }
            open = is_high(*unit);
        }
        rest = behind;
    }
    !open
}

/// Whether each surrogate has its other half.
pub fn is_paired(units: &[u16]) -> bool
    ensures { result ≡ is_paired units.now }
{
    is_paired_from(false, units)
}

// The name of a class that was thrown. A lone surrogate in it is told where its bytes begin.
#[tactic(auto, unfolding(history_rules::specs::Items::text_at), using(crate::proofs::Room::room_for_one, crate::proofs::Room::text_room))]
fn read_thrown<'a>(
    alloc: Global,
    texts: &mut Texts<'a>,
    cur: &mut Cursor<'a>,
) -> Result<u32, HistoryFault>
    requires known { AreTexts texts.old }
    requires room { HasRoom texts.old cur.old }
    ensures read { ReadsUnder name_of (text_where is_paired) texts.new cur.old cur.new result }
    ensures told { IfOk result (λ k. Told texts.old texts.new (λ n. k < n)) }
    ensures room { IfOk result (λ _. HasRoom texts.new cur.new) }
{
    let len = cur.u2()?;
    let at = cur.at();
    let bytes = cur.take(u32::from(len))?;
    let name = decode(alloc, bytes, at)?;
    if !is_paired(name.as_slice()) {
        return Err(HistoryFault::HistoryBad { at });
    }
    let number = texts.number(alloc, bytes, at)?;
    Ok(number)
}

// Why a test failed, as the second version tells it: none where its method returned.
#[tactic(auto, unfolding(history_rules::specs::Reading::told_cause_at), using(crate::proofs::Room::number_room))]
fn read_told_cause<'a>(
    alloc: Global,
    texts: &mut Texts<'a>,
    cur: &mut Cursor<'a>,
) -> Result<Option<u32>, HistoryFault>
    requires known { AreTexts texts.old }
    requires room { HasRoom texts.old cur.old }
    ensures read { ReadsUnder cause_of told_cause_at texts.new cur.old cur.new result }
    ensures told { IfOk result (λ cause. ToldCause texts.old texts.new cause) }
    ensures room { IfOk result (λ _. HasRoom texts.new cur.new) }
{
    let at = cur.at();
    let tag = cur.u1()?;
    if tag > 1 {
        return Err(HistoryFault::HistoryBad { at });
    }
    if tag == 0 {
        return Ok(None);
    }
    let name = read_thrown(alloc, texts, cur)?;
    Ok(Some(name))
}

// Why a test failed. The first version doesn't tell it.
#[tactic(auto, unfolding(history_rules::specs::Reading::cause_at))]
fn read_cause<'a>(
    alloc: Global,
    version: u16,
    texts: &mut Texts<'a>,
    cur: &mut Cursor<'a>,
) -> Result<Option<u32>, HistoryFault>
    requires known { AreTexts texts.old }
    requires room { HasRoom texts.old cur.old }
    ensures read { ReadsUnder cause_of (cause_at version) texts.new cur.old cur.new result }
    ensures told { IfOk result (λ cause. ToldCause texts.old texts.new cause) }
    ensures room { IfOk result (λ _. HasRoom texts.new cur.new) }
{
    if version == 1 {
        return Ok(None);
    }
    let cause = read_told_cause(alloc, texts, cur)?;
    Ok(cause)
}

fn end_of(cause: Option<u32>) -> End
    ensures failed { IsFailedBy cause result }
    ensures within { (n : ℕ) → IfSome cause (λ k. k < n) → IsEnd n result }
{
    match cause {
        None => End::Returned,
        Some(name) => End::Thrown(name),
    }
}

#[tactic(auto, unfolding(history_rules::specs::Reading::failed_at))]
fn read_failed<'a>(
    alloc: Global,
    version: u16,
    texts: &mut Texts<'a>,
    cur: &mut Cursor<'a>,
) -> Result<End, HistoryFault>
    requires known { AreTexts texts.old }
    requires room { HasRoom texts.old cur.old }
    ensures read { ReadsUnder outcome_of (failed_at version) texts.new cur.old cur.new result }
    ensures told { IfOk result (λ end. Told texts.old texts.new (λ n. IsEnd n end)) }
    ensures room { IfOk result (λ _. HasRoom texts.new cur.new) }
{
    let cause = read_cause(alloc, version, texts, cur)?;
    Ok(end_of(cause))
}

/// How a run ended.
#[tactic(auto, unfolding(history_rules::specs::Reading::outcome_at), using(crate::proofs::Room::number_room))]
pub fn read_end<'a>(
    alloc: Global,
    version: u16,
    texts: &mut Texts<'a>,
    cur: &mut Cursor<'a>,
) -> Result<End, HistoryFault>
    requires known { AreTexts texts.old }
    requires room { HasRoom texts.old cur.old }
    ensures read { ReadsUnder outcome_of (outcome_at version) texts.new cur.old cur.new result }
    ensures told { IfOk result (λ end. Told texts.old texts.new (λ n. IsEnd n end)) }
    ensures room { IfOk result (λ _. HasRoom texts.new cur.new) }
{
    let at = cur.at();
    let tag = cur.u1()?;
    if tag > 3 {
        return Err(HistoryFault::HistoryBad { at });
    }
    if tag == 0 {
        return Ok(End::Passed);
    }
    if tag == 1 {
        let end = read_failed(alloc, version, texts, cur)?;
        return Ok(end);
    }
    if tag == 2 {
        return Ok(End::TimedOut);
    }
    Ok(End::MemoryOut)
}

/// Whether a run of so many steps can have ended so under its limit.
pub fn are_steps(limit: u64, end: End, steps: u64) -> bool
    ensures { (texts : List (List ℕ)) → result ≡ are_steps limit (outcome_of texts end) steps }
{
    match end {
        End::TimedOut => steps == limit,
        End::Passed => steps <= limit,
        End::Returned => steps <= limit,
        End::Thrown(_) => steps <= limit,
        End::MemoryOut => steps <= limit,
    }
}

/// Whether the test failed.
pub fn is_failed(end: End) -> bool
    ensures { (texts : List (List ℕ)) → result ≡ is_failed (outcome_of texts end) }
{
    match end {
        End::Returned => true,
        End::Thrown(_) => true,
        End::Passed => false,
        End::TimedOut => false,
        End::MemoryOut => false,
    }
}
